//! Why a text can't be read.

use oz_fields::OutOfMemory;
use std::alloc::Global;

/// Why a text can't be read.
#[derive(Debug, Drop)]
pub enum Unread {
    OutOfMemory,
    /// This line says nothing, or more than one thing.
    Line(String),
}

impl From<OutOfMemory> for Unread {
    fn from(_error: OutOfMemory) -> Unread {
        Unread::OutOfMemory
    }
}

/// What is told of a line that can't be read.
pub fn cannot_read(alloc: Global, line: &str) -> Unread {
    match String::from_str(alloc, line) {
        Ok(text) => Unread::Line(text),
        Err(error) => Unread::from(error),
    }
}
