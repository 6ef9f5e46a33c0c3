//! What is told of a case that can't be read.

use case_files::{Judged, Statement};
use std::alloc::{AllocError, Global};

/// A case that holds.
pub fn holds(alloc: Global) -> Judged {
    Judged {
        differs: Vec::new(alloc),
        is_last: false,
    }
}

/// A case with a statement that can't be read.
pub fn unread(alloc: Global, statement: &Statement, why: &str) -> Result<Judged, AllocError> {
    let mut differs = Vec::new(alloc);
    differs.push(format!(in alloc; "line {}: {why}", statement.line)?)?;
    Ok(Judged {
        differs,
        is_last: false,
    })
}
