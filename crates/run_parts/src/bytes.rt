//! The bytes that a statement names.

use case_files::{Statement, bytes_of};
use oz_world::OutOfMemory;
use std::alloc::Global;

/// Adds a record to a journal: an open gate, the size of the body in four bytes with the highest first, and the body.
fn add_record(journal: &mut Vec<u8>, body: &[u8]) -> Result<(), OutOfMemory> {
    let size = u32::try_from(body.len()).unwrap_or(u32::MAX);
    journal.push(1)?;
    journal.extend_from_slice(&size.to_be_bytes())?;
    journal.extend_from_slice(body)
}

/// Adds the record of the body that a line has, and says whether it is one.
fn add_body(alloc: Global, journal: &mut Vec<u8>, line: &str) -> Result<bool, OutOfMemory> {
    match bytes_of(alloc, line)? {
        Some(body) => {
            add_record(journal, &body)?;
            Ok(true)
        }
        None => Ok(false),
    }
}

/// Adds a journal of the bodies that lines have, and a closed gate, and says whether they could be read.
fn add_journal(
    alloc: Global,
    journal: &mut Vec<u8>,
    lines: &[String],
) -> Result<bool, OutOfMemory> {
    for line in lines {
        if !add_body(alloc, journal, line.as_str())? {
            return Ok(false);
        }
    }
    journal.push(0)?;
    Ok(true)
}

/// Whether the bytes that the words from a place on say are the journal of the bodies in the block.
fn has_bodies(statement: &Statement, place: usize) -> bool {
    statement.word(place) == "bodies" && statement.words.len() == place.saturating_add(1)
}

/// Adds the bytes that words say, and says whether they do.
fn add_words(alloc: Global, bytes: &mut Vec<u8>, words: &str) -> Result<bool, OutOfMemory> {
    match bytes_of(alloc, words)? {
        Some(said) => {
            bytes.extend_from_slice(&said)?;
            Ok(true)
        }
        None => Ok(false),
    }
}

/// Adds the bytes that the words from a place on say: words of bytes, or `bodies`, with a block that has a body a line, for the
/// journal of these. It says whether they could be read.
pub fn add_bytes(
    alloc: Global,
    bytes: &mut Vec<u8>,
    statement: &Statement,
    place: usize,
) -> Result<bool, OutOfMemory> {
    if has_bodies(statement, place) {
        return add_journal(alloc, bytes, &statement.block);
    }
    if statement.words.len() <= place {
        return Ok(true);
    }
    let words = statement.words_from(alloc, place)?;
    add_words(alloc, bytes, words.as_str())
}
