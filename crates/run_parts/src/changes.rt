//! What a case makes of the bytes of a disk.

use crate::bytes::add_bytes;
use case_files::Statement;
use oz_world::OutOfMemory;
use std::alloc::Global;

/// The place in bytes that is the word at a place of a statement.
fn offset_at(statement: &Statement, place: usize) -> Option<usize> {
    let number = statement.number(place)?;
    usize::try_from(number).ok()
}

/// Puts others in the place of the bytes from an offset on, and adds those that reach behind the end.
fn overwrite(bytes: &mut Vec<u8>, at: usize, others: &[u8]) -> Result<(), OutOfMemory> {
    let mut next = at;
    for other in others {
        match bytes.get_mut(next) {
            Some(byte) => *byte = *other,
            None => bytes.push(*other)?,
        }
        next = next.saturating_add(1);
    }
    Ok(())
}

/// `cut LENGTH`: the first bytes, of which there are as many.
fn cut(bytes: &mut Vec<u8>, statement: &Statement) -> bool {
    match offset_at(statement, 3) {
        Some(count) if count <= bytes.len() && statement.words.len() == 4 => {
            bytes.truncate(count);
            true
        }
        _ => false,
    }
}

/// Turns these bits of the byte at a place, where there is one.
fn flip_at(bytes: &mut Vec<u8>, at: usize, bits: u8) -> bool {
    match bytes.get_mut(at) {
        Some(byte) => {
            *byte ^= bits;
            true
        }
        None => false,
    }
}

/// `flip OFFSET BITS`: these bits of one byte are turned.
fn flip(bytes: &mut Vec<u8>, statement: &Statement) -> bool {
    let bits = statement.word(4).parse::<u8>().ok();
    match (offset_at(statement, 3), bits) {
        (Some(at), Some(bits)) if statement.words.len() == 5 => flip_at(bytes, at, bits),
        _ => false,
    }
}

/// `at OFFSET BYTES`: others from an offset on, which isn't behind the end.
fn put(alloc: Global, bytes: &mut Vec<u8>, statement: &Statement) -> Result<bool, OutOfMemory> {
    let mut others = Vec::new(alloc);
    let is_read = add_bytes(alloc, &mut others, statement, 4)?;
    match offset_at(statement, 3) {
        Some(at) if at <= bytes.len() && is_read => {
            overwrite(bytes, at, &others)?;
            Ok(true)
        }
        _ => Ok(false),
    }
}

/// Makes of the bytes of a disk what a statement says, and says whether it could be read. Where it couldn't, they are worth nothing.
pub fn change(
    alloc: Global,
    bytes: &mut Vec<u8>,
    statement: &Statement,
) -> Result<bool, OutOfMemory> {
    match statement.word(2) {
        "has" => {
            bytes.clear();
            add_bytes(alloc, bytes, statement, 3)
        }
        "cut" => Ok(cut(bytes, statement)),
        "flip" => Ok(flip(bytes, statement)),
        "at" => put(alloc, bytes, statement),
        "add" => add_bytes(alloc, bytes, statement, 3),
        _ => Ok(false),
    }
}
