//! Cases of `rows`, which are of bytes. They stand on the line of a statement and on those of its block.
//!
//! - `row BYTES`: the row that these bytes are, or `fault at PLACE`. A row has to be copied as it is, and written in these bytes.
//! - `kept BYTES`: the same of a row that isn't shown, as `a row`.
//! - `body BYTES`: `layout LAYOUT, index INDEX`, and the operations of a body, a line each; or `fault at PLACE`. They have to be
//!   written in these bytes.
//! - `swept-row BYTES`, `swept-body BYTES`: `no fault` or the fault of these bytes. It has to be where a plain reader finds it, as
//!   has that of these bytes cut at each place, and with each other value of each byte.
//! - `order`: how many keys stand in the block, a line each. Each has to be above those before it.
//!
//! Of the bytes of each statement a plain reader has to find the same fault, or none.

ghost use Rattle.oz_rows.specs.Operations.{IsBody};
ghost use Rattle.oz_rows.specs.Rows.{RowFits};

use crate::again::{say_body_again, say_row_again};
use crate::plain::{body_fault, row_fault};
use crate::shown::{push_entry, push_operation};
use crate::swept::{push_fault, say_plainly, say_swept};
use crate::told::{bytes_given, given};
use case_files::{Statement, bytes_of};
use oz_rows::{Operation, Operations, Row, RowFault, RowKey, decode, operations};
use std::alloc::{AllocError, Global};

/// A row that was read, which is shown or only said to be one.
fn say_read(
    alloc: Global,
    bytes: &[u8],
    key: &RowKey,
    row: &Row,
    is_shown: bool,
    came: &mut String,
) -> Result<(), AllocError>
    requires { RowFits key.now row.now }
{
    say_row_again(alloc, bytes, key, row, came)?;
    say_plainly(came, None, row_fault(bytes))?;
    if is_shown {
        return push_entry(came, key, row);
    }
    came.push_str("a row\n")
}

/// What bytes are that are to be a row.
fn say_row(
    alloc: Global,
    bytes: &[u8],
    is_shown: bool,
    came: &mut String,
) -> Result<(), AllocError> {
    match decode(alloc, bytes) {
        Ok((key, row)) => say_read(alloc, bytes, &key, &row, is_shown, came),
        Err(RowFault::At(place)) => {
            say_plainly(came, Some(place), row_fault(bytes))?;
            push_fault(came, place)
        }
        Err(RowFault::OutOfMemory) => Err(AllocError),
    }
}

/// A body that was read.
fn say_operations(
    alloc: Global,
    bytes: &[u8],
    body: &Operations,
    came: &mut String,
) -> Result<(), AllocError>
    requires { IsBody bytes.now body.now }
{
    say_body_again(alloc, bytes, body, came)?;
    say_plainly(came, None, body_fault(bytes))?;
    write!(came, "layout {}, index {}\n", body.layout, body.index)?;
    for operation in &body.items {
        push_operation(came, operation)?;
    }
    Ok(())
}

/// What bytes are that are to be a body.
fn say_body(alloc: Global, bytes: &[u8], came: &mut String) -> Result<(), AllocError> {
    match operations(alloc, bytes) {
        Ok(body) => say_operations(alloc, bytes, &body, came),
        Err(RowFault::At(place)) => {
            say_plainly(came, Some(place), body_fault(bytes))?;
            push_fault(came, place)
        }
        Err(RowFault::OutOfMemory) => Err(AllocError),
    }
}

/// A key is as far from the other keys as its place is from theirs.
fn say_pairs(
    place: usize,
    left: &Operation,
    all: &[Operation],
    came: &mut String,
) -> Result<(), AllocError> {
    for (other, right) in all.iter().enumerate() {
        if let (Operation::Remove { key: left }, Operation::Remove { key: right }) = (left, right)
            && left.cmp(right) != place.cmp(&other)
        {
            write!(came, "the keys {place} and {other} aren't in their order\n")?;
        }
    }
    Ok(())
}

/// The body that takes away the rows of these keys, a line each.
fn removals(alloc: Global, block: &[String]) -> Result<String, AllocError> {
    let mut words = String::from_str(alloc, "01 0000000000000001")?;
    for line in block {
        words.push_str(" 02 ")?;
        words.push_str(given(line.as_str()))?;
    }
    Ok(words)
}

/// How many keys these are, and which of them don't rise.
fn say_keys(all: &[Operation], came: &mut String) -> Result<(), AllocError> {
    for (place, left) in all.iter().enumerate() {
        say_pairs(place, left, all, came)?;
    }
    write!(came, "{} keys\n", all.len())
}

/// The same of the keys of these removals; a fault where they aren't such.
fn say_removed(alloc: Global, bytes: &[u8], came: &mut String) -> Result<(), AllocError> {
    match operations(alloc, bytes) {
        Ok(body) => say_keys(body.items.items(), came),
        Err(RowFault::At(place)) => push_fault(came, place),
        Err(RowFault::OutOfMemory) => Err(AllocError),
    }
}

fn say_order(alloc: Global, block: &[String], came: &mut String) -> Result<bool, AllocError> {
    let words = removals(alloc, block)?;
    let Some(bytes) = bytes_of(alloc, words.as_str())? else {
        return Ok(false);
    };
    say_removed(alloc, &bytes, came)?;
    Ok(true)
}

/// Adds what comes of a statement, and says whether it can be read.
pub fn say_bytes(
    alloc: Global,
    statement: &Statement,
    said: &str,
    came: &mut String,
) -> Result<bool, AllocError> {
    if statement.word(0) == "order" {
        return say_order(alloc, &statement.block, came);
    }
    let Some(mut bytes) = bytes_given(alloc, said, &statement.block)? else {
        return Ok(false);
    };
    match statement.word(0) {
        "row" => say_row(alloc, &bytes, true, came)?,
        "kept" => say_row(alloc, &bytes, false, came)?,
        "body" => say_body(alloc, &bytes, came)?,
        "swept-row" => say_swept(alloc, &mut bytes, true, came)?,
        "swept-body" => say_swept(alloc, &mut bytes, false, came)?,
        _ => return Ok(false),
    }
    Ok(true)
}
