//! The words of a script's line, and the data that it puts.
//!
//! - A line of the block of `table` has words, and behind ` => ` the command that they say, or `none`.
//! - `some BYTES` says that these words say a command, and `none BYTES` that they don't.
//! - `data COMMAND` has one that puts data, and behind it `piece FIRST LENGTH BYTES` the bytes with which a piece of this
//!   data begins.

use crate::found::{Wrong, compared, judged, no_such, row_compared, tell};
use crate::names::add_named;
use case_files::{Judged, Statement, bytes_of};
use oz_command::{Command, command_of, piece_of};
use oz_steps::data_length;
use std::alloc::{AllocError, Global};

/// Adds the command that words say, with its fields.
fn add_said(alloc: Global, text: &mut String, words: &[u8]) -> Result<(), AllocError> {
    match command_of(alloc, words)? {
        Some(command) => add_command(alloc, text, &command),
        None => text.push_str("none"),
    }
}

fn add_command(alloc: Global, text: &mut String, command: &Command) -> Result<(), AllocError> {
    let shown = format!(in alloc; "{command:?}")?;
    add_named(text, shown.as_str())
}

/// A line of a block comes to what it says.
fn line_found(alloc: Global, line: &str, why: &mut String) -> Result<(), Wrong> {
    match line.split_once(" => ") {
        Some((words, wanted)) => {
            let mut came = String::new(alloc);
            add_said(alloc, &mut came, words.as_bytes())?;
            row_compared(words, wanted, came.as_str(), why)
        }
        None => no_such(line, why),
    }
}

/// Tells of a line of a block.
fn tell_line(
    alloc: Global,
    told: &mut Vec<String>,
    row: &Statement,
    line: &str,
) -> Result<(), AllocError> {
    let mut why = String::new(alloc);
    let found = line_found(alloc, line, &mut why);
    tell(alloc, told, row, found, why.as_str())
}

/// Tells of the lines of a block.
fn tell_lines(alloc: Global, told: &mut Vec<String>, row: &Statement) -> Result<(), AllocError> {
    for line in &row.block {
        tell_line(alloc, told, row, line.as_str())?;
    }
    Ok(())
}

/// Adds the bytes of words.
fn read_bytes(
    alloc: Global,
    bytes: &mut Vec<u8>,
    words: &str,
    why: &mut String,
) -> Result<(), Wrong> {
    match bytes_of(alloc, words)? {
        Some(read) => {
            *bytes = read;
            Ok(())
        }
        None => no_such(words, why),
    }
}

/// The bytes of the words of a row from a place on.
fn bytes_from(
    alloc: Global,
    row: &Statement,
    place: usize,
    why: &mut String,
) -> Result<Vec<u8>, Wrong> {
    let words = row.words_from(alloc, place)?;
    let mut bytes = Vec::new(alloc);
    read_bytes(alloc, &mut bytes, words.as_str(), why)?;
    Ok(bytes)
}

/// Whether words that are given as bytes say a command.
fn some_or_none(alloc: Global, row: &Statement, why: &mut String) -> Result<(), Wrong> {
    let words = bytes_from(alloc, row, 1, why)?;
    let is_some = command_of(alloc, &words)?.is_some();
    compared(row.word(0), if is_some { "some" } else { "none" }, why)
}

/// The bytes that a command puts there.
fn piece(
    alloc: Global,
    words: &str,
    first: u64,
    length: u32,
    why: &mut String,
) -> Result<Vec<u8>, Wrong> {
    let Some(command) = command_of(alloc, words.as_bytes())? else {
        return no_such(words, why);
    };
    match first.checked_add(u64::from(length)) {
        Some(end) if end <= data_length(&command) => {
            Ok(piece_of(alloc, &command, first, length)?)
        }
        _ => no_such("a piece past the data's end", why),
    }
}

/// The piece has so many bytes, which begin with these.
fn begins(piece: &[u8], length: u32, wanted: &[u8], why: &mut String) -> Result<(), Wrong> {
    if piece.len() != length as usize {
        write!(why, "{} bytes came", piece.len())?;
        return Err(Wrong::Differs);
    }
    let front = piece.get(..wanted.len()).unwrap_or(piece);
    if front == wanted {
        return Ok(());
    }
    write!(why, "wanted \"{wanted:?}\" and \"{front:?}\" came")?;
    Err(Wrong::Differs)
}

/// The piece's first byte and its length.
fn piece_named(row: &Statement, why: &mut String) -> Result<(u64, u32), Wrong> {
    match (row.number(1), row.number(2)) {
        (Some(first), Some(length)) => match u32::try_from(length) {
            Ok(length) => Ok((first, length)),
            Err(_) => no_such("no length", why),
        },
        _ => no_such("no numbers", why),
    }
}

/// A piece of the command's data.
fn piece_compared(
    alloc: Global,
    command: &str,
    row: &Statement,
    why: &mut String,
) -> Result<(), Wrong> {
    let (first, length) = piece_named(row, why)?;
    let wanted = bytes_from(alloc, row, 3, why)?;
    let piece = piece(alloc, command, first, length, why)?;
    begins(&piece, length, &wanted, why)
}

/// A row comes to what it says.
fn found(
    alloc: Global,
    command: &mut String,
    row: &Statement,
    why: &mut String,
) -> Result<(), Wrong> {
    match row.word(0) {
        "some" | "none" => some_or_none(alloc, row, why),
        "data" => {
            *command = row.words_from(alloc, 1)?;
            Ok(())
        }
        "piece" => piece_compared(alloc, command.as_str(), row, why),
        other => no_such(other, why),
    }
}

/// Tells of a row that isn't a table.
fn tell_row(
    alloc: Global,
    told: &mut Vec<String>,
    command: &mut String,
    row: &Statement,
) -> Result<(), AllocError> {
    let mut why = String::new(alloc);
    let found = found(alloc, command, row, &mut why);
    tell(alloc, told, row, found, why.as_str())
}

/// Judges a case of commands.
pub fn judge_commands(alloc: Global, case: &[Statement]) -> Result<Judged, AllocError> {
    let mut told = Vec::new(alloc);
    let mut command = String::new(alloc);
    for row in case.iter().skip(1) {
        if row.word(0) == "table" {
            tell_lines(alloc, &mut told, row)?;
        } else {
            tell_row(alloc, &mut told, &mut command, row)?;
        }
    }
    Ok(judged(told))
}
