//! Scripts: what they say, or where their fault is.
//!
//! `script` has the lines of one in its block, with a newline between two, `text` with one behind each, and `bytes BYTES` has
//! its bytes; `generated NUMBER COUNT` is the script of generated load. Behind it, of the last one,
//!
//! - `read LINES` says for each line its place, client and number, and the line that it waits for: `3: 1.1 after 2.1;`;
//! - `parsed LINES of CLIENTS` says how many it has, and `written LINES of CLIENTS` how many, served or not;
//! - `read LINE CAUSE` and `parsed LINE CAUSE` say where its fault is;
//! - `long COUNT` says how many bytes it has, and `is` has all its lines in its block.

use crate::found::{Wrong, compared, judged, no_such, tell};
use case_files::{Judged, Statement, bytes_of};
use oz_freon::MOST_KEYS;
use oz_script::{Line, PlacedScript, Script, ScriptFault, parse, read_lines};
use std::alloc::{AllocError, Global};

fn add_line(text: &mut String, line: &Line, place: u64) -> Result<(), AllocError> {
    let (client, number) = (line.client, line.number);
    match line.after {
        Some((other, named)) => {
            write!(text, "{place}: {client}.{number} after {other}.{named};")
        }
        None => write!(text, "{place}: {client}.{number};"),
    }
}

fn add_lines(text: &mut String, placed: &PlacedScript) -> Result<(), AllocError> {
    let lines = placed.script.lines.items().iter();
    for (line, place) in lines.zip(placed.places.items()) {
        if !text.is_empty() {
            text.push(' ')?;
        }
        add_line(text, line, *place)?;
    }
    Ok(())
}

fn add_fault(text: &mut String, fault: ScriptFault) -> Result<(), AllocError> {
    match fault {
        ScriptFault::At { line, cause } => write!(text, "{line} {}", cause.text()),
        ScriptFault::OutOfMemory => Err(AllocError),
    }
}

fn add_counts(text: &mut String, script: &Script) -> Result<(), AllocError> {
    let (clients, lines) = (script.clients.len(), script.lines.len());
    write!(text, "{lines} of {clients}")
}

/// Adds the lines of a script, or where its fault is.
fn add_read(alloc: Global, text: &mut String, script: &[u8]) -> Result<(), AllocError> {
    match read_lines(alloc, script) {
        Ok(placed) => add_lines(text, &placed),
        Err(fault) => add_fault(text, fault),
    }
}

/// Adds how many lines and clients a script has, whether a run serves its lines or not, or where its fault is.
fn add_written(alloc: Global, text: &mut String, script: &[u8]) -> Result<(), AllocError> {
    match read_lines(alloc, script) {
        Ok(placed) => add_counts(text, &placed.script),
        Err(fault) => add_fault(text, fault),
    }
}

/// Adds how many lines and clients a script has of which a run serves each line, or where its fault is.
fn add_parsed(alloc: Global, text: &mut String, script: &[u8]) -> Result<(), AllocError> {
    match parse(alloc, script) {
        Ok(script) => add_counts(text, &script),
        Err(fault) => add_fault(text, fault),
    }
}

/// Takes the bytes that the words of a row say.
fn take_bytes(
    alloc: Global,
    script: &mut Vec<u8>,
    row: &Statement,
    why: &mut String,
) -> Result<(), Wrong> {
    let words = row.words_from(alloc, 1)?;
    match bytes_of(alloc, words.as_str())? {
        Some(bytes) => {
            *script = bytes;
            Ok(())
        }
        None => no_such(words.as_str(), why),
    }
}

/// Takes the lines of a row's block, with a newline between two.
fn take_lines(alloc: Global, script: &mut Vec<u8>, row: &Statement) -> Result<(), AllocError> {
    let text = row.text(alloc)?;
    let text = text.as_str().strip_suffix('\n').unwrap_or("");
    script.clear();
    script.extend_from_slice(text.as_bytes())
}

/// Takes the script of generated load that a row names.
fn take_generated(
    alloc: Global,
    script: &mut Vec<u8>,
    row: &Statement,
    why: &mut String,
) -> Result<(), Wrong> {
    if let (Some(number), Some(count)) = (row.number(1), row.number(2)) {
        if 1 <= count && count <= u64::from(MOST_KEYS) {
            *script = oz_freon::script(alloc, number, count as u16)?;
            return Ok(());
        }
    }
    let words = row.words_from(alloc, 0)?;
    no_such(words.as_str(), why)
}

/// A script is the text of a row's block.
fn is_text(alloc: Global, script: &[u8], row: &Statement, why: &mut String) -> Result<(), Wrong> {
    let text = String::from_utf8_lossy(alloc, script)?;
    compared(row.text(alloc)?.as_str(), text.as_str(), why)
}

/// Adds what is asked of a script.
fn add_asked(
    alloc: Global,
    text: &mut String,
    script: &[u8],
    word: &str,
) -> Result<(), AllocError> {
    match word {
        "written" => add_written(alloc, text, script),
        "read" => add_read(alloc, text, script),
        "parsed" => add_parsed(alloc, text, script),
        _ => write!(text, "{}", script.len()),
    }
}

/// What is asked of a script is what a row says.
fn is_so(alloc: Global, script: &[u8], row: &Statement, why: &mut String) -> Result<(), Wrong> {
    let wanted = row.words_from(alloc, 1)?;
    let mut came = String::new(alloc);
    add_asked(alloc, &mut came, script, row.word(0))?;
    compared(wanted.as_str(), came.as_str(), why)
}

/// A row comes to what it says.
fn found(
    alloc: Global,
    script: &mut Vec<u8>,
    row: &Statement,
    why: &mut String,
) -> Result<(), Wrong> {
    match row.word(0) {
        "script" => Ok(take_lines(alloc, script, row)?),
        "text" => {
            *script = row.text(alloc)?.into_bytes();
            Ok(())
        }
        "bytes" => take_bytes(alloc, script, row, why),
        "generated" => take_generated(alloc, script, row, why),
        "is" => is_text(alloc, script, row, why),
        "written" | "long" | "read" | "parsed" => is_so(alloc, script, row, why),
        other => no_such(other, why),
    }
}

/// Tells of a row.
fn tell_row(
    alloc: Global,
    told: &mut Vec<String>,
    script: &mut Vec<u8>,
    row: &Statement,
) -> Result<(), AllocError> {
    let mut why = String::new(alloc);
    let found = found(alloc, script, row, &mut why);
    tell(alloc, told, row, found, why.as_str())
}

/// Judges a case of scripts.
pub fn judge_scripts(alloc: Global, case: &[Statement]) -> Result<Judged, AllocError> {
    let mut told = Vec::new(alloc);
    let mut script = Vec::new(alloc);
    for row in case.iter().skip(1) {
        tell_row(alloc, &mut told, &mut script, row)?;
    }
    Ok(judged(told))
}
