//! The words of the command line.
//!
//! A line of the block of `table` has them, with commas between them, and behind ` => ` what they say:
//! `folder PLACE nodes NUMBER workers NUMBER`, or `fault PLACE`. `no-words fault PLACE` says it of no word.

use crate::found::{Wrong, compared, judged, no_such, row_compared, tell, tell_unread};
use case_files::{Judged, Statement};
use oz_command::{Words, read_words};
use std::alloc::{AllocError, Global};

fn words_of(alloc: Global, line: &str) -> Result<Vec<String>, AllocError> {
    let mut words = Vec::new(alloc);
    for word in line.split(',') {
        words.push(String::from_str(alloc, word)?)?;
    }
    Ok(words)
}

/// Adds what words say.
fn add_said(text: &mut String, words: &[String]) -> Result<(), AllocError> {
    match read_words(words) {
        Ok(
            Words::Run {
                dir,
                nodes,
                workers,
            },
        ) => write!(text, "folder {dir} nodes {nodes} workers {workers}"),
        Err(place) => write!(text, "fault {place}"),
    }
}

/// What words say that stand in a line.
fn said(alloc: Global, line: &str) -> Result<String, AllocError> {
    let words = words_of(alloc, line)?;
    let mut text = String::new(alloc);
    add_said(&mut text, &words)?;
    Ok(text)
}

/// A line of a block comes to what it says.
fn line_found(alloc: Global, line: &str, why: &mut String) -> Result<(), Wrong> {
    match line.split_once(" => ") {
        Some((words, wanted)) => {
            let came = said(alloc, words)?;
            row_compared(words, wanted, came.as_str(), why)
        }
        None => no_such(line, why),
    }
}

/// No word says this.
fn no_words(alloc: Global, row: &Statement, why: &mut String) -> Result<(), Wrong> {
    let wanted = row.words_from(alloc, 1)?;
    let mut came = String::new(alloc);
    add_said(&mut came, &[])?;
    compared(wanted.as_str(), came.as_str(), why)
}

/// Tells of a line of a block.
fn tell_line(
    alloc: Global,
    told: &mut Vec<String>,
    row: &Statement,
    line: &str,
) -> Result<(), AllocError> {
    let mut why = String::new(alloc);
    let found = line_found(alloc, line, &mut why);
    tell(alloc, told, row, found, why.as_str())
}

/// Tells of the lines of a block.
fn tell_lines(alloc: Global, told: &mut Vec<String>, row: &Statement) -> Result<(), AllocError> {
    for line in &row.block {
        tell_line(alloc, told, row, line.as_str())?;
    }
    Ok(())
}

/// Tells of what no word says.
fn tell_no_words(alloc: Global, told: &mut Vec<String>, row: &Statement) -> Result<(), AllocError> {
    let mut why = String::new(alloc);
    let found = no_words(alloc, row, &mut why);
    tell(alloc, told, row, found, why.as_str())
}

/// Judges a case of words.
pub fn judge_words(alloc: Global, case: &[Statement]) -> Result<Judged, AllocError> {
    let mut told = Vec::new(alloc);
    for row in case.iter().skip(1) {
        match row.word(0) {
            "table" => tell_lines(alloc, &mut told, row)?,
            "no-words" => tell_no_words(alloc, &mut told, row)?,
            other => tell_unread(alloc, &mut told, row, other)?,
        }
    }
    Ok(judged(told))
}
