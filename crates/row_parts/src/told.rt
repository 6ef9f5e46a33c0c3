//! What a statement is to give, and what differs.

use case_files::{Statement, bytes_of};
use std::alloc::{AllocError, Global};

/// What a line gives to a call, and what is to come of it, where that stands on the line.
fn sides(line: &str) -> (&str, Option<&str>) {
    match line.split_once("=> ") {
        Some((given, wanted)) => (given.trim(), Some(wanted)),
        None => (line, None),
    }
}

/// What a line gives to a call.
pub fn given(line: &str) -> &str {
    sides(line).0
}

/// No line of a block gives anything.
pub fn is_bare(block: &[String]) -> bool {
    block.iter().all(|line| given(line.as_str()).is_empty())
}

fn add_wanted(text: &mut String, line: &str) -> Result<(), AllocError> {
    if let (_, Some(wanted)) = sides(line) {
        text.push_str(wanted)?;
        text.push('\n')?;
    }
    Ok(())
}

/// What is to come of a statement with this line, a line each.
fn wanted_of(alloc: Global, line: &str, block: &[String]) -> Result<String, AllocError> {
    let mut text = String::new(alloc);
    add_wanted(&mut text, line)?;
    for line in block {
        add_wanted(&mut text, line.as_str())?;
    }
    Ok(text)
}

/// The bytes that a statement gives, on its line and on those of its block.
pub fn bytes_given(
    alloc: Global,
    said: &str,
    block: &[String],
) -> Result<Option<Vec<u8>>, AllocError> {
    let mut words = String::from_str(alloc, said)?;
    for line in block {
        words.push(' ')?;
        words.push_str(given(line.as_str()))?;
    }
    bytes_of(alloc, words.as_str())
}

/// The first line in which two texts differ, as each of them has it.
fn first_other<'a>(wanted: &'a str, came: &'a str) -> (&'a str, &'a str) {
    let mut lines = came.lines();
    for line in wanted.lines() {
        let other = lines.next().unwrap_or("nothing");
        if line != other {
            return (line, other);
        }
    }
    ("nothing more", lines.next().unwrap_or("nothing more"))
}

/// Adds what is told of a statement.
pub fn tell(
    alloc: Global,
    differs: &mut Vec<String>,
    number: u64,
    what: &str,
    of: &str,
) -> Result<(), AllocError> {
    differs.push(format!(in alloc; "line {number}: {what}{of}")?)?;
    Ok(())
}

/// Tells of a statement that can't be read, or of the line of its block that can't.
pub fn tell_unread(
    alloc: Global,
    differs: &mut Vec<String>,
    statement: &Statement,
    line: &str,
) -> Result<(), AllocError> {
    if !line.is_empty() {
        return tell(alloc, differs, statement.line, "can't be read: ", line);
    }
    let words = statement.words_from(alloc, 0)?;
    tell(
        alloc,
        differs,
        statement.line,
        "can't be read: ",
        words.as_str(),
    )
}

/// Tells of a statement of which something else came than what it says.
pub fn compare(
    alloc: Global,
    differs: &mut Vec<String>,
    statement: &Statement,
    came: &str,
) -> Result<(), AllocError> {
    let line = statement.words_from(alloc, 0)?;
    let wanted = wanted_of(alloc, line.as_str(), &statement.block)?;
    if wanted.as_str() == came {
        return Ok(());
    }
    let (wanted, came) = first_other(wanted.as_str(), came);
    differs.push(format!(in alloc;
        "line {}: wanted \"{wanted}\" and \"{came}\" came",
        statement.line
    )?)?;
    Ok(())
}
