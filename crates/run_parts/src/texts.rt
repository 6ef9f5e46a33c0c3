//! Texts beside one another.

use crate::patterns::fits;
use crate::said::Said;
use case_files::Statement;
use oz_world::OutOfMemory;
use std::alloc::Global;

/// The line of this place, from 0.
fn line_at(text: &str, place: usize) -> &str {
    text.split('\n').nth(place).unwrap_or("(nothing)")
}

/// How many lines two texts begin with that are the same.
fn same_lines(wanted: &str, came: &str) -> usize {
    let mut same = 0usize;
    for (one, other) in wanted.split('\n').zip(came.split('\n')) {
        if one != other {
            break;
        }
        same = same.saturating_add(1);
    }
    same
}

/// Well where a text is the wanted one, and else adds the first line that isn't.
pub fn compare(wanted: &str, came: &str, why: &mut String) -> Result<Said, OutOfMemory> {
    if wanted == came {
        return Ok(Said::Well);
    }
    let same = same_lines(wanted, came);
    let number = same.saturating_add(1);
    let wanted = line_at(wanted, same);
    let came = line_at(came, same);
    write!(why, "text line {number}: wanted {wanted:?}, came {came:?}")?;
    Ok(Said::Differs)
}

/// Adds the lines that a line of a block stands for: `\\n` in it ends one as well.
fn add_lines(text: &mut String, line: &str) -> Result<(), OutOfMemory> {
    for part in line.split("\\n") {
        text.push_str(part)?;
        text.push('\n')?;
    }
    Ok(())
}

/// The text of a statement's block.
pub fn text_of(alloc: Global, statement: &Statement) -> Result<String, OutOfMemory> {
    let mut text = String::new(alloc);
    for line in &statement.block {
        add_lines(&mut text, line.as_str())?;
    }
    Ok(text)
}

/// Whether a text is one of the wanted ones, which a line `or` parts.
fn is_wanted(wanted: &str, came: &str) -> bool {
    for one in wanted.split("\nor\n") {
        if one == came {
            return true;
        }
    }
    false
}

/// Well where a text is one of the wanted ones, which a line `or` parts, and else adds the first line in which it differs from the last.
pub fn compare_any(wanted: &str, came: &str, why: &mut String) -> Result<Said, OutOfMemory> {
    let wanted = wanted.trim_end_matches('\n');
    let came = came.trim_end_matches('\n');
    if is_wanted(wanted, came) {
        return Ok(Said::Well);
    }
    let last = wanted.split("\nor\n").last().unwrap_or("");
    compare(last, came, why)
}

/// Well where each line of a text fits the pattern in its place, and there is one for each. Else adds the first that doesn't.
pub fn compare_fits(
    patterns: &[String],
    came: &str,
    why: &mut String,
) -> Result<Said, OutOfMemory> {
    let mut number = 1u64;
    let mut lines = came.lines();
    for pattern in patterns {
        let line = lines.next().unwrap_or("(nothing)");
        if !fits(pattern.as_str(), line) {
            write!(
                why,
                "story line {number}: wanted {pattern:?}, came {line:?}"
            )?;
            return Ok(Said::Differs);
        }
        number = number.saturating_add(1);
    }
    match lines.next() {
        None => Ok(Said::Well),
        Some(line) => {
            write!(why, "story line {number}: wanted none, came {line:?}")?;
            Ok(Said::Differs)
        }
    }
}

/// Whether a line of a report is of this kind, `d ` or `t `, and of this client.
fn is_of(line: &str, kind: &str, client: &str) -> bool {
    let Some(behind) = line.strip_prefix(kind) else {
        return false;
    };
    match behind.strip_prefix(client) {
        Some(behind) => behind.starts_with(' '),
        None => false,
    }
}

/// The lines of a report that are of this client.
pub fn of_client(alloc: Global, report: &str, client: &str) -> Result<String, OutOfMemory> {
    let mut lines = String::new(alloc);
    for line in report.lines() {
        if is_of(line, "d ", client) || is_of(line, "t ", client) {
            lines.push_str(line)?;
            lines.push('\n')?;
        }
    }
    Ok(lines)
}

/// What the lines of a client were told: the answer of each without its values, in the order in which they were told, with a
/// blank between two.
pub fn answers_of(alloc: Global, report: &str, client: &str) -> Result<String, OutOfMemory> {
    let mut answers = String::new(alloc);
    for line in report.lines() {
        if is_of(line, "t ", client) {
            if !answers.is_empty() {
                answers.push(' ')?;
            }
            answers.push_str(line.split(' ').nth(3).unwrap_or(""))?;
        }
    }
    Ok(answers)
}
