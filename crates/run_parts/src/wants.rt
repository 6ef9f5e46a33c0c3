//! The statements that say what a run is to leave.

use crate::bytes::add_bytes;
use crate::history::{history, history_of};
use crate::patterns::{count, place};
use crate::places::{bytes_at, disk_named};
use crate::said::{Said, differs_unless};
use crate::stage::{Left, Stage};
use crate::texts::{answers_of, compare, compare_any, compare_fits, of_client, text_of};
use case_files::{Statement, values_of};
use oz_core::{Event, EventKind};
use oz_world::OutOfMemory;
use std::alloc::Global;

/// The first line of a text.
fn first_line(text: &String) -> &str {
    text.as_str().split('\n').next().unwrap_or("")
}

/// Whether a number is one of those that words stand for, and nothing where they can't be read.
fn is_among(alloc: Global, words: &[String], number: u64) -> Result<Option<bool>, OutOfMemory> {
    match values_of(alloc, words)? {
        Some(numbers) => Ok(Some(numbers.contains(&number))),
        None => Ok(None),
    }
}

/// The words of a statement behind the first.
fn behind_first(statement: &Statement) -> &[String] {
    statement.words.get(1..).unwrap_or(&[])
}

/// Adds what was wanted: the words of a statement behind the first.
fn add_wanted(alloc: Global, statement: &Statement, why: &mut String) -> Result<(), OutOfMemory> {
    let wanted = statement.words_from(alloc, 1)?;
    write!(why, "wanted {wanted}, came ")
}

/// `status NUMBERS`: one of these.
fn want_status(
    alloc: Global,
    left: &Left,
    statement: &Statement,
    why: &mut String,
) -> Result<Said, OutOfMemory> {
    match is_among(alloc, behind_first(statement), u64::from(left.status))? {
        None => Ok(Said::Unread),
        Some(true) => Ok(Said::Well),
        Some(false) => {
            add_wanted(alloc, statement, why)?;
            write!(why, "{}, {:?}", left.status, first_line(&left.text))?;
            Ok(Said::Differs)
        }
    }
}

/// `text`, with a block: all that was written.
fn want_text(
    alloc: Global,
    left: &Left,
    statement: &Statement,
    why: &mut String,
) -> Result<Said, OutOfMemory> {
    if statement.words.len() != 1 {
        return Ok(Said::Unread);
    }
    let wanted = text_of(alloc, statement)?;
    compare_any(wanted.as_str(), left.text.as_str(), why)
}

/// `client NUMBER`, with a block: the lines of the report that are of this client.
fn want_client(
    alloc: Global,
    left: &Left,
    statement: &Statement,
    why: &mut String,
) -> Result<Said, OutOfMemory> {
    if statement.words.len() != 2 || statement.number(1).is_none() {
        return Ok(Said::Unread);
    }
    let came = of_client(alloc, left.text.as_str(), statement.word(1))?;
    let wanted = text_of(alloc, statement)?;
    compare(wanted.as_str(), came.as_str(), why)
}

/// `count NUMBERS PATTERN` and `noted NUMBERS PATTERN`: so many lines of a text fit the pattern.
fn want_count(
    alloc: Global,
    text: &str,
    statement: &Statement,
    why: &mut String,
) -> Result<Said, OutOfMemory> {
    let pattern = statement.words_from(alloc, 2)?;
    let found = count(pattern.as_str(), text);
    match is_among(alloc, statement.words.get(1..2).unwrap_or(&[]), found)? {
        Some(is_so) if statement.words.len() > 2 => {
            if !is_so {
                write!(why, "wanted {}, came {found}", statement.word(1))?;
                return Ok(Said::Differs);
            }
            Ok(Said::Well)
        }
        _ => Ok(Said::Unread),
    }
}

/// `noted NUMBERS PATTERN`: so many lines of the story fit.
fn want_noted(
    alloc: Global,
    left: &Left,
    statement: &Statement,
    why: &mut String,
) -> Result<Said, OutOfMemory> {
    let lines = history(alloc, &left.story)?;
    want_count(alloc, lines.as_str(), statement, why)
}

/// `seats NUMBERS`, with a block of patterns: the events of these seats, one behind another.
fn want_seats(
    alloc: Global,
    left: &Left,
    statement: &Statement,
    why: &mut String,
) -> Result<Said, OutOfMemory> {
    match values_of(alloc, behind_first(statement))? {
        Some(seats) if !seats.is_empty() => {
            let came = history_of(alloc, &left.story, &seats)?;
            compare_fits(&statement.block, came.as_str(), why)
        }
        _ => Ok(Said::Unread),
    }
}

/// Whether a line fits the second pattern, and the first line that fits the first stands before it.
fn are_in_order(one: &str, other: &str, text: &str) -> bool {
    match (place(one, text), place(other, text)) {
        (Some(first), Some(second)) => first < second,
        _ => false,
    }
}

/// `order PATTERN < PATTERN`: a line fits the second, and the first line that fits the first stands before it.
fn want_order(
    alloc: Global,
    left: &Left,
    statement: &Statement,
    why: &mut String,
) -> Result<Said, OutOfMemory> {
    let patterns = statement.words_from(alloc, 1)?;
    match patterns.as_str().split_once(" < ") {
        Some((one, other)) => {
            let is_so = are_in_order(one, other, left.text.as_str());
            differs_unless(is_so, "this order", "another", why)
        }
        None => Ok(Said::Unread),
    }
}

/// Whether a word may be left out: it ends with `?` or `*`.
fn may_lack(word: &str) -> bool {
    word.ends_with('?') || word.ends_with('*')
}

/// Whether a word, but for what it ends with, is this answer.
fn is_of(word: &str, answer: &str) -> bool {
    word.trim_end_matches('*').trim_end_matches('?') == answer
}

/// The place of the word that an answer is of, from a place on, where only words that may be left out stand before it.
fn place_of(words: &[String], from: usize, answer: &str) -> Option<usize> {
    for (at, word) in words.iter().enumerate().skip(from) {
        if is_of(word.as_str(), answer) {
            return Some(at);
        }
        if !may_lack(word.as_str()) {
            return None;
        }
    }
    None
}

/// Whether the answers, with a blank between two, are these words from the third on.
fn are_told(words: &[String], answers: &str) -> bool {
    let mut next = 2usize;
    for answer in answers.split(' ') {
        let Some(at) = place_of(words, next, answer) else {
            return false;
        };
        let stays = words.get(at).is_some_and(|word| word.ends_with('*'));
        next = if stays { at } else { at.saturating_add(1) };
    }
    words.iter().skip(next).all(|word| may_lack(word.as_str()))
}

/// `told CLIENT WORDS`: what the lines of a client were told, in this order. A word that ends with `?` may be left out, and
/// one that ends with `*` may stand any number of times.
fn want_told(
    alloc: Global,
    left: &Left,
    statement: &Statement,
    why: &mut String,
) -> Result<Said, OutOfMemory> {
    let came = answers_of(alloc, left.text.as_str(), statement.word(1))?;
    let is_so = are_told(&statement.words, came.as_str());
    let wanted = statement.words_from(alloc, 2)?;
    differs_unless(is_so, wanted.as_str(), came.as_str(), why)
}

/// How many bytes two lists begin with that are the same.
fn same_bytes(wanted: &[u8], came: &[u8]) -> usize {
    let mut same = 0usize;
    for (one, other) in wanted.iter().zip(came) {
        if one != other {
            break;
        }
        same = same.saturating_add(1);
    }
    same
}

/// Well where bytes are the wanted ones, and else adds where they first aren't.
fn compare_bytes(wanted: &[u8], came: &[u8], why: &mut String) -> Result<Said, OutOfMemory> {
    if wanted == came {
        return Ok(Said::Well);
    }
    let same = same_bytes(wanted, came);
    let wanted_there = wanted.get(same).copied();
    let came_there = came.get(same).copied();
    let (size, came_size) = (wanted.len(), came.len());
    write!(
        why,
        "byte {same}: wanted {wanted_there:?} of {size} bytes, came {came_there:?} of {came_size}"
    )?;
    Ok(Said::Differs)
}

/// `holds DISK BYTES` or `starts DISK BYTES`: the bytes of a disk, or its first ones.
fn want_these(
    alloc: Global,
    came: &[u8],
    statement: &Statement,
    why: &mut String,
) -> Result<Said, OutOfMemory> {
    let mut wanted = Vec::new(alloc);
    if !add_bytes(alloc, &mut wanted, statement, 2)? {
        return Ok(Said::Unread);
    }
    let came = match came.get(..wanted.len()) {
        Some(first) if statement.word(0) == "starts" => first,
        _ => came,
    };
    compare_bytes(&wanted, came, why)
}

/// `holds DISK BYTES`, `holds DISK as-given`, or `starts DISK BYTES`: the bytes of a disk, or its first ones.
fn want_bytes(
    alloc: Global,
    stage: &Stage,
    statement: &Statement,
    why: &mut String,
) -> Result<Said, OutOfMemory> {
    let Some(name) = disk_named(statement.word(1)) else {
        return Ok(Said::Unread);
    };
    let came = bytes_at(&stage.given, name);
    if statement.word(2) == "as-given" && statement.word(0) == "holds" {
        return compare_bytes(bytes_at(&stage.was, name), came, why);
    }
    want_these(alloc, came, statement, why)
}

/// `flusher NUMBER` and `others NUMBER`: how often these passed the gate. `events NUMBERS`: how long the story is.
fn want_number(
    alloc: Global,
    came: u64,
    statement: &Statement,
    why: &mut String,
) -> Result<Said, OutOfMemory> {
    match is_among(alloc, behind_first(statement), came)? {
        None => Ok(Said::Unread),
        Some(true) => Ok(Said::Well),
        Some(false) => {
            add_wanted(alloc, statement, why)?;
            write!(why, "{came}")?;
            Ok(Said::Differs)
        }
    }
}

/// Whether something was decided between a swap and the end of its write.
fn has_decided_beside(story: &[Event]) -> bool {
    let mut is_writing = false;
    for event in story {
        match &event.kind {
            EventKind::Swap { .. } => is_writing = true,
            EventKind::Flushed { .. } => is_writing = false,
            EventKind::Decide { .. } if is_writing => return true,
            _ => {}
        }
    }
    false
}

/// `beside NUMBER MOST`: something was decided beside a write, where this is the last number; the sweep ends where it was.
/// Which thread goes first is chance.
fn want_beside(left: &Left, statement: &Statement, why: &mut String) -> Result<Said, OutOfMemory> {
    let (Some(number), Some(most), 3) = (
        statement.number(1),
        statement.number(2),
        statement.words.len(),
    ) else {
        return Ok(Said::Unread);
    };
    if has_decided_beside(&left.story) {
        return Ok(Said::Last);
    }
    differs_unless(number < most, "a decision beside a write", "none", why)
}

/// `until STATUS`: the sweep ends where the run ended so.
fn want_last(left: &Left, statement: &Statement) -> Said {
    match statement.number(1) {
        Some(_) if statement.words.len() != 2 => Said::Unread,
        Some(status) if status == u64::from(left.status) => Said::Last,
        Some(_) => Said::Well,
        None => Said::Unread,
    }
}

/// What a statement on a run that ended comes to. Where it differs, what does is added to the text.
pub fn want(
    alloc: Global,
    stage: &Stage,
    statement: &Statement,
    why: &mut String,
) -> Result<Said, OutOfMemory> {
    let Some(left) = &stage.left else {
        return Ok(Said::Unread);
    };
    match statement.word(0) {
        "status" => want_status(alloc, left, statement, why),
        "text" => want_text(alloc, left, statement, why),
        "client" => want_client(alloc, left, statement, why),
        "count" => want_count(alloc, left.text.as_str(), statement, why),
        "noted" => want_noted(alloc, left, statement, why),
        "seats" => want_seats(alloc, left, statement, why),
        "order" => want_order(alloc, left, statement, why),
        "told" => want_told(alloc, left, statement, why),
        "holds" | "starts" => want_bytes(alloc, stage, statement, why),
        "flusher" => want_number(alloc, left.flusher, statement, why),
        "others" => want_number(alloc, left.others, statement, why),
        "events" => want_number(alloc, left.story.len() as u64, statement, why),
        "until" => Ok(want_last(left, statement)),
        "beside" => want_beside(left, statement, why),
        _ => Ok(Said::Unread),
    }
}
