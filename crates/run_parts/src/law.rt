//! What the plain programs of the law say of a run: whether its story is legal, its text the story's report, and its rows
//! the story's namespace.

use crate::opened::{nothing, open};
use crate::rows::judge_rows;
use crate::said::Said;
use crate::stage::{Left, Stage};
use crate::texts::compare;
use oz_core::{Event, Opening};
use oz_legal::legal;
use oz_report::text;
use oz_world::OutOfMemory;
use std::alloc::Global;

/// Well where a story may happen over this opening.
fn judge_story(
    alloc: Global,
    opening: &Opening,
    story: &[Event],
    why: &mut String,
) -> Result<Said, OutOfMemory> {
    match legal(alloc, opening, story)? {
        None => Ok(Said::Well),
        Some(place) => {
            let event = story.get(place);
            write!(why, "the law is broken by event {place}: {event:?}")?;
            Ok(Said::Differs)
        }
    }
}

/// How many lines a report says that the script had.
fn lines_in(report: &str) -> u64 {
    match report.lines().last() {
        Some(line) => line
            .split(' ')
            .nth(3)
            .unwrap_or("")
            .parse::<u64>()
            .unwrap_or(0),
        None => 0,
    }
}

/// Well where what a run wrote is the report of its story. Where the sink failed, or no memory was found, it may be less.
fn judge_text(alloc: Global, left: &Left, why: &mut String) -> Result<Said, OutOfMemory> {
    if left.status == 4 || left.status == 7 {
        return Ok(Said::Well);
    }
    let report = text(alloc, lines_in(left.text.as_str()), &left.story)?;
    let report = String::from_utf8_lossy(alloc, &report)?;
    compare(report.as_str(), left.text.as_str(), why)
}

/// What the plain programs find wrong in a run over this opening.
fn judge_opened(
    alloc: Global,
    opening: &Opening,
    left: &Left,
    why: &mut String,
) -> Result<Said, OutOfMemory> {
    let of_story = judge_story(alloc, opening, &left.story, why)?;
    if of_story != Said::Well {
        return Ok(of_story);
    }
    let of_text = judge_text(alloc, left, why)?;
    if of_text != Said::Well {
        return Ok(of_text);
    }
    judge_rows(alloc, opening, left, why)
}

/// What the plain programs find wrong in a run that had a story.
fn judge_left(
    alloc: Global,
    stage: &Stage,
    left: &Left,
    why: &mut String,
) -> Result<Said, OutOfMemory> {
    let count = u8::try_from(left.nodes.len()).unwrap_or(0);
    let mut opening = nothing(alloc);
    if !open(alloc, &mut opening, count, &stage.was)? {
        why.push_str("the disks of a run with a story don't load")?;
        return Ok(Said::Differs);
    }
    judge_opened(alloc, &opening, left, why)
}

/// What the plain programs find wrong in the last run. What differs is added to the text.
pub fn judge_law(alloc: Global, stage: &Stage, why: &mut String) -> Result<Said, OutOfMemory> {
    match &stage.left {
        Some(left) if !left.story.is_empty() => judge_left(alloc, stage, left, why),
        _ => Ok(Said::Well),
    }
}
