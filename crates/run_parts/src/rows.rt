//! Whether what a manager's disk holds, or a stop may leave of it, is the namespace of the story at a place that has each
//! acknowledged request.

use crate::opened::rows_of;
use crate::said::Said;
use crate::same::is_same;
use crate::stage::Left;
use oz_core::{Event, EventKind, Opening};
use oz_loaded::Unseated;
use oz_replay::kept_up_to;
use oz_world::OutOfMemory;
use std::alloc::Global;

/// Whether the line was told OK.
fn is_acknowledged(story: &[Event], of: u16, number: u16) -> bool {
    for event in story {
        if let EventKind::Told {
            client,
            line,
            answer,
        } = &event.kind
            && *client == of
            && *line == number
        {
            return answer.number() == 0;
        }
    }
    false
}

/// The greatest index that a line which was told OK was decided at.
fn acknowledged(story: &[Event]) -> u64 {
    let mut greatest = 0u64;
    for event in story {
        if let EventKind::Decide { id, index, .. } = &event.kind
            && greatest < *index
            && is_acknowledged(story, id.client, id.line)
        {
            greatest = *index;
        }
    }
    greatest
}

/// Whether rows are the story's namespace at the index at which they end.
fn are_kept(
    alloc: Global,
    opening: &Opening,
    story: &[Event],
    rows: &Unseated,
) -> Result<bool, OutOfMemory> {
    let kept = kept_up_to(alloc, opening, rows.last_index(), story)?;
    let namespace = rows.namespace(alloc)?;
    is_same(alloc, &kept, &namespace)
}

/// Well where rows are the story's namespace at an index that isn't before the least.
fn judge_unseated(
    alloc: Global,
    opening: &Opening,
    story: &[Event],
    rows: &Unseated,
    why: &mut String,
) -> Result<Said, OutOfMemory> {
    let (least, last) = (acknowledged(story), rows.last_index());
    if last < least {
        write!(
            why,
            "index {least} was acknowledged, and what is left ends at {last}"
        )?;
        return Ok(Said::Differs);
    }
    if are_kept(alloc, opening, story, rows)? {
        return Ok(Said::Well);
    }
    write!(why, "the rows aren't the namespace at index {last}")?;
    Ok(Said::Differs)
}

/// Well where these bytes are the rows of the story's namespace at an index that has each acknowledged request.
fn judge_bytes(
    alloc: Global,
    opening: &Opening,
    story: &[Event],
    bytes: &[u8],
    why: &mut String,
) -> Result<Said, OutOfMemory> {
    match rows_of(alloc, bytes)? {
        Some(rows) => judge_unseated(alloc, opening, story, &rows, why),
        None => {
            why.push_str("what is left of the manager's disk doesn't load")?;
            Ok(Said::Differs)
        }
    }
}

/// Well where the manager's disk has the rows of the story, if a stop chooses so.
fn judge_image(
    alloc: Global,
    opening: &Opening,
    left: &Left,
    choice: u8,
    why: &mut String,
) -> Result<Said, OutOfMemory> {
    let bytes = left.manager.inner().image(alloc, choice)?;
    judge_bytes(alloc, opening, &left.story, &bytes, why)
}

/// Well where the manager's disk has the rows of the story, however much of it a stop leaves.
pub fn judge_rows(
    alloc: Global,
    opening: &Opening,
    left: &Left,
    why: &mut String,
) -> Result<Said, OutOfMemory> {
    for choice in 0..3u8 {
        let said = judge_image(alloc, opening, left, choice, why)?;
        if said != Said::Well {
            return Ok(said);
        }
    }
    Ok(Said::Well)
}
