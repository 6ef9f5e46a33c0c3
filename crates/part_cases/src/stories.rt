//! Stories by the law: which event may follow which story, where a story first breaks the law, and what is printed of it.
//!
//! `opening` and `after` have in their blocks what the rows behind them begin with: what is there, and the events so far. A
//! row has further events, one behind its first word or some in its block:
//!
//! - `may` and `may-not`: the last of them may follow all others, or not;
//! - `lawful` and `breaks PLACE`: none of all breaks the law, or the event at this place, from 0, is the first that does;
//! - `prints LINES`: the report of the events so far, of a script of so many lines, is the block;
//! - `no-events` and `no-things`: no line of the block can be read, as an event or as what is there.

use crate::found::{Wrong, compared, judged, no_such, opening_in, story_in, tell};
use case_files::{Judged, Statement, joined};
use oz_core::{Event, Opening};
use oz_legal::{enabled, legal};
use oz_report::text;
use std::alloc::{AllocError, Global};

/// What the rows begin with, as texts.
#[derive(Drop)]
struct Before {
    opening: String,
    events: String,
}

/// The lines of the events so far and of those of a row: one behind its first word, and those in its block.
fn lines_of(alloc: Global, before: &Before, row: &Statement) -> Result<String, AllocError> {
    let event = row.words_from(alloc, 1)?;
    let further = joined(alloc, &row.block)?;
    format!(in alloc; "{}{event}\n{further}", before.events)
}

/// The events so far and those of a row.
fn events_of(
    alloc: Global,
    before: &Before,
    row: &Statement,
    why: &mut String,
) -> Result<Vec<Event>, Wrong> {
    let lines = lines_of(alloc, before, row)?;
    story_in(alloc, lines.as_str(), why)
}

/// Whether the last event may follow the others, and where the story first breaks the law.
fn lawful(
    alloc: Global,
    opening: &Opening,
    story: &[Event],
    why: &mut String,
) -> Result<(bool, Option<usize>), Wrong> {
    let Some((event, before)) = story.split_last() else {
        return no_such("no event", why);
    };
    let may = enabled(alloc, opening, before, event)?;
    Ok((may, legal(alloc, opening, story)?))
}

/// Whether the last event of a story of so many may follow agrees with where the story first breaks the law.
fn agrees(may: bool, fault: Option<usize>, count: usize) -> bool {
    match fault {
        Some(place) => !may || place.saturating_add(1) < count,
        None => may,
    }
}

/// A story whose last event may follow isn't broken there, and one whose last event may not is broken somewhere.
fn follows_so(
    alloc: Global,
    opening: &Opening,
    story: &[Event],
    wanted: bool,
    why: &mut String,
) -> Result<(), Wrong> {
    let (may, fault) = lawful(alloc, opening, story, why)?;
    if !agrees(may, fault, story.len()) {
        write!(why, "legal says {fault:?}")?;
        return Err(Wrong::Differs);
    }
    compared(shown(wanted), shown(may), why)
}

/// The last event of a row may follow, or may not.
fn follows(
    alloc: Global,
    before: &Before,
    row: &Statement,
    wanted: bool,
    why: &mut String,
) -> Result<(), Wrong> {
    let opening = opening_in(alloc, before.opening.as_str(), why)?;
    let story = events_of(alloc, before, row, why)?;
    follows_so(alloc, &opening, &story, wanted, why)
}

fn shown(may: bool) -> &'static str {
    if may { "may" } else { "may-not" }
}

/// The lines of the events so far and of those in the block of a row.
fn block_of(alloc: Global, before: &Before, row: &Statement) -> Result<String, AllocError> {
    let further = joined(alloc, &row.block)?;
    format!(in alloc; "{}{further}", before.events)
}

/// The story first breaks the law there.
fn breaks_at(
    alloc: Global,
    opening: &Opening,
    story: &[Event],
    wanted: Option<u64>,
    why: &mut String,
) -> Result<(), Wrong> {
    let mut came = String::new(alloc);
    let fault = legal(alloc, opening, story)?;
    write!(came, "{fault:?}")?;
    let mut at = String::new(alloc);
    write!(at, "{wanted:?}")?;
    compared(at.as_str(), came.as_str(), why)
}

/// Where the story of a row first breaks the law.
fn breaks(
    alloc: Global,
    before: &Before,
    row: &Statement,
    wanted: Option<u64>,
    why: &mut String,
) -> Result<(), Wrong> {
    let opening = opening_in(alloc, before.opening.as_str(), why)?;
    let lines = block_of(alloc, before, row)?;
    let story = story_in(alloc, lines.as_str(), why)?;
    breaks_at(alloc, &opening, &story, wanted, why)
}

/// The first line that isn't the wanted one.
fn line_compared(wanted: &str, came: &str, why: &mut String) -> Result<(), Wrong> {
    for (wanted, came) in wanted.lines().zip(came.lines()) {
        if wanted != came {
            return compared(wanted, came, why);
        }
    }
    compared(wanted, came, why)
}

/// The report of events.
fn printed(alloc: Global, lines: u64, story: &[Event]) -> Result<String, AllocError> {
    let bytes = text(alloc, lines, story)?;
    String::from_utf8_lossy(alloc, &bytes)
}

/// What is printed of the events so far.
fn prints(alloc: Global, before: &Before, row: &Statement, why: &mut String) -> Result<(), Wrong> {
    let Some(lines) = row.number(1) else {
        return no_such("no number of lines", why);
    };
    let story = story_in(alloc, before.events.as_str(), why)?;
    let printed = printed(alloc, lines, &story)?;
    let wanted = row.text(alloc)?;
    line_compared(wanted.as_str(), printed.as_str(), why)
}

/// This very line was refused: nothing was read, and the text has the line.
fn refused<T: Drop>(
    read: Result<T, Wrong>,
    line: &str,
    unread: &str,
    why: &mut String,
) -> Result<(), Wrong> {
    match read {
        Err(Wrong::OutOfMemory) => Err(Wrong::OutOfMemory),
        Err(Wrong::Unread | Wrong::Differs) => compared(line, unread, why),
        Ok(_) => {
            write!(why, "\"{line}\" was read")?;
            Err(Wrong::Differs)
        }
    }
}

/// A line isn't an event.
fn no_event(alloc: Global, line: &str, why: &mut String) -> Result<(), Wrong> {
    let text = format!(in alloc; "0 swap 1\n{line}\n0 swap 2")?;
    let mut unread = String::new(alloc);
    let read = story_in(alloc, text.as_str(), &mut unread);
    refused(read, line, unread.as_str(), why)
}

/// No line of the block is an event.
fn no_events(alloc: Global, row: &Statement, why: &mut String) -> Result<(), Wrong> {
    for line in &row.block {
        no_event(alloc, line.as_str(), why)?;
    }
    Ok(())
}

/// A line doesn't say what is there.
fn no_thing(alloc: Global, line: &str, why: &mut String) -> Result<(), Wrong> {
    let mut unread = String::new(alloc);
    let read = opening_in(alloc, line, &mut unread);
    refused(read, line, unread.as_str(), why)
}

/// No line of the block says what is there.
fn no_things(alloc: Global, row: &Statement, why: &mut String) -> Result<(), Wrong> {
    for line in &row.block {
        no_thing(alloc, line.as_str(), why)?;
    }
    Ok(())
}

/// A row comes to what it says.
fn found(alloc: Global, before: &Before, row: &Statement, why: &mut String) -> Result<(), Wrong> {
    match (row.word(0), row.words.len()) {
        ("may", _) => follows(alloc, before, row, true, why),
        ("may-not", _) => follows(alloc, before, row, false, why),
        ("lawful", 1) => breaks(alloc, before, row, None, why),
        ("breaks", 2) if row.number(1).is_some() => {
            breaks(alloc, before, row, row.number(1), why)
        }
        ("prints", 2) => prints(alloc, before, row, why),
        ("no-events", 1) => no_events(alloc, row, why),
        ("no-things", 1) => no_things(alloc, row, why),
        (other, _) => no_such(other, why),
    }
}

/// Tells of a row.
fn tell_row(
    alloc: Global,
    told: &mut Vec<String>,
    before: &Before,
    row: &Statement,
) -> Result<(), AllocError> {
    let mut why = String::new(alloc);
    let found = found(alloc, before, row, &mut why);
    tell(alloc, told, row, found, why.as_str())
}

/// Judges a case of stories.
pub fn judge_stories(alloc: Global, case: &[Statement]) -> Result<Judged, AllocError> {
    let mut before = Before {
        opening: String::new(alloc),
        events: String::new(alloc),
    };
    let mut told = Vec::new(alloc);
    for row in case.iter().skip(1) {
        match (row.word(0), row.words.len()) {
            ("opening", 1) => before.opening = row.text(alloc)?,
            ("after", 1) => before.events = row.text(alloc)?,
            _ => tell_row(alloc, &mut told, &before, row)?,
        }
    }
    Ok(judged(told))
}
