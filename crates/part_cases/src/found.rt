//! What a row of a case comes to.

use case_files::{Judged, Statement};
use oz_core::{Event, Opening};
use std::alloc::{AllocError, AllocFailed, Global};
use story_parts::{Unread, opening_of, story_of};

/// Why a row doesn't hold.
#[derive(Clone, Copy, Debug, PartialEq, Eq)]
pub enum Wrong {
    /// A call answered that memory ran out.
    OutOfMemory,
    /// Something differs, as the text beside it says.
    Differs,
    /// The text beside it can't be read.
    Unread,
}

impl From<AllocError> for Wrong {
    fn from(_error: AllocError) -> Wrong {
        Wrong::OutOfMemory
    }
}

impl<T: Drop> From<AllocFailed<T>> for Wrong {
    fn from(_error: AllocFailed<T>) -> Wrong {
        Wrong::OutOfMemory
    }
}

/// A text came that isn't the wanted one.
pub fn compared(wanted: &str, came: &str, why: &mut String) -> Result<(), Wrong> {
    if wanted == came {
        return Ok(());
    }
    write!(why, "wanted \"{wanted}\" and \"{came}\" came")?;
    Err(Wrong::Differs)
}

/// Of a row of a table a text came that isn't the wanted one.
pub fn row_compared(row: &str, wanted: &str, came: &str, why: &mut String) -> Result<(), Wrong> {
    if wanted == came {
        return Ok(());
    }
    write!(why, "of \"{row}\" \"{came}\" came")?;
    Err(Wrong::Differs)
}

/// This can't be read.
pub fn no_such<T>(text: &str, why: &mut String) -> Result<T, Wrong> {
    why.push_str(text)?;
    Err(Wrong::Unread)
}

/// Why a text of a story or of an opening can't be read.
fn unread(unread: Unread, why: &mut String) -> Wrong {
    match unread {
        Unread::OutOfMemory => Wrong::OutOfMemory,
        Unread::Line(line) => match why.push_str(line.as_str()) {
            Ok(()) => Wrong::Unread,
            Err(_) => Wrong::OutOfMemory,
        },
    }
}

/// The story of these lines.
pub fn story_in(alloc: Global, text: &str, why: &mut String) -> Result<Vec<Event>, Wrong> {
    match story_of(alloc, text) {
        Ok(story) => Ok(story),
        Err(error) => Err(unread(error, why)),
    }
}

/// The opening of these lines.
pub fn opening_in(alloc: Global, text: &str, why: &mut String) -> Result<Opening, Wrong> {
    match opening_of(alloc, text) {
        Ok(opening) => Ok(opening),
        Err(error) => Err(unread(error, why)),
    }
}

/// Adds what is told of a row of this statement, if anything.
pub fn tell(
    alloc: Global,
    told: &mut Vec<String>,
    statement: &Statement,
    found: Result<(), Wrong>,
    why: &str,
) -> Result<(), AllocError> {
    let (before, why) = match found {
        Ok(()) => return Ok(()),
        Err(Wrong::Differs) => ("", why),
        Err(Wrong::Unread) => ("can't be read: ", why),
        Err(Wrong::OutOfMemory) => ("out of memory", ""),
    };
    let text = format!(in alloc; "line {}: {before}{why}", statement.line)?;
    told.push(text)?;
    Ok(())
}

/// Tells of a row that can't be read, as this says.
pub fn tell_unread(
    alloc: Global,
    told: &mut Vec<String>,
    statement: &Statement,
    why: &str,
) -> Result<(), AllocError> {
    tell(alloc, told, statement, Err(Wrong::Unread), why)
}

/// All that was told of a case.
pub fn judged(differs: Vec<String>) -> Judged {
    Judged {
        differs,
        is_last: false,
    }
}
