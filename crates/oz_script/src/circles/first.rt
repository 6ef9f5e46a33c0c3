//! The first line that comes back to itself.

ghost use Rattle.std.specs.Prelude.{◌≡◌, IfOk};
ghost use Rattle.oz_script.specs.circles.Circles.{IsFirstBack};
ghost use Rattle.oz_script.specs.circles.Marks.{IsFirstOf, earlier};
ghost use Rattle.oz_script.specs.circles.Waiting.{AreChained, WaitsFor};

use crate::circles::marking::mark_all;
use crate::circles::waits::Waits;
use std::alloc::{AllocError, Global};

/// The place of the first line that comes back to itself, if there is one. Each client's lines are gone through once,
/// and so are those to which they lead.
pub fn first_circle(alloc: Global, lines: &[Waits]) -> Result<Option<usize>, AllocError>
    requires { AreChained lines.now }
    ensures { IfOk result (λ found. IsFirstBack (WaitsFor lines.now) found) }
{
    let mut first = None;
    for line in lines {
        if line.before.is_none() {
            let found = first_of(alloc, lines, line.client)?;
            first = earlier(first, found);
        }
    }
    Ok(first)
}

/// The first line of a client that comes back to itself. A later line of the client leads to each earlier one, and so
/// to all that is marked: none of that is gone to again.
fn first_of(alloc: Global, lines: &[Waits], client: u16) -> Result<Option<usize>, AllocError>
    requires { AreChained lines.now }
    ensures { IfOk result (λ found. IsFirstOf lines.now client found) }
{
    let mut marks = vec![in alloc; false; lines.len()]?;
    for (place, line) in lines.iter().enumerate() {
        if line.client != client {
            continue;
        }
        mark_all(alloc, lines, &mut marks, place)?;
        if marks[place] {
            return Ok(Some(place));
        }
    }
    Ok(None)
}

fn earlier(one: Option<usize>, other: Option<usize>) -> Option<usize>
    ensures { result ≡ earlier one other }
{
    match (one, other) {
        (None, found) | (found, None) => found,
        (Some(one), Some(other)) => Some(one.min(other)),
    }
}
