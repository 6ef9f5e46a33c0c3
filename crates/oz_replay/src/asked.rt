//! What was asked and isn't decided.

ghost use Rattle.std.specs.Prelude.{◌≡◌, option_copied};
ghost use Rattle.oz_core.specs.Asks.{is_id, pending_after, pending};

use oz_core::{Event, EventKind};
use oz_requests::{AskId, Request};

/// The two are one id.
pub fn is_id(id: AskId, other: AskId) -> bool
    ensures { result ≡ is_id id other }
{
    other.client == id.client && other.line == id.line && other.step == id.step
}

fn pending_after<'a>(
    id: AskId,
    before: Option<&'a Request>,
    kind: &'a EventKind,
) -> Option<&'a Request>
    ensures { option_copied result ≡ pending_after id (option_copied before.entry) kind.now }
{
    match kind {
        EventKind::Ask { id: other, request } if is_id(id, *other) => Some(request),
        EventKind::Decide { id: other, .. } if is_id(id, *other) => None,
        _ => before,
    }
}

/// The request of the last Ask of this id, where no Decide of it follows.
pub fn pending<'a>(id: AskId, story: &'a [Event]) -> Option<&'a Request>
    ensures { option_copied result ≡ pending id story.now }
{
    let mut asked = None;
    for event in story {
        asked = pending_after(id, asked, &event.kind);
    }
    asked
}
