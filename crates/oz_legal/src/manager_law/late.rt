//! Whether the manager had halted when an id was last asked.

ghost use Rattle.std.specs.Prelude.{◌≡◌};
ghost use Rattle.oz_core.specs.Manager.{asked_late, late_step};

use oz_core::{Event, EventKind, Node};
use oz_law::halt_of;
use oz_replay::is_id;
use oz_requests::AskId;

fn late_step(id: AskId, before: &[Event], late: bool, kind: &EventKind) -> bool
    ensures { result ≡ late_step id before.now late kind.now }
{
    match kind {
        EventKind::Ask { id: other, .. } if is_id(id, *other) => {
            halt_of(Node::Manager, before).is_some()
        }
        _ => late,
    }
}

pub(crate) fn asked_late(id: AskId, story: &[Event]) -> bool
    ensures { result ≡ asked_late id story.now }
{
    let mut late = false;
    for (i, event) in story.iter().enumerate() {
        late = late_step(id, &story[..i], late, &event.kind);
    }
    late
}
