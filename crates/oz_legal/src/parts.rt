//! Which part of the store an event is of.

ghost use Rattle.std.specs.Prelude.{◌≡◌};
ghost use Rattle.oz_legal.specs.Parts.{part_of};

use oz_core::EventKind;

/// What the events of one function are about.
#[derive(Clone, Copy, Debug)]
pub(crate) enum Part {
    /// The manager, and what lines ask and are told.
    Manager,
    /// The storage container manager.
    Scm,
    /// Blocks that are put, read, copied and deleted.
    Blocks,
    /// Nodes that halt, stand still and start, and replicas that are closed.
    Nodes,
}

pub(crate) fn part_of(kind: &EventKind) -> Part
    ensures { result ≡ part_of kind.now }
{
    match kind {
        EventKind::Ask { .. }
        | EventKind::Decide { .. }
        | EventKind::Swap { .. }
        | EventKind::Flushed { .. }
        | EventKind::PurgeAsk { .. }
        | EventKind::Told { .. } => Part::Manager,
        EventKind::Grant { .. }
        | EventKind::Up { .. }
        | EventKind::Down { .. }
        | EventKind::Log { .. }
        | EventKind::AckDel { .. }
        | EventKind::Retire { .. }
        | EventKind::Closed { .. } => Part::Scm,
        EventKind::Put { .. }
        | EventKind::Refused { .. }
        | EventKind::Wrote { .. }
        | EventKind::Bad { .. }
        | EventKind::Delete { .. }
        | EventKind::Copy { .. } => Part::Blocks,
        EventKind::Halt { .. }
        | EventKind::Stop { .. }
        | EventKind::Start { .. }
        | EventKind::Wipe { .. }
        | EventKind::CloseCommand { .. } => Part::Nodes,
    }
}
