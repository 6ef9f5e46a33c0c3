//! What a line may have done to a datanode.

ghost use Rattle.std.specs.Prelude.{◌≡◌, false};
ghost use Rattle.oz_buffer.specs.Buffer.{IsNote};
ghost use Rattle.oz_node_events.specs.declared.command.DoneRefusal.TheVariants.{OutOfMemory as NoMemory};
ghost use Rattle.oz_node_events.specs.Led.{done_kind};
ghost use Rattle.oz_node_events.specs.NodeSeat.{is_bad};

use oz_core::EventKind;
use oz_fields::OutOfMemory;

/// It no longer runs, it runs again, or it holds nothing any more.
#[derive(Clone, Copy, Debug, PartialEq, Eq)]
pub enum NodeCommand {
    Stop,
    Start,
    Wipe,
}

/// Why a line had nothing done to a datanode.
#[derive(Clone, Copy, Debug, PartialEq, Eq)]
pub enum DoneRefusal {
    /// A disk of it failed as it was wiped: how often both have.
    Halted { count: u64 },
    /// The line was told its answer before.
    Told,
    OutOfMemory,
}

impl From<OutOfMemory> for DoneRefusal {
    ghost from_gives = { λ _ refusal. refusal ≡ NoMemory };

    fn from(_: OutOfMemory) -> DoneRefusal {
        DoneRefusal::OutOfMemory
    }
}

/// The event that tells of it.
pub(crate) fn done_kind(dn: u8, done: NodeCommand) -> EventKind
    ensures kind { result ≡ done_kind dn done }
    ensures noted { IsNote result }
    ensures no_bad { is_bad result ≡ false }
{
    match done {
        NodeCommand::Stop => EventKind::Stop { dn },
        NodeCommand::Start => EventKind::Start { dn },
        NodeCommand::Wipe => EventKind::Wipe { dn },
    }
}
