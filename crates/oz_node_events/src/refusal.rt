//! Why a datanode wasn't changed.

ghost use Rattle.std.specs.Prelude.{◌≡◌};
ghost use Rattle.oz_node_events.specs.declared.refusal.ChangeRefusal.TheVariants.{OutOfMemory as NoMemory};

use oz_fields::OutOfMemory;

/// Why what a datanode holds wasn't changed, which its journal was to tell.
#[derive(Clone, Copy, Debug, PartialEq, Eq)]
pub enum ChangeRefusal {
    /// A line stopped it, and no disk of it failed.
    Stopped,
    /// A disk of it had failed before: how often both have.
    Halted { count: u64 },
    /// A disk of it failed now: how often both have. Its Halt is told.
    Failed { count: u64 },
    OutOfMemory,
}

impl From<OutOfMemory> for ChangeRefusal {
    ghost from_gives = { λ _ refusal. refusal ≡ NoMemory };

    fn from(_: OutOfMemory) -> ChangeRefusal {
        ChangeRefusal::OutOfMemory
    }
}
