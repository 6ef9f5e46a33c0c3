//! What keeps a line from its command.

ghost use Rattle.std.specs.Prelude.{◌≡◌};
ghost use Rattle.oz_node_admin.specs.declared.fault.AdminFault.TheVariants.{OutOfMemory as NoMemory};

use oz_fields::OutOfMemory;

/// Why a line's command didn't reach a datanode.
#[derive(Clone, Copy, Debug, PartialEq, Eq)]
pub enum AdminFault {
    /// One of its disks has failed: how often both have.
    Halted { count: u64 },
    /// The line, or a later one of its client, had something done to it before.
    Repeated,
    OutOfMemory,
}

impl From<OutOfMemory> for AdminFault {
    ghost from_gives = { λ _ fault. fault ≡ NoMemory };

    fn from(_: OutOfMemory) -> AdminFault {
        AdminFault::OutOfMemory
    }
}
