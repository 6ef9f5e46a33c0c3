//! Why a datanode refuses a call.

ghost use Rattle.std.specs.Prelude.{◌≡◌};
ghost use Rattle.oz_datanode.specs.declared.refusal.NodeRefusal.TheVariants.{OutOfMemory as NoMemory};

use oz_container::State;
use oz_fields::OutOfMemory;

/// Why a call wasn't served.
#[derive(Clone, Copy, Debug, PartialEq, Eq)]
pub enum NodeRefusal {
    /// The datanode was stopped and its disks are sound: the count is 0. Or one of its disks failed, in this call or an
    /// earlier one: how often both have failed so far.
    Stopped {
        count: u64,
    },
    /// No slot is free. All three are numbers of bytes: in slots that are taken, in the one that was asked for, in all.
    Full {
        used: u64,
        asked: u64,
        capacity: u64,
    },
    /// The replica is in this state.
    NotOpen {
        state: State,
    },
    /// The block isn't held, or the chunks that were written don't make it.
    NoBlock,
    /// A chunk hasn't the SHA-256 that was kept of it: that one, and the one that its bytes have.
    Bad {
        kept: [u8; 32],
        found: [u8; 32],
    },
    OutOfMemory,
}

impl From<OutOfMemory> for NodeRefusal {
    ghost from_gives = { λ _ refusal. refusal ≡ NoMemory };

    fn from(_: OutOfMemory) -> NodeRefusal {
        NodeRefusal::OutOfMemory
    }
}
