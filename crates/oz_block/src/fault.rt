//! Why a change of blocks isn't made.

ghost use Rattle.std.specs.Prelude.{◌≡◌};
ghost use Rattle.oz_block.specs.declared.fault.BlockFault.TheVariants.{OutOfMemory as NoMemory};

use oz_fields::OutOfMemory;

/// Why a change wasn't made.
#[derive(Clone, Copy, Debug, PartialEq, Eq)]
pub enum BlockFault {
    /// The disk failed, in this call or an earlier one: how often it has failed so far.
    Stopped { count: u64 },
    OutOfMemory,
}

impl From<OutOfMemory> for BlockFault {
    ghost from_gives = { λ _ fault. fault ≡ NoMemory };

    fn from(_: OutOfMemory) -> BlockFault {
        BlockFault::OutOfMemory
    }
}
