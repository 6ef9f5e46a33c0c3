//! Why nothing is loaded, why nothing is granted, why no container goes on, and why no deletion is logged.

ghost use Rattle.std.specs.Prelude.{◌≡◌};
ghost use Rattle.oz_scm.specs.declared.fault.GrantFault.TheVariants.{OutOfMemory as NoMemory};
ghost use Rattle.oz_scm.specs.declared.fault.ScmStop.TheVariants.{OutOfMemory as WantsMemory};

use oz_container::{Event, State};
use oz_fields::OutOfMemory;
use thiserror::Error;

/// Why a disk wasn't loaded.
#[derive(Clone, Copy, Debug, PartialEq, Eq, Error)]
pub enum ScmFault {
    #[error("the disk failed")]
    Disk,
    /// The bytes are no journal of a storage container manager. The offset is the place of the first bad field.
    #[error("damaged at {offset}")]
    Damaged { offset: u64 },
    /// The journal names another number of datanodes than was given.
    #[error("for {recorded} datanodes and not {given}")]
    Nodes { recorded: u8, given: u8 },
    #[error("out of memory")]
    OutOfMemory,
}

/// Why no ids were granted.
#[derive(Clone, Copy, Debug, PartialEq, Eq)]
pub enum GrantFault {
    /// The disk failed, in this call or an earlier one: how often it has failed so far.
    Stopped { count: u64 },
    /// No pipeline is up.
    NoPipeline,
    /// Each pipeline that is up is excluded.
    Excluded,
    /// So many ids, from the next one on, would pass the greatest.
    IdsSpent { next: u64, count: u32 },
    OutOfMemory,
}

/// Why a container doesn't go on to another state.
#[derive(Clone, Copy, Debug, PartialEq, Eq)]
pub enum ApplyFault {
    /// The disk failed, in this call or an earlier one: how often it has failed so far.
    Stopped { count: u64 },
    /// The event isn't possible in the state that the container is in.
    WrongState { state: State, event: Event },
}

/// Why no further deletion was logged.
#[derive(Clone, Copy, Debug, PartialEq, Eq)]
pub enum ScmStop {
    /// The disk failed, in this call or an earlier one: how often it has failed so far.
    Stopped { count: u64 },
    OutOfMemory,
}

impl From<OutOfMemory> for GrantFault {
    ghost from_gives = { λ _ fault. fault ≡ NoMemory };

    fn from(_: OutOfMemory) -> GrantFault {
        GrantFault::OutOfMemory
    }
}

impl From<OutOfMemory> for ScmStop {
    ghost from_gives = { λ _ stop. stop ≡ WantsMemory };

    fn from(_: OutOfMemory) -> ScmStop {
        ScmStop::OutOfMemory
    }
}
