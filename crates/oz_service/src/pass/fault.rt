//! Why the service job can't go on.

use oz_fields::OutOfMemory;
use oz_om::Refusal;

/// Why a step of the service job came to no end.
#[derive(Clone, Copy, Debug, PartialEq, Eq)]
pub enum PassFault {
    /// The manager refused what it was asked.
    Manager { refusal: Refusal },
    /// The storage container manager has halted. The count is that of its disk's faults.
    ScmStopped { count: u64 },
    OutOfMemory,
}

impl From<Refusal> for PassFault {
    ghost use Rattle.std.specs.Prelude.{◌≡◌};
    ghost use Rattle.oz_service.specs.declared.pass.fault.PassFault.TheVariants.{Manager};

    ghost from_gives = { λ refusal fault. fault ≡ Manager refusal };

    fn from(refusal: Refusal) -> PassFault {
        PassFault::Manager { refusal }
    }
}

impl From<OutOfMemory> for PassFault {
    ghost use Rattle.std.specs.Prelude.{◌≡◌};
    ghost use Rattle.oz_service.specs.declared.pass.fault.PassFault.TheVariants.{OutOfMemory};

    ghost from_gives = { λ _ fault. fault ≡ OutOfMemory };

    fn from(_error: OutOfMemory) -> PassFault {
        PassFault::OutOfMemory
    }
}
