//! Why bodies make nothing.

ghost use Rattle.std.specs.Prelude.{◌≡◌};
ghost use Rattle.oz_scm.specs.declared.grants.fault.ReadFault.TheVariants as faults;

use std::alloc::{AllocError, AllocFailed};

/// Why the bodies of a journal are no entries of a storage container manager.
#[derive(Clone, Copy, Debug, PartialEq, Eq)]
pub enum BuildFault {
    /// The body, counted from 0, and the place in its bytes of the first bad field.
    Damaged { body: usize, at: usize },
    OutOfMemory,
}

/// Why reading stopped. `Left` has how many bytes were left from the first field on that passes the end of its body or
/// breaks a rule.
#[derive(Clone, Copy, Debug, PartialEq, Eq)]
pub(crate) enum ReadFault {
    Left(usize),
    OutOfMemory,
}

impl From<AllocError> for ReadFault {
    ghost from_gives = { λ _ fault. fault ≡ faults.OutOfMemory };

    fn from(_error: AllocError) -> ReadFault {
        ReadFault::OutOfMemory
    }
}

impl<T: Drop> From<AllocFailed<T>> for ReadFault {
    ghost from_gives = { λ _ fault. fault ≡ faults.OutOfMemory };

    fn from(_error: AllocFailed<T>) -> ReadFault {
        ReadFault::OutOfMemory
    }
}
