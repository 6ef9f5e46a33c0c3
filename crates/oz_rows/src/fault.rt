//! Why a row or a body can't be read.

ghost use Rattle.std.specs.Prelude.{◌≡◌};
ghost use Rattle.oz_rows.specs.declared.fault.ReadFault.TheVariants as faults;

use std::alloc::{AllocError, AllocFailed};

/// Why bytes aren't a row, or aren't a body.
#[derive(Clone, Copy, Debug, PartialEq, Eq)]
pub enum RowFault {
    /// The place of the first field that passes the end of the bytes or breaks a rule, counted from
    /// the first byte; the row's end where more bytes follow it.
    At(usize),
    OutOfMemory,
}

/// Why reading stopped. `Left` has how many bytes were left from the faulty field on.
#[derive(Clone, Copy, Debug, PartialEq, Eq)]
pub enum ReadFault {
    Left(usize),
    OutOfMemory,
}

impl From<AllocError> for ReadFault {
    ghost from_gives = { λ _ e. e ≡ faults.OutOfMemory };

    fn from(_error: AllocError) -> ReadFault {
        ReadFault::OutOfMemory
    }
}

impl<T: Drop> From<AllocFailed<T>> for ReadFault {
    ghost from_gives = { λ _ e. e ≡ faults.OutOfMemory };

    fn from(_error: AllocFailed<T>) -> ReadFault {
        ReadFault::OutOfMemory
    }
}
