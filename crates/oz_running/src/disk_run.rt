//! A run of a script over the disks of a store: they are loaded, and the lines run on threads over what was loaded.
mod disks;
mod loaded;
mod over;
mod told;

pub use disks::{Disks, RefusedStore};
pub use over::{StoreRan, run_over_disks};
