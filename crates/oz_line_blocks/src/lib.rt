//! A line's blocks in a run: a stripe that has none left is granted more, a block is written at its members, and a piece is read there.
#![tactic(auto)]

mod granting;
mod reading;
mod writing;

pub use granting::{Granting, grant_for};
pub use reading::{Doubted, Lack, Reading, read_at_members};
pub use writing::{Unwritten, write_to_members};
