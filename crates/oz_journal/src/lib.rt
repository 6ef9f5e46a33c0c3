//! A journal: bodies one after another on a disk, each of them whole or not there whenever the disk stops, and batches that
//! wait to become one.
#![tactic(auto)]

mod batches;
mod body;
mod frame;
mod framing;
mod journal;
mod laws;
mod load_fault;
mod open;
mod scan;
mod store;

pub use batches::{Batches, LARGEST_BUFFER, LONGEST_BATCH, OutOfMemory};
pub use body::Body;
pub use frame::LONGEST_FRAME;
pub use framing::Frame;
pub use journal::Journal;
pub use laws::{bytes_left_alone_stand_for_the_same, bytes_stand_for_one_thing};
pub use load_fault::LoadFault;
