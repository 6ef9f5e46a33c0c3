//! Batches that wait to become one body of the manager's journal.
mod batches;
mod head;

pub use batches::{Batches, LARGEST_BUFFER, LONGEST_BATCH};
pub use std::alloc::AllocError as OutOfMemory;
