//! A list of epochs and keys, in one block, and a counter of steps.
#![tactic(auto)]

mod block;
mod list;
mod node;
mod raw_block;
mod steps;

pub use list::{EpochList, Place};
pub use std::alloc::AllocError as OutOfMemory;
pub use steps::Steps;
