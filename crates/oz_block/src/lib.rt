//! The blocks of a datanode: their rows, states and transactions in a journal, and the slots with what was written of them
//! and not put.
#![tactic(auto)]

mod adding;
mod blocks;
mod fault;
mod laws;
mod listing;
mod lists;
mod loading;
mod planning;
mod shelf;

pub use blocks::Blocks;
pub use fault::BlockFault;
pub use laws::a_disk_stands_for_one_node;
pub use shelf::{Shelf, Unwritten, Written, each_place_has_its_last_chunk};
