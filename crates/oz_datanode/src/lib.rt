//! One datanode: the blocks that were put and copied, less those that were deleted, over a journal and a disk of slots.
#![tactic(auto)]

mod asking;
mod copying;
mod datanode;
mod deleting;
mod disks;
mod fault;
mod hashed;
mod laws;
mod lists;
mod loading;
mod reading;
mod refusal;
mod states;
mod unverified;
mod wiping;
mod writing;

pub use datanode::Datanode;
pub use disks::NodeDisks;
pub use fault::NodeFault;
pub use hashed::Hashed;
pub use laws::{
    a_count_that_rose_has_risen, disks_go_on_and_count, parts_make_a_block,
    what_a_load_leaves_loads_alike, what_loads_is_not_damaged,
};
pub use refusal::NodeRefusal;
pub use unverified::{Unverified, verified};
