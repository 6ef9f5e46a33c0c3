//! Disks in memory that all fail from one call on, as if the machine had stopped there.
#![tactic(auto)]

mod fuse;
mod fused_disk;

pub use fuse::Fuse;
pub use fused_disk::FusedDisk;
pub use oz_world::OutOfMemory;
