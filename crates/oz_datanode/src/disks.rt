//! The two disks of a datanode.

/// The journal of a datanode, and the disk of its slots.
#[derive(Drop)]
pub struct NodeDisks<D> {
    pub meta: D,
    pub slots: D,
}
