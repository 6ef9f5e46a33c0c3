//! The disks and streams of a run by their names.

use oz_datanode::NodeDisks;
use oz_nodes_loaded::DiskName;
use oz_world::OutOfMemory;
use std::alloc::Global;

/// The bytes of all disks of a store: the manager's, the storage container manager's, and those of each datanode in the place of its number.
#[derive(Drop)]
pub struct Bytes {
    pub manager: Vec<u8>,
    pub scm: Vec<u8>,
    pub nodes: Vec<NodeDisks<Vec<u8>>>,
}

/// The most datanodes.
const MOST: u8 = 16;

/// What has calls that a case can have fail.
#[derive(Clone, Copy, Debug, PartialEq, Eq)]
pub enum Place {
    Source,
    Sink,
    Disk(DiskName),
}

/// The disk `dnN.meta` or `dnN.slots`.
fn node_disk(word: &str) -> Option<DiskName> {
    let (node, part) = word.strip_prefix("dn")?.split_once('.')?;
    let dn = node.parse::<u8>().ok()?;
    match part {
        "meta" if dn < MOST => Some(DiskName::Meta(dn)),
        "slots" if dn < MOST => Some(DiskName::Slots(dn)),
        _ => None,
    }
}

/// The disk of a name.
pub fn disk_named(word: &str) -> Option<DiskName> {
    match word {
        "manager" => Some(DiskName::Manager),
        "scm" => Some(DiskName::Scm),
        _ => node_disk(word),
    }
}

/// The place of a name.
pub fn place_named(word: &str) -> Option<Place> {
    match word {
        "source" => Some(Place::Source),
        "sink" => Some(Place::Sink),
        _ => match disk_named(word) {
            Some(name) => Some(Place::Disk(name)),
            None => None,
        },
    }
}

/// A store whose disks have nothing.
pub fn nothing(alloc: Global) -> Bytes {
    Bytes {
        manager: Vec::new(alloc),
        scm: Vec::new(alloc),
        nodes: Vec::new(alloc),
    }
}

/// The bytes of a disk. Where nothing was said of it, it has none.
pub fn bytes_at(bytes: &Bytes, name: DiskName) -> &[u8] {
    match name {
        DiskName::Manager => &bytes.manager,
        DiskName::Scm => &bytes.scm,
        DiskName::Meta(dn) => match bytes.nodes.get(usize::from(dn)) {
            Some(node) => &node.meta,
            None => &[],
        },
        DiskName::Slots(dn) => match bytes.nodes.get(usize::from(dn)) {
            Some(node) => &node.slots,
            None => &[],
        },
    }
}

/// Adds datanodes of empty disks up to this one.
fn reach(alloc: Global, nodes: &mut Vec<NodeDisks<Vec<u8>>>, dn: u8) -> Result<(), OutOfMemory> {
    for at in 0..=usize::from(dn) {
        if nodes.len() <= at {
            nodes.push(NodeDisks {
                meta: Vec::new(alloc),
                slots: Vec::new(alloc),
            })?;
        }
    }
    Ok(())
}

/// Puts these bytes in the place of others.
fn put_over(bytes: &mut Vec<u8>, these: &[u8]) -> Result<(), OutOfMemory> {
    bytes.clear();
    bytes.extend_from_slice(these)
}

/// Gives a disk of a datanode these bytes.
fn put_at_node(
    alloc: Global,
    nodes: &mut Vec<NodeDisks<Vec<u8>>>,
    dn: u8,
    is_meta: bool,
    these: &[u8],
) -> Result<(), OutOfMemory> {
    reach(alloc, nodes, dn)?;
    match nodes.get_mut(usize::from(dn)) {
        Some(node) if is_meta => put_over(&mut node.meta, these),
        Some(node) => put_over(&mut node.slots, these),
        None => Ok(()),
    }
}

/// Gives a disk these bytes.
pub fn put_bytes(
    alloc: Global,
    bytes: &mut Bytes,
    name: DiskName,
    these: &[u8],
) -> Result<(), OutOfMemory> {
    match name {
        DiskName::Manager => put_over(&mut bytes.manager, these),
        DiskName::Scm => put_over(&mut bytes.scm, these),
        DiskName::Meta(dn) => put_at_node(alloc, &mut bytes.nodes, dn, true, these),
        DiskName::Slots(dn) => put_at_node(alloc, &mut bytes.nodes, dn, false, these),
    }
}
