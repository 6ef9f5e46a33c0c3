//! The opening of a store, read from the bytes of its disks.

use crate::places::Bytes;
use oz_core::{Container, NodeOpening, Opening, Replica, Unretired};
use oz_datanode::{Datanode, NodeDisks};
use oz_dellog::{Logged, Txn};
use oz_fields::{List, OutOfMemory};
use oz_loaded::{Unseated, load};
use oz_model::{Namespace, NumberMap};
use oz_scm::Scm;
use oz_world::MemoryDisk;
use std::alloc::Global;

/// A disk of these bytes, with room for what loading writes.
fn disk_of(alloc: Global, bytes: &[u8]) -> Result<MemoryDisk, OutOfMemory> {
    let room = (bytes.len() as u64).saturating_add(64);
    MemoryDisk::new(alloc, bytes.to_vec(alloc)?, Vec::new(alloc), room)
}

/// What the bytes of a manager's disk stand for; none where they don't load.
pub fn rows_of(alloc: Global, bytes: &[u8]) -> Result<Option<Unseated>, OutOfMemory> {
    match load(alloc, disk_of(alloc, bytes)?) {
        Ok((unseated, _flusher)) => Ok(Some(unseated)),
        Err(_refused) => Ok(None),
    }
}

/// An opening in which nothing is there, and no datanode.
pub fn nothing(alloc: Global) -> Opening {
    Opening {
        namespace: Namespace::new(alloc),
        last_index: 0,
        left: List::new(alloc),
        next_id: 1,
        last_txn: 0,
        containers: NumberMap::new(alloc),
        unretired: List::new(alloc),
        nodes: List::new(alloc),
    }
}

/// Puts what rows stand for into an opening.
fn put_rows(alloc: Global, opening: &mut Opening, rows: &Unseated) -> Result<(), OutOfMemory> {
    opening.namespace = rows.namespace(alloc)?;
    opening.last_index = rows.last_index();
    opening.left = List::of(rows.left(alloc)?);
    Ok(())
}

/// Puts what a manager's disk stands for into an opening, and says whether it loads.
fn open_manager(alloc: Global, opening: &mut Opening, bytes: &[u8]) -> Result<bool, OutOfMemory> {
    match rows_of(alloc, bytes)? {
        Some(rows) => {
            put_rows(alloc, opening, &rows)?;
            Ok(true)
        }
        None => Ok(false),
    }
}

/// Adds the containers that the storage container manager made.
fn put_containers(
    alloc: Global,
    containers: &mut NumberMap<Container>,
    scm: &Scm<MemoryDisk>,
) -> Result<(), OutOfMemory> {
    for (number, made) in scm.containers(alloc)? {
        let container = Container {
            pipeline: made.pipeline,
            state: made.state,
            granted: made.granted,
        };
        containers.insert(alloc, number, container)?;
    }
    Ok(())
}

/// The datanodes that acknowledged a transaction, rising.
fn acknowledgers_of(alloc: Global, logged: &Logged) -> Result<List<u8>, OutOfMemory> {
    let mut dns = Vec::new(alloc);
    for dn in 0..=u8::MAX {
        if logged.acknowledged[usize::from(dn)] {
            dns.push(dn)?;
        }
    }
    Ok(List::of(dns))
}

/// Puts the log of deleted blocks into an opening.
fn put_log(alloc: Global, opening: &mut Opening, scm: &Scm<MemoryDisk>) -> Result<(), OutOfMemory> {
    let mut unretired = Vec::new(alloc);
    for (number, logged) in scm.unretired() {
        let txn = Txn {
            number: *number,
            container: logged.container,
            locals: List::of(logged.locals.items().to_vec(alloc)?),
        };
        let acknowledgers = acknowledgers_of(alloc, logged)?;
        unretired.push(Unretired { txn, acknowledgers })?;
    }
    opening.last_txn = scm.last_txn();
    opening.unretired = List::of(unretired);
    Ok(())
}

/// Puts what the disk of the storage container manager of so many datanodes, 3 to 16, stands for into an opening, and says whether it loads.
fn open_scm(
    alloc: Global,
    opening: &mut Opening,
    count: u8,
    bytes: &[u8],
) -> Result<bool, OutOfMemory> {
    if count < 3 || 16 < count {
        return Ok(false);
    }
    match Scm::load(alloc, disk_of(alloc, bytes)?, count) {
        Ok(scm) => {
            opening.next_id = scm.next_id();
            put_containers(alloc, &mut opening.containers, &scm)?;
            put_log(alloc, opening, &scm)?;
            Ok(true)
        }
        Err(_refused) => Ok(false),
    }
}

/// The replicas of a datanode.
fn replicas_of(alloc: Global, node: &Datanode<MemoryDisk>) -> Result<List<Replica>, OutOfMemory> {
    let mut replicas = Vec::new(alloc);
    for (container, state, greatest) in node.replicas(alloc)? {
        replicas.push(Replica {
            container,
            state,
            greatest,
        })?;
    }
    Ok(List::of(replicas))
}

/// Adds what a datanode holds.
fn put_node(
    alloc: Global,
    nodes: &mut Vec<NodeOpening>,
    node: &Datanode<MemoryDisk>,
) -> Result<(), OutOfMemory> {
    let replicas = replicas_of(alloc, node)?;
    let held = List::of(node.held(alloc)?);
    nodes.push(NodeOpening { held, replicas })?;
    Ok(())
}

/// The disks of a datanode.
fn disks_of(
    alloc: Global,
    meta: &[u8],
    slots: &[u8],
) -> Result<NodeDisks<MemoryDisk>, OutOfMemory> {
    let meta = disk_of(alloc, meta)?;
    let slots = disk_of(alloc, slots)?;
    Ok(NodeDisks { meta, slots })
}

/// Adds what the disks of a datanode stand for, and says whether they load.
fn open_node(
    alloc: Global,
    nodes: &mut Vec<NodeOpening>,
    dn: u8,
    bytes: &Bytes,
) -> Result<bool, OutOfMemory> {
    let disks = match bytes.nodes.get(usize::from(dn)) {
        Some(node) => disks_of(alloc, &node.meta, &node.slots)?,
        None => disks_of(alloc, &[], &[])?,
    };
    match Datanode::load(alloc, dn, disks) {
        Ok(node) => {
            put_node(alloc, nodes, &node)?;
            Ok(true)
        }
        Err(_refused) => Ok(false),
    }
}

/// Adds what the disks of so many datanodes stand for, and says whether they load.
fn open_nodes(
    alloc: Global,
    nodes: &mut Vec<NodeOpening>,
    count: u8,
    bytes: &Bytes,
) -> Result<bool, OutOfMemory> {
    for dn in 0..count {
        if !open_node(alloc, nodes, dn, bytes)? {
            return Ok(false);
        }
    }
    Ok(true)
}

/// Puts what the disks of so many datanodes, 3 to 16, and of their managers stand for into an opening of nothing, and says whether they load.
pub fn open(
    alloc: Global,
    opening: &mut Opening,
    count: u8,
    bytes: &Bytes,
) -> Result<bool, OutOfMemory> {
    if !open_scm(alloc, opening, count, &bytes.scm)? {
        return Ok(false);
    }
    if !open_manager(alloc, opening, &bytes.manager)? {
        return Ok(false);
    }
    let mut nodes = Vec::new(alloc);
    let is_loaded = open_nodes(alloc, &mut nodes, count, bytes)?;
    opening.nodes = List::of(nodes);
    Ok(is_loaded)
}
