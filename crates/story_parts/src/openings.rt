//! What a run begins with: a line for each thing.

use crate::items::list;
use crate::words::Words;
use oz_core::{Container, NodeOpening, Opening, Unretired};
use oz_dellog::Txn;
use oz_fields::{Block, List, OutOfMemory};
use oz_namespace::{Bucket, NameMap, Namespace, NumberMap, Session, Snapshot};
use std::alloc::Global;

/// Nothing is there, and no datanode.
pub fn nothing(alloc: Global) -> Opening {
    Opening {
        namespace: Namespace::new(alloc),
        last_index: 0,
        left: List::new(alloc),
        next_id: 1,
        last_txn: 0,
        containers: NumberMap::new(alloc),
        unretired: List::new(alloc),
        nodes: List::new(alloc),
    }
}

/// What a line says is there too.
///
/// - `nodes 3`: so many further datanodes, which hold nothing.
/// - `node 5.6:3 5:open:0`: a further datanode with the pieces that it holds, and its replicas.
/// - `container 5 0 open 0`: a container with its pipeline, its state, and how many ids were granted in it.
/// - `next_id 6`: the id of the next block.
/// - `left 5 6 64`: blocks are still to be deleted: of this container, from this local id on, so many.
/// - `unretired 1 5 6 -`: a transaction of a container, with its local ids, and who acknowledged it.
/// - `bucket vol buc` and what is in it, `nothing`, `key key 5.6:3`, `session 1 key -` with its blocks, or
///   `snapshot snap key 5.6:3` with a key. Its volume has no other one.
pub fn add(alloc: Global, words: &mut Words<'_>, opening: &mut Opening) -> Result<(), OutOfMemory> {
    match words.word() {
        "nodes" => add_nodes(alloc, words, opening),
        "node" => add_node(alloc, words, opening),
        "container" => add_container(alloc, words, opening),
        "next_id" => {
            opening.next_id = words.u64();
            Ok(())
        }
        "left" => add_left(alloc, words, opening),
        "unretired" => add_unretired(alloc, words, opening),
        "bucket" => add_bucket(alloc, words, opening),
        _ => {
            words.refuse();
            Ok(())
        }
    }
}

fn push_node(alloc: Global, opening: &mut Opening, node: NodeOpening) -> Result<(), OutOfMemory> {
    opening.nodes.push(alloc, node).map_err(|refused| refused.1)
}

fn add_nodes(
    alloc: Global,
    words: &mut Words<'_>,
    opening: &mut Opening,
) -> Result<(), OutOfMemory> {
    for _ in 0..words.u8() {
        let node = NodeOpening {
            held: List::new(alloc),
            replicas: List::new(alloc),
        };
        push_node(alloc, opening, node)?;
    }
    Ok(())
}

fn add_node(
    alloc: Global,
    words: &mut Words<'_>,
    opening: &mut Opening,
) -> Result<(), OutOfMemory> {
    let held = list(alloc, words)?;
    let replicas = list(alloc, words)?;
    push_node(alloc, opening, NodeOpening { held, replicas })
}

fn add_container(
    alloc: Global,
    words: &mut Words<'_>,
    opening: &mut Opening,
) -> Result<(), OutOfMemory> {
    let number = words.u64();
    let pipeline = words.u8();
    let state = words.state();
    let granted = words.u64();
    let container = Container {
        pipeline,
        state,
        granted,
    };
    opening.containers.insert(alloc, number, container)
}

fn add_left(
    alloc: Global,
    words: &mut Words<'_>,
    opening: &mut Opening,
) -> Result<(), OutOfMemory> {
    let container = words.u64();
    let first = words.u64();
    for place in 0..words.u64() {
        let block = Block {
            container,
            local: first.wrapping_add(place),
        };
        opening
            .left
            .push(alloc, block)
            .map_err(|refused| refused.1)?;
    }
    Ok(())
}

fn add_unretired(
    alloc: Global,
    words: &mut Words<'_>,
    opening: &mut Opening,
) -> Result<(), OutOfMemory> {
    let number = words.u64();
    let container = words.u64();
    let txn = Txn {
        number,
        container,
        locals: list(alloc, words)?,
    };
    let acknowledgers = list(alloc, words)?;
    opening
        .unretired
        .push(alloc, Unretired { txn, acknowledgers })
        .map_err(|refused| refused.1)
}

fn add_bucket(
    alloc: Global,
    words: &mut Words<'_>,
    opening: &mut Opening,
) -> Result<(), OutOfMemory> {
    let volume = words.name(alloc)?;
    let name = words.name(alloc)?;
    let mut buckets = NameMap::new(alloc);
    buckets.insert(alloc, name, bucket(alloc, words)?)?;
    opening.namespace.volumes.insert(alloc, volume, buckets)
}

fn bucket(alloc: Global, words: &mut Words<'_>) -> Result<Bucket, OutOfMemory> {
    let mut bucket = Bucket::new(alloc);
    match words.word() {
        "nothing" => {}
        "key" => add_key(alloc, words, &mut bucket)?,
        "session" => add_session(alloc, words, &mut bucket)?,
        "snapshot" => add_snapshot(alloc, words, &mut bucket)?,
        _ => words.refuse(),
    }
    Ok(bucket)
}

fn add_key(alloc: Global, words: &mut Words<'_>, bucket: &mut Bucket) -> Result<(), OutOfMemory> {
    let key = words.name(alloc)?;
    bucket.keys.insert(alloc, key, list(alloc, words)?)
}

fn add_session(
    alloc: Global,
    words: &mut Words<'_>,
    bucket: &mut Bucket,
) -> Result<(), OutOfMemory> {
    let number = words.u64();
    let session = Session {
        key: words.name(alloc)?,
        blocks: list(alloc, words)?,
    };
    bucket.sessions.insert(alloc, number, session)
}

fn add_snapshot(
    alloc: Global,
    words: &mut Words<'_>,
    bucket: &mut Bucket,
) -> Result<(), OutOfMemory> {
    let name = words.name(alloc)?;
    let key = words.name(alloc)?;
    let mut keys = NameMap::new(alloc);
    keys.insert(alloc, key, list(alloc, words)?)?;
    bucket
        .snapshots
        .push(alloc, Snapshot { name, keys })
        .map_err(|refused| refused.1)
}
