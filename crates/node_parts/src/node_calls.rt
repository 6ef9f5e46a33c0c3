//! The calls of a datanode.
//!
//! `write LOCAL PLACE`, `put LOCAL LENGTH`, `abandon LOCAL`, `copy LOCAL` and `read LOCAL` are of the block's own bytes, or of those that stand
//! behind them; `delete NUMBER LOCALS` applies a transaction, `set STATE` brings the replica to a state, and `drop` drops it; `stop`,
//! `start` and `wipe`. They give `done`, how many blocks were deleted, `bytes` where what was read is as said, or the refusal.
//! `blocks`, `held`, `replicas`, `greatest`, `holds LOCAL`, `state`, `id`, `count`, `halted` and `running` ask it.

ghost use Rattle.std.specs.Prelude.{◌≡◌, ℕ, false, IfOk};
ghost use Rattle.std.specs.Bool.{OnTrue};
ghost use Rattle.oz_datanode.specs.Datanode.{node_in};
ghost use Rattle.oz_entries.specs.Node.{is_held};

use crate::own::{CONTAINER, block, bytes_for, chunk_at, may_be, whole_chunk};
use crate::told::Stuck;
use crate::words::{number, numbers, parted, size, small};
use oz_container::State;
use oz_datanode::{Datanode, NodeRefusal};
use oz_dellog::{MOST_LOCALS, Txn};
use oz_fields::{List, OutOfMemory};
use oz_world::MemoryDisk;
use std::alloc::Global;

pub type Node = Datanode<MemoryDisk>;

/// Writes what came of a call that answers nothing else.
fn tell(answer: Result<(), NodeRefusal>, came: &mut String) -> Result<(), Stuck> {
    match answer {
        Ok(()) => came.push_str("done")?,
        Err(refusal) => write!(came, "{refusal:?}")?,
    }
    Ok(())
}

fn write(alloc: Global, node: &mut Node, words: &str, came: &mut String) -> Result<(), Stuck> {
    let (first, behind) = parted(words);
    let (second, said) = parted(behind);
    let local = number(first)?;
    let place = small(second)?;
    let bytes = bytes_for(alloc, local, said)?;
    let chunk = if said.is_empty() {
        chunk_at(&bytes, place)
    } else {
        whole_chunk(&bytes, place)
    };
    match chunk {
        Some(chunk) => tell(node.write(alloc, block(local), place, chunk), came),
        None => Err(Stuck::Unread),
    }
}

fn put(alloc: Global, node: &mut Node, words: &str, came: &mut String) -> Result<(), Stuck> {
    let (first, second) = parted(words);
    let local = number(first)?;
    let size = size(second)?;
    if !may_be(local) || size < 1 || size > 65_536 {
        return Err(Stuck::Unread);
    }
    tell(node.put(alloc, block(local), size), came)
}

fn copy(alloc: Global, node: &mut Node, words: &str, came: &mut String) -> Result<(), Stuck> {
    let (first, said) = parted(words);
    let local = number(first)?;
    let bytes = bytes_for(alloc, local, said)?;
    if node.holds(block(local)) || !may_be(local) || bytes.is_empty() || bytes.len() > 65_536 {
        return Err(Stuck::Unread);
    }
    tell(node.copy(alloc, block(local), &bytes), came)
}

fn read(alloc: Global, node: &mut Node, words: &str, came: &mut String) -> Result<(), Stuck> {
    let (first, said) = parted(words);
    let local = number(first)?;
    let wanted = bytes_for(alloc, local, said)?;
    match node.read(alloc, block(local)) {
        Ok(bytes) if bytes == wanted => came.push_str("bytes")?,
        Ok(bytes) => write!(came, "{} other bytes", bytes.len())?,
        Err(refusal) => write!(came, "{refusal:?}")?,
    }
    Ok(())
}

fn delete(alloc: Global, node: &mut Node, words: &str, came: &mut String) -> Result<(), Stuck> {
    let (first, second) = parted(words);
    let number = number(first)?;
    let locals = numbers(alloc, second)?;
    if number < 1 || locals.is_empty() || locals.len() > MOST_LOCALS {
        return Err(Stuck::Unread);
    }
    let txn = Txn {
        number,
        container: CONTAINER,
        locals: List::of(locals),
    };
    match node.apply_deletes(alloc, &txn) {
        Ok(count) => write!(came, "{count}")?,
        Err(refusal) => write!(came, "{refusal:?}")?,
    }
    Ok(())
}

/// Whether no block of the container is held.
fn is_empty(alloc: Global, node: &Node) -> Result<bool, OutOfMemory>
    ensures { IfOk result (λ empty. OnTrue empty
        ((local : ℕ) → is_held (node_in node.now) (record { container = 1; local = local }) ≡ false)) }
{
    Ok(node.blocks(alloc, CONTAINER)?.is_empty())
}

fn drop_replica(alloc: Global, node: &mut Node, came: &mut String) -> Result<(), Stuck> {
    if !is_empty(alloc, node)? {
        return Err(Stuck::Unread);
    }
    tell(node.drop_container(alloc, CONTAINER), came)
}

fn state_of(word: &str) -> Option<State> {
    match word {
        "open" => Some(State::Open),
        "closing" => Some(State::Closing),
        "quasi_closed" => Some(State::QuasiClosed),
        "closed" => Some(State::Closed),
        "deleting" => Some(State::Deleting),
        "deleted" => Some(State::Deleted),
        _ => None,
    }
}

fn set(alloc: Global, node: &mut Node, word: &str, came: &mut String) -> Result<(), Stuck> {
    match state_of(word) {
        Some(state) => tell(node.set_state(alloc, CONTAINER, state), came),
        None => Err(Stuck::Unread),
    }
}

/// What a call that needs no memory gives.
fn turn(node: &mut Node, name: &str, words: &str, came: &mut String) -> Result<(), Stuck> {
    match name {
        "abandon" => node.abandon(block(number(words)?)),
        "stop" => node.stop(),
        "start" => return tell(node.start(), came),
        "wipe" => return tell(node.wipe(), came),
        _ => return ask(node, name, words, came),
    }
    tell(Ok(()), came)
}

/// What is asked of it that needs no memory.
fn ask(node: &Node, name: &str, words: &str, came: &mut String) -> Result<(), Stuck> {
    match name {
        "greatest" => write!(came, "{}", node.greatest_id())?,
        "id" => write!(came, "{}", node.id())?,
        "count" => write!(came, "{}", node.count())?,
        "halted" => write!(came, "{}", node.halted())?,
        "running" => write!(came, "{}", node.running())?,
        "state" => write!(came, "{:?}", node.state(number(words)?))?,
        "holds" => write!(came, "{}", node.holds(block(number(words)?)))?,
        _ => return Err(Stuck::Unread),
    }
    Ok(())
}

/// What is listed of it.
fn list(
    alloc: Global,
    node: &Node,
    name: &str,
    words: &str,
    came: &mut String,
) -> Result<(), Stuck> {
    match name {
        "blocks" => write!(came, "{:?}", node.blocks(alloc, number(words)?)?)?,
        "held" => write!(came, "{:?}", node.held(alloc)?)?,
        "replicas" => write!(came, "{:?}", node.replicas(alloc)?)?,
        _ => return Err(Stuck::Unread),
    }
    Ok(())
}

/// What a call gives.
pub fn call(
    alloc: Global,
    node: &mut Node,
    name: &str,
    words: &str,
    came: &mut String,
) -> Result<(), Stuck> {
    match name {
        "write" => write(alloc, node, words, came),
        "put" => put(alloc, node, words, came),
        "copy" => copy(alloc, node, words, came),
        "read" => read(alloc, node, words, came),
        "delete" => delete(alloc, node, words, came),
        "set" => set(alloc, node, words, came),
        "drop" => drop_replica(alloc, node, came),
        "blocks" | "held" | "replicas" => list(alloc, node, name, words, came),
        _ => turn(node, name, words, came),
    }
}

/// The blocks that are held.
pub fn show(alloc: Global, node: &Node, came: &mut String) -> Result<(), Stuck> {
    write!(came, "{:?}", node.blocks(alloc, CONTAINER)?)?;
    Ok(())
}

/// The blocks that are held, and those of them that haven't their own bytes.
pub fn show_read(alloc: Global, node: &mut Node, came: &mut String) -> Result<(), Stuck> {
    let locals = node.blocks(alloc, CONTAINER)?;
    write!(came, "{locals:?}")?;
    for local in &locals {
        show_other(alloc, node, *local, came)?;
    }
    Ok(())
}

fn show_other(alloc: Global, node: &mut Node, local: u64, came: &mut String) -> Result<(), Stuck> {
    let own = bytes_for(alloc, local, "")?;
    match node.read(alloc, block(local)) {
        Ok(bytes) if bytes == own => {}
        Ok(bytes) => write!(came, " {local}: {} other bytes", bytes.len())?,
        Err(refusal) => write!(came, " {local}: {refusal:?}")?,
    }
    Ok(())
}
