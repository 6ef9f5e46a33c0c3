//! The storage container manager over a disk in memory.
//!
//! `disk BYTES` begins with a disk that has them, and its calls fail that stand in `fails LIST`. `load COUNT` loads it for so
//! many datanodes, `load COUNT cut SIZE` only so many bytes of it, and `load COUNT change PLACE` with one added to a byte. Then
//! `grant STRIPE CONTAINERS PIPELINES` grants ids where these are excluded, `apply CONTAINER EVENT` leads a container that was made
//! on, `log CONTAINER LOCALS` logs that blocks are deleted, `ack NUMBER DN` notes an acknowledgement and `retire NUMBER` a
//! retirement, `up DN` and `down DN` are noted, and `may-ack NUMBER DN`, `may-retire NUMBER`, `last-txn`, `logged CONTAINER LOCAL`,
//! `pending CONTAINER DN`, `next-id`, `members CONTAINER`, `state CONTAINER`, `containers`, `counts`, `stopped` and
//! `faults` are asked. Once it ends by `stop`, or wasn't loaded, `bytes BYTES`,
//! `length` and `disk-faults` ask the disk, and `image CHOICE` begins with what a stop leaves of it. `spent NEXT` asks whether
//! no ids are left.

use crate::calls::{calls_of, judge_call};
use crate::logs::write_txns;
use crate::told::{Stuck, Told};
use crate::words::{bytes, number, numbers, small, smalls};
use case_files::{Judged, Statement};
use oz_container::Event;
use oz_dellog::{MOST_LOCALS, Txn};
use oz_fields::{Block, List};
use oz_requests::Exclude;
use oz_scm::{Scm, are_ids_spent};
use oz_world::{Disk, MemoryDisk};
use std::alloc::{AllocError, Global};

/// How many bytes a disk has room for.
const ROOM: u64 = 16_384;

/// How many stripes there are.
const STRIPES: u8 = 16;

/// The bytes of a disk, the calls of it that fail, and what it became.
#[derive(Drop)]
struct Store {
    bytes: Vec<u8>,
    fails: Vec<u64>,
    scm: Option<Scm<MemoryDisk>>,
    disk: Option<MemoryDisk>,
}

/// Adds one to the byte at a place.
fn change(bytes: &mut Vec<u8>, place: u64) {
    if let Some(byte) = bytes.get_mut(place as usize) {
        *byte = byte.wrapping_add(1);
    }
}

/// A disk for a load.
fn disk_of(alloc: Global, store: &Store, call: &Statement) -> Result<MemoryDisk, Stuck> {
    let mut bytes = store.bytes.to_vec(alloc)?;
    match call.word(2) {
        "cut" => bytes.truncate(number(call.word(3))? as usize),
        "change" => change(&mut bytes, number(call.word(3))?),
        "" | "=>" => {}
        _ => return Err(Stuck::Unread),
    }
    Ok(MemoryDisk::new(alloc, bytes, store.fails.to_vec(alloc)?, ROOM)?)
}

/// Loads a disk, which comes back where it can't be.
fn load(
    alloc: Global,
    store: &mut Store,
    call: &Statement,
    came: &mut String,
) -> Result<(), Stuck> {
    let count = small(call.word(1))?;
    if count < 3 || count > 16 {
        return Err(Stuck::Unread);
    }
    match Scm::load(alloc, disk_of(alloc, store, call)?, count) {
        Ok(scm) => {
            let next = scm.next_id();
            store.scm = Some(scm);
            write!(came, "next id {next}")?;
        }
        Err((disk, fault)) => {
            store.disk = Some(disk);
            write!(came, "{fault:?}")?;
        }
    }
    Ok(())
}

fn grant(
    alloc: Global,
    scm: &mut Scm<MemoryDisk>,
    call: &Statement,
    came: &mut String,
) -> Result<(), Stuck> {
    let stripe = small(call.word(1))?;
    if stripe >= STRIPES {
        return Err(Stuck::Unread);
    }
    let exclude = Exclude {
        containers: List::of(numbers(alloc, call.word(2))?),
        pipelines: List::of(smalls(alloc, call.word(3))?),
    };
    let granted = scm.grant(alloc, stripe, &exclude);
    write!(came, "{granted:?}")?;
    Ok(())
}

/// The event of a name.
fn event_of(name: &str) -> Result<Event, Stuck> {
    match name {
        "Finalize" => Ok(Event::Finalize),
        "QuasiClose" => Ok(Event::QuasiClose),
        "Close" => Ok(Event::Close),
        "ForceClose" => Ok(Event::ForceClose),
        "Delete" => Ok(Event::Delete),
        "Cleanup" => Ok(Event::Cleanup),
        _ => Err(Stuck::Unread),
    }
}

fn apply(scm: &mut Scm<MemoryDisk>, call: &Statement, came: &mut String) -> Result<(), Stuck> {
    let container = number(call.word(1))?;
    let event = event_of(call.word(2))?;
    if scm.state(container).is_none() {
        return Err(Stuck::Unread);
    }
    let applied = scm.apply(container, event);
    write!(came, "{applied:?}")?;
    Ok(())
}

/// Logs that blocks of a container are deleted, under the next number.
fn log(
    alloc: Global,
    scm: &mut Scm<MemoryDisk>,
    call: &Statement,
    came: &mut String,
) -> Result<(), Stuck> {
    let container = number(call.word(1))?;
    let locals = numbers(alloc, call.word(2))?;
    if locals.is_empty() || locals.len() > MOST_LOCALS || scm.state(container).is_none() {
        return Err(Stuck::Unread);
    }
    let Some(number) = scm.last_txn().checked_add(1) else {
        return Err(Stuck::Unread);
    };
    let txn = Txn {
        number,
        container,
        locals: List::of(locals),
    };
    let logged = scm.log_txn(alloc, &txn);
    write!(came, "{logged:?}")?;
    Ok(())
}

fn ack(scm: &mut Scm<MemoryDisk>, call: &Statement, came: &mut String) -> Result<(), Stuck> {
    let txn = number(call.word(1))?;
    let dn = small(call.word(2))?;
    if !scm.may_ack(txn, dn) {
        return Err(Stuck::Unread);
    }
    let noted = scm.ack(txn, dn);
    write!(came, "{noted:?}")?;
    Ok(())
}

fn retire(scm: &mut Scm<MemoryDisk>, call: &Statement, came: &mut String) -> Result<(), Stuck> {
    let txn = number(call.word(1))?;
    if !scm.may_retire(txn) {
        return Err(Stuck::Unread);
    }
    let noted = scm.retire(txn);
    write!(came, "{noted:?}")?;
    Ok(())
}

/// Writes what a call gives that asks for the log of deletions, or changes it.
fn ask_log(
    alloc: Global,
    scm: &mut Scm<MemoryDisk>,
    call: &Statement,
    came: &mut String,
) -> Result<(), Stuck> {
    match call.word(0) {
        "log" => log(alloc, scm, call, came)?,
        "ack" => ack(scm, call, came)?,
        "retire" => retire(scm, call, came)?,
        "last-txn" => write!(came, "{}", scm.last_txn())?,
        "may-retire" => write!(came, "{}", scm.may_retire(number(call.word(1))?))?,
        "may-ack" => {
            let dn = small(call.word(2))?;
            write!(came, "{}", scm.may_ack(number(call.word(1))?, dn))?;
        }
        "logged" => {
            let container = number(call.word(1))?;
            let local = number(call.word(2))?;
            write!(came, "{}", scm.logged(Block { container, local }))?;
        }
        "pending" => {
            let dn = small(call.word(2))?;
            write_txns(&scm.pending_in(alloc, number(call.word(1))?, dn)?, came)?;
        }
        _ => return Err(Stuck::Unread),
    }
    Ok(())
}

fn set_up(scm: &mut Scm<MemoryDisk>, call: &Statement) -> Result<(), Stuck> {
    let dn = small(call.word(1))?;
    if dn >= scm.nodes() {
        return Err(Stuck::Unread);
    }
    scm.set_up(dn, call.word(0) == "up");
    Ok(())
}

/// Writes what a call of what was loaded gives.
fn ask(
    alloc: Global,
    scm: &mut Scm<MemoryDisk>,
    call: &Statement,
    came: &mut String,
) -> Result<(), Stuck> {
    match call.word(0) {
        "grant" => grant(alloc, scm, call, came)?,
        "apply" => apply(scm, call, came)?,
        "up" | "down" => set_up(scm, call)?,
        "next-id" => write!(came, "{}", scm.next_id())?,
        "members" => write!(came, "{:?}", scm.members(number(call.word(1))?))?,
        "state" => write!(came, "{:?}", scm.state(number(call.word(1))?))?,
        "counts" => write!(came, "{:?}", scm.counts())?,
        "containers" => write!(came, "{:?}", scm.containers(alloc)?)?,
        "stopped" => write!(came, "{}", scm.stopped())?,
        "faults" => write!(came, "{}", scm.faults())?,
        _ => ask_log(alloc, scm, call, came)?,
    }
    Ok(())
}

/// The bytes that the words of a call say.
fn said_bytes(alloc: Global, call: &Statement) -> Result<Vec<u8>, Stuck> {
    bytes(alloc, call.words_from(alloc, 1)?.as_str())
}

/// Writes the bytes that the disk has, where those of the call are others.
fn compare_bytes(
    alloc: Global,
    disk: &MemoryDisk,
    call: &Statement,
    came: &mut String,
) -> Result<(), Stuck> {
    if disk.bytes() != said_bytes(alloc, call)?.as_slice() {
        write!(came, "{:?}", disk.bytes())?;
    }
    Ok(())
}

/// Writes what a call of a disk gives that isn't used any more.
fn ask_left(
    alloc: Global,
    disk: &mut MemoryDisk,
    call: &Statement,
    came: &mut String,
) -> Result<(), Stuck> {
    match call.word(0) {
        "disk-faults" => write!(came, "{}", disk.faults())?,
        "bytes" => compare_bytes(alloc, disk, call, came)?,
        "length" => write!(came, "{:?}", disk.len())?,
        _ => return Err(Stuck::Unread),
    }
    Ok(())
}

/// The bytes that a stop leaves of a disk.
fn image(alloc: Global, store: &Store, call: &Statement) -> Result<Vec<u8>, Stuck> {
    match &store.disk {
        Some(disk) => Ok(disk.image(alloc, small(call.word(1))?)?),
        None => Err(Stuck::Unread),
    }
}

/// Begins with a disk of which no call fails.
fn begin(alloc: Global, store: &mut Store, bytes: Vec<u8>) {
    store.bytes = bytes;
    store.fails = Vec::new(alloc);
}

fn stop(store: &mut Store) {
    if let Some(scm) = store.scm.take() {
        store.disk = Some(scm.into_disk());
    }
}

/// Writes what a call gives that changes nothing of what is loaded next.
fn call_loaded(
    alloc: Global,
    store: &mut Store,
    call: &Statement,
    came: &mut String,
) -> Result<(), Stuck> {
    match call.word(0) {
        "spent" => write!(came, "{}", are_ids_spent(number(call.word(1))?))?,
        "disk-faults" | "bytes" | "length" => match &mut store.disk {
            Some(disk) => ask_left(alloc, disk, call, came)?,
            None => return Err(Stuck::Unread),
        },
        _ => match &mut store.scm {
            Some(scm) => ask(alloc, scm, call, came)?,
            None => return Err(Stuck::Unread),
        },
    }
    Ok(())
}

/// Makes a call, and writes what it gives.
fn make(
    alloc: Global,
    store: &mut Store,
    call: &Statement,
    came: &mut String,
) -> Result<(), Stuck> {
    match call.word(0) {
        "disk" => begin(alloc, store, said_bytes(alloc, call)?),
        "image" => begin(alloc, store, image(alloc, store, call)?),
        "fails" => store.fails = numbers(alloc, call.word(1))?,
        "stop" => stop(store),
        "load" => load(alloc, store, call, came)?,
        _ => call_loaded(alloc, store, call, came)?,
    }
    Ok(())
}

/// Judges a case of the storage container manager.
pub fn judge_scm(alloc: Global, case: &[Statement]) -> Result<Judged, AllocError> {
    let mut told = Told::new(alloc);
    let mut store = Store {
        bytes: Vec::new(alloc),
        fails: Vec::new(alloc),
        scm: None,
        disk: None,
    };
    for call in &calls_of(&mut told, case)? {
        let mut came = String::new(alloc);
        let made = make(alloc, &mut store, call, &mut came);
        judge_call(&mut told, call, made, came.as_str())?;
    }
    Ok(told.judged())
}
