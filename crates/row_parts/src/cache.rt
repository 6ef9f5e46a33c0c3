//! Cases of `cache`, which begin with no rows and no tables beneath them.
//!
//! - `enter`: the changes of the block, a line each (`changes.rt`), under the next epoch.
//! - `enter-each`: each change of the block under an epoch of its own.
//! - `flush EPOCH`: what was entered up to an epoch goes down into the tables.
//! - `size`: the last epoch, the last index of the tables and how many rows they have.
//! - `front`: the epoch and the key that leave first, or `nothing`.
//! - `rows`, `look` and `stripes` (`standing.rt`) ask for the newest rows, and `durable-rows`, `durable-look` and
//!   `durable-stripes` for those of the tables.

ghost use Rattle.std.specs.Prelude.{◌≡◌, ◌<◌};

use crate::changes::changes_of;
use crate::shown::push_key;
use crate::standing::say_standing;
use crate::tables::push_size;
use crate::told::is_bare;
use case_files::Statement;
use oz_cache::Cached;
use oz_epochs::Steps;
use oz_fields::OutOfMemory;
use oz_rows::Change;
use std::alloc::Global;
use std::marker::Brand;
use std::sync::ledger::{Blank, Ledger};

/// Enters changes under the next epoch.
fn enter_next(
    alloc: Global,
    cached: &mut Cached,
    changes: Vec<Change>,
) -> Result<bool, OutOfMemory> {
    let epoch = cached.last_epoch();
    let prepared = cached.prepare(alloc, changes)?;
    if epoch >= 1 << 62 {
        return Ok(false);
    }
    cached.enter(epoch + 1, prepared);
    Ok(true)
}

/// Enters the changes of a block, and says whether they can be read.
fn enter(
    alloc: Global,
    cached: &mut Cached,
    block: &[String],
    came: &mut String,
) -> Result<bool, OutOfMemory> {
    match changes_of(alloc, block, came)? {
        Some(changes) => enter_next(alloc, cached, changes),
        None => Ok(false),
    }
}

/// The same, one after another.
fn enter_each(
    alloc: Global,
    cached: &mut Cached,
    block: &[String],
    came: &mut String,
) -> Result<bool, OutOfMemory> {
    for line in block.chunks(1) {
        if !enter(alloc, cached, line, came)? {
            return Ok(false);
        }
    }
    Ok(true)
}

fn bring_down<L: Ledger>(cached: &mut Cached, epoch: u64, blank: Blank)
    requires name { blank.name ≡ L.name }
    requires parts { blank.parts ≡ L.parts }
    requires some { 0 < L.parts }
{
    let mut steps = Steps::<L>::start(blank);
    cached.flushed(epoch, &mut steps);
}

/// Moves what was entered up to an epoch down into the tables.
fn flush(cached: &mut Cached, epoch: u64) {
    bring_down::<Brand>(cached, epoch, Blank::new(1));
}

fn say_front(cached: &Cached, came: &mut String) -> Result<(), OutOfMemory> {
    match cached.epochs().front() {
        Some((epoch, key)) => {
            write!(came, "{epoch} ")?;
            push_key(came, key)?;
            came.push('\n')
        }
        None => came.push_str("nothing\n"),
    }
}

/// Adds what comes of a statement that only asks, and says whether it can be read.
fn say_asked(
    alloc: Global,
    cached: &Cached,
    statement: &Statement,
    came: &mut String,
) -> Result<bool, OutOfMemory> {
    match statement.word(0) {
        "size" => {
            write!(came, "epoch {}, ", cached.last_epoch())?;
            push_size(came, cached.durable())?;
            Ok(is_bare(&statement.block))
        }
        "front" => {
            say_front(cached, came)?;
            Ok(is_bare(&statement.block))
        }
        verb => match verb.strip_prefix("durable-") {
            Some(verb) => say_standing(alloc, cached.durable(), verb, statement, came),
            None => say_standing(alloc, cached, verb, statement, came),
        },
    }
}

/// Adds what comes of a statement, and says whether it can be read.
pub fn say_of_cache(
    alloc: Global,
    cached: &mut Cached,
    statement: &Statement,
    said: &str,
    came: &mut String,
) -> Result<bool, OutOfMemory> {
    match statement.word(0) {
        "enter" => enter(alloc, cached, &statement.block, came),
        "enter-each" => enter_each(alloc, cached, &statement.block, came),
        "flush" => match said.parse::<u64>() {
            Ok(epoch) => {
                flush(cached, epoch);
                Ok(is_bare(&statement.block))
            }
            Err(_) => Ok(false),
        },
        _ => say_asked(alloc, cached, statement, came),
    }
}
