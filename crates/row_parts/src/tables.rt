//! Cases of `tables`, which begin with tables that have no rows.
//!
//! - `build`: the tables are those that the bodies of the block make, a line each; a line that begins with `+ ` goes on with the body
//!   above it. It gives `index INDEX, COUNT rows`, or `body BODY is damaged at PLACE`, both counted from 0, and then the tables stay.
//! - `apply`: the changes of the block, a line each (`changes.rt`), under the next index.
//! - `size`: the tables' last index, and how many rows they have.
//! - `part PART VOLUME BUCKET`: how many rows a part has: `all-keys`, `buckets`, `keys`, `sessions`, `deleted`, `snapshots`,
//!   `snapshot-keys` or `renamed`.
//! - `rows`, `look` and `stripes` (`standing.rt`).

use crate::changes::{changes_of, name_at};
use crate::standing::say_standing;
use crate::told::is_bare;
use case_files::{Statement, bytes_of};
use oz_effects::{Part, first_key, part_rows};
use oz_fields::{List, OutOfMemory};
use oz_journal::Body;
use oz_rows::Change;
use oz_tables::{BuildFault, Tables, build};
use std::alloc::Global;

/// Adds a line to the bodies' texts.
fn add_text(alloc: Global, texts: &mut Vec<String>, line: &str) -> Result<(), OutOfMemory> {
    if let (Some(more), Some(last)) = (line.strip_prefix("+ "), texts.last_mut()) {
        last.push(' ')?;
        return last.push_str(more);
    }
    texts.push(String::from_str(alloc, line)?)?;
    Ok(())
}

/// The texts of the bodies of a block.
fn texts_of(alloc: Global, block: &[String]) -> Result<Vec<String>, OutOfMemory> {
    let mut texts = Vec::new(alloc);
    for line in block {
        add_text(alloc, &mut texts, line.as_str())?;
    }
    Ok(texts)
}

/// The bodies of these texts, and nothing where one isn't of bytes.
fn bodies_of(alloc: Global, texts: &[String]) -> Result<Option<Vec<Body>>, OutOfMemory> {
    let mut bodies = Vec::new(alloc);
    for text in texts {
        let Some(bytes) = bytes_of(alloc, text.as_str())? else {
            return Ok(None);
        };
        bodies.push(Body {
            at: 0,
            bytes: List::of(bytes),
        })?;
    }
    Ok(Some(bodies))
}

/// Adds the last index of tables, and how many rows they have.
pub fn push_size(came: &mut String, tables: &Tables) -> Result<(), OutOfMemory> {
    write!(
        came,
        "index {}, {} rows\n",
        tables.last_index(),
        tables.len()
    )
}

/// Builds tables, and adds what comes of it.
fn build_of(
    alloc: Global,
    tables: &mut Tables,
    bodies: &[Body],
    came: &mut String,
) -> Result<(), OutOfMemory> {
    match build(alloc, bodies) {
        Ok(built) => {
            *tables = built;
            push_size(came, tables)
        }
        Err(BuildFault::Damaged { body, at }) => {
            write!(came, "body {body} is damaged at {at}\n")
        }
        Err(BuildFault::OutOfMemory) => Err(OutOfMemory),
    }
}

fn say_build(
    alloc: Global,
    tables: &mut Tables,
    block: &[String],
    came: &mut String,
) -> Result<bool, OutOfMemory> {
    let texts = texts_of(alloc, block)?;
    let Some(bodies) = bodies_of(alloc, &texts)? else {
        return Ok(false);
    };
    build_of(alloc, tables, &bodies, came)?;
    Ok(true)
}

/// Applies changes under the next index.
fn apply_next(
    alloc: Global,
    tables: &mut Tables,
    changes: Vec<Change>,
) -> Result<bool, OutOfMemory> {
    let index = tables.last_index();
    if index == u64::MAX {
        return Ok(false);
    }
    tables.reserve(alloc, changes.len())?;
    tables.apply(index + 1, changes);
    Ok(true)
}

fn part_of(word: &str) -> Option<Part> {
    match word {
        "all-keys" => Some(Part::AllKeys),
        "buckets" => Some(Part::Buckets),
        "keys" => Some(Part::Keys),
        "sessions" => Some(Part::Sessions),
        "deleted" => Some(Part::Deleted),
        "snapshots" => Some(Part::Snapshots),
        "snapshot-keys" => Some(Part::SnapshotKeys),
        "renamed" => Some(Part::Renamed),
        _ => None,
    }
}

fn say_part(
    alloc: Global,
    tables: &Tables,
    call: &Statement,
    came: &mut String,
) -> Result<bool, OutOfMemory> {
    let Some(part) = part_of(call.word(1)) else {
        return Ok(false);
    };
    if !matches!(call.word(4), "" | "=>") {
        return Ok(false);
    }
    let volume = name_at(alloc, call, 2)?;
    let bucket = name_at(alloc, call, 3)?;
    let start = first_key(alloc, part, &volume, &bucket)?;
    let found = part_rows(alloc, tables, part, &volume, &bucket, &start)?;
    write!(came, "{} rows\n", found.len())?;
    Ok(true)
}

/// Adds what comes of a statement, and says whether it can be read.
pub fn say_of_tables(
    alloc: Global,
    tables: &mut Tables,
    statement: &Statement,
    came: &mut String,
) -> Result<bool, OutOfMemory> {
    let block = &statement.block;
    match statement.word(0) {
        "build" => say_build(alloc, tables, block, came),
        "apply" => match changes_of(alloc, block, came)? {
            Some(changes) => apply_next(alloc, tables, changes),
            None => Ok(false),
        },
        "size" => {
            push_size(came, tables)?;
            Ok(is_bare(block))
        }
        "part" => Ok(say_part(alloc, tables, statement, came)? && is_bare(block)),
        verb => say_standing(alloc, tables, verb, statement, came),
    }
}
