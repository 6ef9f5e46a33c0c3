//! What is to be done next with what was deleted, over the rows of a case of requests.
//!
//! - `reclaimable MOST BLOCKS`: the deleted rows of the tables that may go, at most so many, where these blocks are pinned, `-` for
//!   none. Its block has their keys in order, a line each: `VOLUME BUCKET OWNER KEY LOCAL`.
//! - `chain-work WORDS`: the request by which the first of the deleted snapshots is worked off, or `nothing`.

ghost use Rattle.std.specs.Prelude.{◌≤◌, IfSome};
ghost use Rattle.oz_reclaim.specs.declared.finding.TheConstants.{MOST_PURGED as MOST};

use crate::lines::{Place, add_deleted_key};
use crate::rows::first_other;
use crate::said::cannot;
use crate::store::Store;
use crate::wrong::Wrong;
use case_files::Statement;
use oz_cache::Cached;
use oz_fields::Block;
use oz_reclaim::{MOST_PURGED, chain_work, reclaimable};
use oz_requests::Request;
use oz_rows::RowKey;
use std::alloc::{AllocError, Global};
use story_parts::Words;

/// The deleted rows that may go are these.
pub fn are_reclaimable(
    alloc: Global,
    store: &mut Store,
    statement: &Statement,
) -> Result<(), Wrong> {
    let Some(most) = most_in(statement) else {
        return cannot(
            &mut store.why,
            "at least one row is asked for, and no more than go at a time",
        );
    };
    let pinned = blocks_in(alloc, statement.word(2), &mut store.why)?;
    let found = reclaimable(alloc, store.cached.durable(), &pinned, most)?;
    are_wanted_to_go(alloc, &found, &statement.block, &mut store.why)
}

/// The rows that may go are these.
fn are_wanted_to_go(
    alloc: Global,
    found: &[RowKey],
    wanted: &[String],
    why: &mut String,
) -> Result<(), Wrong> {
    let mut lines = Vec::new(alloc);
    for key in found {
        push_key(alloc, &mut lines, key)?;
    }
    match first_other(&lines, wanted) {
        None => Ok(()),
        Some((row, wanted)) => {
            write!(why, "wanted the row `{wanted}`, `{row}` may go")?;
            Err(Wrong::Line)
        }
    }
}

/// Adds the line of a deleted row's key.
pub fn push_key(alloc: Global, lines: &mut Vec<String>, key: &RowKey) -> Result<(), AllocError> {
    let mut line = String::new(alloc);
    add_deleted_key(alloc, &mut line, key)?;
    lines.push(line)?;
    Ok(())
}

fn most_in(statement: &Statement) -> Option<u16>
    ensures least { IfSome result (λ most. 1 ≤ most) }
    ensures most { IfSome result (λ most. most ≤ MOST) }
{
    let most = u16::try_from(statement.number(1)?).ok()?;
    (1 <= most && most <= MOST_PURGED).then_some(most)
}

fn blocks_in(alloc: Global, said: &str, why: &mut String) -> Result<Vec<Block>, Wrong> {
    let mut blocks = Vec::new(alloc);
    if said == "-" {
        return Ok(blocks);
    }
    for word in said.split(',') {
        let mut words = Words::new(word, ' ');
        blocks.push(words.block())?;
        if !words.are_read() {
            write!(why, "no block is written so: `{word}`")?;
            return Err(Wrong::Line);
        }
    }
    Ok(blocks)
}

/// The request that is due of deleted snapshots is this.
pub fn is_chain_work(alloc: Global, store: &mut Store, statement: &Statement) -> Result<(), Wrong> {
    let wanted = statement.words_from(alloc, 1)?;
    let mut came = String::new(alloc);
    add_work(alloc, &mut came, &store.cached)?;
    if came == wanted {
        return Ok(());
    }
    write!(store.why, "wanted `{wanted}`, there is `{came}` to be done")?;
    Err(Wrong::Line)
}

/// Adds the request that is due of deleted snapshots, or `nothing`.
fn add_work(alloc: Global, text: &mut String, cached: &Cached) -> Result<(), AllocError> {
    match chain_work(alloc, cached)? {
        None => text.push_str("nothing"),
        Some(request) => add_request(alloc, text, &request),
    }
}

fn add_request(alloc: Global, text: &mut String, request: &Request) -> Result<(), AllocError> {
    match request {
        Request::MoveDeleted {
            volume,
            bucket,
            number,
            to,
        } => {
            text.push_str("MoveDeleted ")?;
            Place { volume, bucket }.add(alloc, text)?;
            write!(text, " {number} {to}")
        }
        Request::PurgeSnapshot {
            volume,
            bucket,
            number,
        } => {
            text.push_str("PurgeSnapshot ")?;
            Place { volume, bucket }.add(alloc, text)?;
            write!(text, " {number}")
        }
        _ => write!(text, "{request:?}"),
    }
}
