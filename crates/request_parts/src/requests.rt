//! Cases of requests: what the plain program of one thread replies to each, and what is decided of it over rows.
//!
//! - `ask` and a block of requests, each with what it has to come to behind ` = `: a reply, `not_yet` or `no_block`; with
//!   nothing behind it a request may not be refused. A line with two further blanks says the batch of the request above it.
//!   Afterwards the rows have to be those of the namespace.
//! - `plain` and a block of requests that the plain program alone is asked.
//! - `rows` and a block of all rows, in the order of their keys.
//! - `reach` and the blocks that keys, sessions and snapshots reach.
//! - `flush`: what was entered goes down to the tables, and the sweep has to find there what a walk finds.
//! - `stripes NUMBER`: so many numbers were drawn in each stripe.
//! - `full VOLUME BUCKETS KEYS SESSIONS`: a volume with so many buckets, the first of which has so many keys and sessions.
//! - `drawn` and `among`: requests that are drawn.
//! - `reclaimable` and `chain-work`: what is to be done next with what was deleted.

use crate::asked::{ask_all, tell_all};
use crate::drawn::drawn;
use crate::full::give_full;
use crate::given::give_stripes;
use crate::reclaiming::{are_reclaimable, is_chain_work};
use crate::rows::{are_wanted, row_lines};
use crate::said::{add_blocks, cannot};
use crate::store::{Store, flush};
use crate::sweeping::sweep;
use crate::wrong::Wrong;
use case_files::{Judged, Statement};
use oz_model::reach;
use std::alloc::{AllocError, Global};

/// Judges a case of requests.
pub fn judge_requests(alloc: Global, case: &[Statement]) -> Result<Judged, AllocError> {
    let mut store = Store::new(alloc);
    let went = go(alloc, case, &mut store);
    let mut differs = Vec::new(alloc);
    push_wrong(alloc, &mut differs, went, store.why.as_str())?;
    Ok(Judged {
        differs,
        is_last: false,
    })
}

/// Tells why a case doesn't hold.
fn push_wrong(
    alloc: Global,
    differs: &mut Vec<String>,
    went: Result<(), Wrong>,
    why: &str,
) -> Result<(), AllocError> {
    let told = match went {
        Ok(()) => return Ok(()),
        Err(Wrong::Line) => why,
        Err(Wrong::OutOfMemory) => "a call answered that memory ran out",
    };
    differs.push(String::from_str(alloc, told)?)?;
    Ok(())
}

/// Goes through the statements of a case. Where one doesn't hold, the store has its line, and why.
fn go(alloc: Global, case: &[Statement], store: &mut Store) -> Result<(), Wrong> {
    for statement in case.iter().skip(1) {
        store.why.clear();
        write!(store.why, "line {}: ", statement.line)?;
        step(alloc, case, store, statement)?;
    }
    Ok(())
}

fn step(
    alloc: Global,
    case: &[Statement],
    store: &mut Store,
    statement: &Statement,
) -> Result<(), Wrong> {
    match statement.word(0) {
        "ask" => ask_all(alloc, store, &statement.block),
        "plain" => tell_all(alloc, store, &statement.block),
        "rows" => are_rows(alloc, store, &statement.block),
        "reach" => is_reached(alloc, store, statement.word(1)),
        "stripes" => give_stripes(alloc, store, statement),
        "full" => give_full(alloc, store, statement),
        "drawn" => drawn(alloc, case, store, statement),
        "flush" => {
            flush(&mut store.cached);
            sweep(alloc, store)
        }
        "reclaimable" => are_reclaimable(alloc, store, statement),
        "chain-work" => is_chain_work(alloc, store, statement),
        "among" => Ok(()),
        _ => cannot(&mut store.why, "no statement begins so"),
    }
}

/// The rows are these.
fn are_rows(alloc: Global, store: &mut Store, wanted: &[String]) -> Result<(), Wrong> {
    let rows = row_lines(alloc, &store.cached)?;
    are_wanted(&rows.lines, wanted, &mut store.why)
}

/// The blocks that are reached are these.
fn is_reached(alloc: Global, store: &mut Store, wanted: &str) -> Result<(), Wrong> {
    let mut reached = String::new(alloc);
    add_blocks(&mut reached, &reach(alloc, &store.namespace)?)?;
    if reached.as_str() == wanted {
        return Ok(());
    }
    write!(
        store.why,
        "wanted the blocks `{wanted}`, reached are `{reached}`"
    )?;
    Err(Wrong::Line)
}
