//! Whether the log of deleted blocks may go on.

ghost use Rattle.std.specs.Prelude.{◌≡◌, ◌↔◌, IsTrue, IfOk, All};
ghost use Rattle.oz_core.specs.Law.{IsPurged, LogIsEnabled, applies, AckDelIsEnabled, RetireIsEnabled};
ghost use Rattle.oz_core.specs.Stories.{has_event};
ghost use Rattle.oz_law.specs.Words.{purges};

use crate::log::{has_block, last_txn};
use crate::manager::halt_of;
use crate::scm::{acknowledgers, is_retired};
use crate::seats::SCM_SEAT;
use oz_core::{Event, EventKind, Node, Opening};
use oz_dellog::MOST_LOCALS;
use oz_fields::{Block, OutOfMemory};
use std::alloc::Global;

fn purges(block: Block, kind: &EventKind) -> bool
    ensures { result ≡ purges block kind.now }
{
    match kind {
        EventKind::PurgeAsk { blocks } => has_block(blocks.items(), block),
        _ => false,
    }
}

fn has_purged(block: Block, story: &[Event]) -> bool
    ensures { result ≡ has_event (purges block) story.now }
{
    story.iter().any(|event| purges(block, &event.kind))
}

fn is_purged(story: &[Event], block: Block) -> bool
    ensures { IsTrue result ↔ IsPurged story.now block }
{
    has_purged(block, story)
}

fn are_purged(story: &[Event], container: u64, locals: &[u64]) -> bool
    ensures { IsTrue result
        ↔ All (λ local. IsPurged story.now (record { container = container; local = local })) locals.now }
{
    locals.iter().all(|local| {
        let block = Block {
            container,
            local: *local,
        };
        is_purged(story, block)
    })
}

/// Whether the transaction of this number may be logged, with these local ids of the container.
pub fn log_is_enabled(
    opening: &Opening,
    story: &[Event],
    seat: u16,
    number: u64,
    container: u64,
    locals: &[u64],
) -> bool
    ensures { IsTrue result ↔ LogIsEnabled opening.now story.now seat number container locals.now }
{
    seat == SCM_SEAT
        && halt_of(Node::Scm, story).is_none()
        && number.checked_sub(1) == Some(last_txn(opening, story))
        && locals.len() >= 1
        && locals.len() <= MOST_LOCALS
        && are_purged(story, container, locals)
}

fn applies(dn: u8, number: u64, kind: &EventKind) -> bool
    ensures { result ≡ applies dn number kind.now }
{
    match kind {
        EventKind::Delete { dn: other, txn, .. } => *other == dn && *txn == number,
        _ => false,
    }
}

fn is_applied(dn: u8, number: u64, story: &[Event]) -> bool
    ensures { result ≡ has_event (applies dn number) story.now }
{
    story.iter().any(|event| applies(dn, number, &event.kind))
}

/// Whether it may be noted that the datanode has applied the transaction.
pub fn ack_del_is_enabled(
    alloc: Global,
    opening: &Opening,
    story: &[Event],
    seat: u16,
    dn: u8,
    number: u64,
) -> Result<bool, OutOfMemory>
    ensures { IfOk result (λ is. IsTrue is ↔ AckDelIsEnabled opening.now story.now seat dn number) }
{
    let given = acknowledgers(alloc, opening, story, number)?;
    Ok(
        seat == SCM_SEAT
            && halt_of(Node::Scm, story).is_none()
            && is_applied(dn, number, story)
            && !given.contains(&dn),
    )
}

/// Whether the transaction may go out of the log.
pub fn retire_is_enabled(
    alloc: Global,
    opening: &Opening,
    story: &[Event],
    seat: u16,
    number: u64,
) -> Result<bool, OutOfMemory>
    ensures { IfOk result (λ is. IsTrue is ↔ RetireIsEnabled opening.now story.now seat number) }
{
    let given = acknowledgers(alloc, opening, story, number)?;
    Ok(
        seat == SCM_SEAT
            && halt_of(Node::Scm, story).is_none()
            && given.len() >= 3
            && !is_retired(number, story),
    )
}
