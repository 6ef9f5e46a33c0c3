//! What a story makes of the manager of containers: who is up, and its log of deleted blocks.

ghost use Rattle.std.specs.Prelude.{◌≡◌, IfOk};
ghost use Rattle.oz_core.specs.Scm.{up_or_down, is_up, retires, is_retired, acknowledger, acknowledged_at_opening};
ghost use Rattle.oz_core.specs.Scm.{acknowledgers};

use oz_core::{Event, EventKind, Opening};
use oz_fields::OutOfMemory;
use std::alloc::Global;

fn up_or_down(dn: usize, kind: &EventKind) -> Option<bool>
    ensures { result ≡ up_or_down dn kind.now }
{
    match kind {
        EventKind::Up { dn: other } if usize::from(*other) == dn => Some(true),
        EventKind::Down { dn: other } if usize::from(*other) == dn => Some(false),
        _ => None,
    }
}

/// Whether the datanode is up by the last that was said of it.
pub fn is_up(dn: usize, story: &[Event]) -> bool
    ensures { result ≡ is_up dn story.now }
{
    let mut up = true;
    for event in story {
        up = up_or_down(dn, &event.kind).unwrap_or(up);
    }
    up
}

fn retires(number: u64, kind: &EventKind) -> bool
    ensures { result ≡ retires number kind.now }
{
    match kind {
        EventKind::Retire { txn } => *txn == number,
        _ => false,
    }
}

/// Whether the transaction is out of the log.
pub fn is_retired(number: u64, story: &[Event]) -> bool
    ensures { result ≡ is_retired number story.now }
{
    story.iter().any(|event| retires(number, &event.kind))
}

fn acknowledger(number: u64, kind: &EventKind) -> Option<u8>
    ensures { result ≡ acknowledger number kind.now }
{
    match kind {
        EventKind::AckDel { dn, txn } if *txn == number => Some(*dn),
        _ => None,
    }
}

fn acknowledged_at_opening(
    alloc: Global,
    opening: &Opening,
    number: u64,
) -> Result<Vec<u8>, OutOfMemory>
    ensures { IfOk result (λ dns. dns.items ≡ acknowledged_at_opening opening.now number) }
{
    let mut dns = Vec::new(alloc);
    for unretired in opening.unretired.items() {
        if unretired.txn.number == number {
            dns.extend_from_slice(unretired.acknowledgers.items())?;
        }
    }
    Ok(dns)
}

/// The datanodes that acknowledged the transaction, in order.
pub fn acknowledgers(
    alloc: Global,
    opening: &Opening,
    story: &[Event],
    number: u64,
) -> Result<Vec<u8>, OutOfMemory>
    ensures { IfOk result (λ dns. dns.items ≡ acknowledgers opening.now story.now number) }
{
    let mut dns = acknowledged_at_opening(alloc, opening, number)?;
    for event in story {
        if let Some(dn) = acknowledger(number, &event.kind) {
            dns.push(dn)?;
        }
    }
    Ok(dns)
}
