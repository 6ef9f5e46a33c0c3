//! What the bodies of a journal make.

ghost use Rattle.std.specs.Prelude.{◌≡◌, ℕ, IfOk, IfErr, Err};
ghost use Rattle.oz_journal.specs.Body.{bodies_in};
ghost use Rattle.oz_scm.specs.grants.Build.{Makes, FailsAt, body_at};
ghost use Rattle.oz_scm.specs.grants.Made.{MayFollow, MayGrant, MayStep, after_entry, after_grant, after_step};
ghost use Rattle.oz_scm.specs.grants.Made.{MayLog, MayAck, MayRetire, after_log, after_ack, after_retirement};
ghost use Rattle.oz_scm.specs.grants.Steps.{IsStep, IsWhole, made_in};

use crate::grants::containers::Containers;
use crate::grants::entry::{Entry, Grant};
use crate::grants::fault::{BuildFault, ReadFault};
use crate::grants::reading::entry_of;
use oz_container::Event;
use oz_dellog::Txn;
use oz_fields::OutOfMemory;
use oz_journal::Body;
use std::alloc::Global;

/// What the bodies of the journal make, one after another; None where there is none.
pub fn build(alloc: Global, bodies: &[Body]) -> Result<Option<Containers>, BuildFault>
    ensures made { IfOk result (λ found. Makes (bodies_in bodies.now) (made_in found)) }
    ensures damaged { IfErr result (λ fault. (body at : ℕ) → fault ≡ BuildFault.Damaged body at
        → FailsAt (bodies_in bodies.now) body at) }
{
    let mut found = None;
    for (count, body) in bodies.iter().enumerate() {
        found = match follow(alloc, found, count, body.bytes.items()) {
            Ok(after) => after,
            Err(fault) => return Err(fault),
        };
    }
    Ok(found)
}

/// Applies a body to what those before it made.
fn follow(
    alloc: Global,
    found: Option<Containers>,
    count: usize,
    bytes: &[u8],
) -> Result<Option<Containers>, BuildFault>
    ensures next { IfOk result (λ after. IsStep (made_in found) bytes.now (made_in after)) }
    ensures damaged { IfErr result (λ fault. (body at : ℕ) → fault ≡ BuildFault.Damaged body at
        → (body ≡ count) × (body_at (made_in found) bytes.now ≡ Err at)) }
{
    let entry = match whole_entry(alloc, &found, count, bytes) {
        Ok(entry) => entry,
        Err(fault) => return Err(fault),
    };
    match apply(alloc, found, entry) {
        Ok(after) => Ok(after),
        Err(_) => Err(BuildFault::OutOfMemory),
    }
}

/// The entry that all of the bytes spell, or the place of the first bad field.
fn whole_entry(
    alloc: Global,
    found: &Option<Containers>,
    count: usize,
    bytes: &[u8],
) -> Result<Entry, BuildFault>
    ensures { IsWhole count result (body_at (made_in found.now) bytes.now) }
{
    match entry_of(alloc, found, bytes) {
        Ok((entry, rest)) if rest.is_empty() => Ok(entry),
        Ok((_, rest)) => Err(BuildFault::Damaged {
            body: count,
            at: bytes.len().saturating_sub(rest.len()),
        }),
        Err(ReadFault::Left(left)) => Err(BuildFault::Damaged {
            body: count,
            at: bytes.len().saturating_sub(left),
        }),
        Err(ReadFault::OutOfMemory) => Err(BuildFault::OutOfMemory),
    }
}

/// Applies an entry that may follow.
fn apply(
    alloc: Global,
    found: Option<Containers>,
    entry: Entry,
) -> Result<Option<Containers>, OutOfMemory>
    requires { MayFollow (made_in found) entry }
    ensures { IfOk result (λ after. made_in after ≡ after_entry entry (made_in found)) }
{
    match (entry, found) {
        (Entry::Nodes { count }, None) => Ok(Some(Containers::new(alloc, count))),
        (Entry::Granted { grant, .. }, Some(containers)) => {
            let after = with_grant(alloc, containers, &grant)?;
            Ok(Some(after))
        }
        (Entry::Stepped { container, event }, Some(containers)) => {
            Ok(Some(with_step(containers, container, event)))
        }
        (Entry::Logged { txn }, Some(containers)) => {
            let after = with_log(alloc, containers, txn)?;
            Ok(Some(after))
        }
        (Entry::Acked { number, dn }, Some(containers)) => Ok(Some(with_ack(
            containers, number, dn,
        ))),
        (Entry::Retired { number }, Some(containers)) => Ok(Some(with_retirement(
            containers, number,
        ))),
        (Entry::Nodes { .. }, Some(containers)) => Ok(Some(containers)),
        (
            Entry::Granted { .. }
            | Entry::Stepped { .. }
            | Entry::Logged { .. }
            | Entry::Acked { .. }
            | Entry::Retired { .. },
            None,
        ) => Ok(None),
    }
}

fn with_grant(
    alloc: Global,
    containers: Containers,
    grant: &Grant,
) -> Result<Containers, OutOfMemory>
    requires { MayGrant containers.made grant.now }
    ensures { IfOk result (λ after. after.made ≡ after_grant grant.now containers.made) }
{
    let mut containers = containers;
    containers.reserve(alloc)?;
    containers.grant(grant);
    Ok(containers)
}

fn with_step(containers: Containers, number: u64, event: Event) -> Containers
    requires { MayStep containers.made number event }
    ensures { result.made ≡ after_step number event containers.made }
{
    let mut containers = containers;
    containers.step(number, event);
    containers
}

fn with_log(alloc: Global, containers: Containers, txn: Txn) -> Result<Containers, OutOfMemory>
    requires { MayLog containers.made txn }
    ensures { IfOk result (λ after. after.made ≡ after_log txn containers.made) }
{
    let mut containers = containers;
    containers.log_txn(alloc, txn)?;
    Ok(containers)
}

fn with_ack(containers: Containers, number: u64, dn: u8) -> Containers
    requires { MayAck containers.made number dn }
    ensures { result.made ≡ after_ack number dn containers.made }
{
    let mut containers = containers;
    containers.ack(number, dn);
    containers
}

fn with_retirement(containers: Containers, number: u64) -> Containers
    requires { MayRetire containers.made number }
    ensures { result.made ≡ after_retirement number containers.made }
{
    let mut containers = containers;
    containers.retire(number);
    containers
}
