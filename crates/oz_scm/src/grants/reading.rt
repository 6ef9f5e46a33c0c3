//! An entry, read over what those before it made. Each call gives what it read and the bytes behind it.

ghost use Rattle.std.specs.Prelude.{◌≡◌, ◌+◌, length, true, []};
ghost use Rattle.oz_dellog.specs.Log.{is_done};
ghost use Rattle.oz_fields.specs.Number.{u8_at, u16_at, u32_at, u64_at};
ghost use Rattle.oz_scm.specs.grants.Made.{container_at, is_node_count as node_count_rule, is_stripe, is_old_or_next};
ghost use Rattle.oz_scm.specs.grants.Made.{is_on, is_next_id, is_whole, is_made};
ghost use Rattle.oz_scm.specs.grants.Reading.{field, nodes_at, ids_at, granted_at, entry_at};
ghost use Rattle.oz_scm.specs.grants.Made.{is_next_txn, is_local_count, is_unretired, may_ack, log_of};
ghost use Rattle.oz_scm.specs.grants.Reading.{event_of, is_event_for, event_at, stepped_at};
ghost use Rattle.oz_scm.specs.grants.Reading.{numbers_at, locals_at, txn_at, logged_at, acked_at, retired_at};
ghost use Rattle.oz_scm.specs.grants.Steps.{ReadsAs, made_in};

use crate::grants::container::Container;
use crate::grants::containers::{Containers, are_ids_spent, stepped};
use crate::grants::entry::{Entry, Grant};
use crate::grants::fault::ReadFault;
use crate::grants::limits::GRANTED_IDS;
use oz_container::Event;
use oz_dellog::{MOST_LOCALS, Txn};
use oz_fields::{List, Reader};
use oz_names::STRIPES;
use oz_nodes::{FEWEST_NODES, MOST_NODES};
use std::alloc::Global;

/// The entry that the front of the bytes spells, and the bytes behind it.
#[tactic(auto, unfolding(crate::specs::grants::Reading::entry_at))]
pub(crate) fn entry_of<'b>(
    alloc: Global,
    found: &Option<Containers>,
    bytes: &'b [u8],
) -> Result<(Entry, &'b [u8]), ReadFault>
    ensures { ReadsAs (λ x. (x.0, x.1.now)) result (entry_at (made_in found.now) bytes.now) }
{
    let [tag, rest @ ..] = bytes else {
        return Err(ReadFault::Left(0));
    };
    match *tag {
        1 => nodes_of(found, rest),
        2 => granted_of(found, rest),
        3 => stepped_of(found, rest),
        4 => logged_of(alloc, found, rest),
        5 => acked_of(found, rest),
        6 => retired_of(found, rest),
        _ => Err(ReadFault::Left(bytes.len())),
    }
}

/// How many datanodes there are, behind the tag.
#[tactic(auto, unfolding(crate::specs::grants::Reading::nodes_at))]
fn nodes_of<'b>(found: &Option<Containers>, bytes: &'b [u8]) -> Result<(Entry, &'b [u8]), ReadFault>
    ensures { ReadsAs (λ x. (x.0, x.1.now)) result (nodes_at (made_in found.now) (length bytes.now + 1) bytes.now) }
{
    if found.is_some() {
        return Err(ReadFault::Left(bytes.len() + 1));
    }
    let (count, rest) = node_count_of(bytes)?;
    Ok((Entry::Nodes { count }, rest))
}

fn node_count_of(bytes: &[u8]) -> Result<(u8, &[u8]), ReadFault>
    ensures { ReadsAs (λ x. (x.0, x.1.now)) result (field u8_at node_count_rule bytes.now) }
{
    let mut reader = Reader::new(bytes);
    match reader.u8() {
        Some(count) if count >= FEWEST_NODES && count as usize <= MOST_NODES => {
            Ok((count, &bytes[reader.at()..]))
        }
        _ => Err(ReadFault::Left(bytes.len())),
    }
}

/// A grant, behind the tag.
#[tactic(auto, unfolding(crate::specs::grants::Reading::granted_at))]
fn granted_of<'b>(
    found: &Option<Containers>,
    bytes: &'b [u8],
) -> Result<(Entry, &'b [u8]), ReadFault>
    ensures { ReadsAs (λ x. (x.0, x.1.now)) result (granted_at (made_in found.now) (length bytes.now + 1) bytes.now) }
{
    let Some(containers) = found else {
        return Err(ReadFault::Left(bytes.len() + 1));
    };
    let (stripe, rest) = stripe_of(bytes)?;
    let (grant, rest) = ids_of(containers, rest)?;
    Ok((Entry::Granted { stripe, grant }, rest))
}

fn stripe_of(bytes: &[u8]) -> Result<(u8, &[u8]), ReadFault>
    ensures { ReadsAs (λ x. (x.0, x.1.now)) result (field u8_at is_stripe bytes.now) }
{
    let mut reader = Reader::new(bytes);
    match reader.u8() {
        Some(stripe) if stripe < STRIPES => Ok((stripe, &bytes[reader.at()..])),
        _ => Err(ReadFault::Left(bytes.len())),
    }
}

#[tactic(auto, unfolding(crate::specs::grants::Reading::ids_at))]
fn ids_of<'b>(containers: &Containers, bytes: &'b [u8]) -> Result<(Grant, &'b [u8]), ReadFault>
    ensures { ReadsAs (λ x. (x.0, x.1.now)) result (ids_at containers.now.made bytes.now) }
{
    let (container, rest) = number_of(containers, bytes)?;
    let (pipeline, rest) = pipeline_of(containers, container, rest)?;
    let (first, rest) = first_of(containers, rest)?;
    let (count, rest) = count_of(rest)?;
    Ok((
        Grant {
            container,
            pipeline,
            first,
            count,
        },
        rest,
    ))
}

/// The number of a container that is there, or of the next.
fn number_of<'b>(containers: &Containers, bytes: &'b [u8]) -> Result<(u64, &'b [u8]), ReadFault>
    ensures { ReadsAs (λ x. (x.0, x.1.now)) result (field u64_at (is_old_or_next containers.now.made.containers) bytes.now) }
{
    let mut reader = Reader::new(bytes);
    match reader.u64() {
        Some(number) if number >= 1 && number <= containers.next_number() => {
            Ok((number, &bytes[reader.at()..]))
        }
        _ => Err(ReadFault::Left(bytes.len())),
    }
}

fn pipeline_of<'b>(
    containers: &Containers,
    number: u64,
    bytes: &'b [u8],
) -> Result<(u8, &'b [u8]), ReadFault>
    ensures { ReadsAs (λ x. (x.0, x.1.now)) result
        (field u8_at (is_on containers.now.made.nodes (container_at containers.now.made.containers number)) bytes.now) }
{
    let mut reader = Reader::new(bytes);
    match reader.u8() {
        Some(pipeline) if is_pipeline_of(containers, containers.get(number), pipeline) => {
            Ok((pipeline, &bytes[reader.at()..]))
        }
        _ => Err(ReadFault::Left(bytes.len())),
    }
}

fn is_pipeline_of(containers: &Containers, container: Option<Container>, pipeline: u8) -> bool
    ensures { result ≡ is_on containers.now.made.nodes container pipeline }
{
    match container {
        Some(container) => pipeline == container.pipeline,
        None => pipeline < containers.pipelines(),
    }
}

fn first_of<'b>(containers: &Containers, bytes: &'b [u8]) -> Result<(u64, &'b [u8]), ReadFault>
    ensures { ReadsAs (λ x. (x.0, x.1.now)) result (field u64_at (is_next_id containers.now.made.next_id) bytes.now) }
{
    let mut reader = Reader::new(bytes);
    match reader.u64() {
        Some(first) if first == containers.next_id() && !are_ids_spent(first) => {
            Ok((first, &bytes[reader.at()..]))
        }
        _ => Err(ReadFault::Left(bytes.len())),
    }
}

fn count_of(bytes: &[u8]) -> Result<(u32, &[u8]), ReadFault>
    ensures { ReadsAs (λ x. (x.0, x.1.now)) result (field u32_at is_whole bytes.now) }
{
    let mut reader = Reader::new(bytes);
    match reader.u32() {
        Some(count) if count == GRANTED_IDS => Ok((count, &bytes[reader.at()..])),
        _ => Err(ReadFault::Left(bytes.len())),
    }
}

/// A step of a container, behind the tag.
#[tactic(auto, unfolding(crate::specs::grants::Reading::stepped_at))]
fn stepped_of<'b>(
    found: &Option<Containers>,
    bytes: &'b [u8],
) -> Result<(Entry, &'b [u8]), ReadFault>
    ensures { ReadsAs (λ x. (x.0, x.1.now)) result (stepped_at (made_in found.now) (length bytes.now + 1) bytes.now) }
{
    let Some(containers) = found else {
        return Err(ReadFault::Left(bytes.len() + 1));
    };
    let (container, rest) = made_of(containers, bytes)?;
    let (event, rest) = event_read(containers.get(container), rest)?;
    Ok((Entry::Stepped { container, event }, rest))
}

/// The number of a container that is there.
fn made_of<'b>(containers: &Containers, bytes: &'b [u8]) -> Result<(u64, &'b [u8]), ReadFault>
    ensures { ReadsAs (λ x. (x.0, x.1.now)) result (field u64_at (is_made containers.now.made.containers) bytes.now) }
{
    let mut reader = Reader::new(bytes);
    match reader.u64() {
        Some(number) if number >= 1 && number < containers.next_number() => {
            Ok((number, &bytes[reader.at()..]))
        }
        _ => Err(ReadFault::Left(bytes.len())),
    }
}

/// An event that the container's state allows.
#[tactic(auto, unfolding(crate::specs::grants::Reading::event_at))]
fn event_read(container: Option<Container>, bytes: &[u8]) -> Result<(Event, &[u8]), ReadFault>
    ensures { ReadsAs (λ x. (x.0, x.1.now)) result (event_at container bytes.now) }
{
    let mut reader = Reader::new(bytes);
    match reader.u8() {
        Some(number) if is_event(container, number) => {
            Ok((event_numbered(number), &bytes[reader.at()..]))
        }
        _ => Err(ReadFault::Left(bytes.len())),
    }
}

fn is_event(container: Option<Container>, number: u8) -> bool
    ensures { result ≡ is_event_for container number }
{
    number >= 1 && number <= 6 && stepped(container, event_numbered(number)).is_some()
}

/// The event of a number from 1 to 6.
fn event_numbered(number: u8) -> Event
    ensures { result ≡ event_of number }
{
    match number {
        1 => Event::Finalize,
        2 => Event::QuasiClose,
        3 => Event::Close,
        4 => Event::ForceClose,
        5 => Event::Delete,
        _ => Event::Cleanup,
    }
}

/// A deletion that is logged, behind the tag.
#[tactic(auto, unfolding(crate::specs::grants::Reading::logged_at))]
fn logged_of<'b>(
    alloc: Global,
    found: &Option<Containers>,
    bytes: &'b [u8],
) -> Result<(Entry, &'b [u8]), ReadFault>
    ensures { ReadsAs (λ x. (x.0, x.1.now)) result (logged_at (made_in found.now) (length bytes.now + 1) bytes.now) }
{
    let Some(containers) = found else {
        return Err(ReadFault::Left(bytes.len() + 1));
    };
    let (txn, rest) = txn_of(alloc, containers, bytes)?;
    Ok((Entry::Logged { txn }, rest))
}

#[tactic(auto, unfolding(crate::specs::grants::Reading::txn_at))]
fn txn_of<'b>(
    alloc: Global,
    containers: &Containers,
    bytes: &'b [u8],
) -> Result<(Txn, &'b [u8]), ReadFault>
    ensures { ReadsAs (λ x. (x.0, x.1.now)) result (txn_at containers.now.made bytes.now) }
{
    let (number, rest) = next_txn_of(containers, bytes)?;
    let (container, rest) = made_of(containers, rest)?;
    let (locals, rest) = locals_of(alloc, rest)?;
    let locals = List::of(locals);
    Ok((
        Txn {
            number,
            container,
            locals,
        },
        rest,
    ))
}

/// The number of the next transaction.
fn next_txn_of<'b>(containers: &Containers, bytes: &'b [u8]) -> Result<(u64, &'b [u8]), ReadFault>
    ensures { ReadsAs (λ x. (x.0, x.1.now)) result (field u64_at (is_next_txn containers.now.made.last_txn) bytes.now) }
{
    let mut reader = Reader::new(bytes);
    match reader.u64() {
        Some(number) if number >= 1 && number - 1 == containers.last_txn() => {
            Ok((number, &bytes[reader.at()..]))
        }
        _ => Err(ReadFault::Left(bytes.len())),
    }
}

/// From one id to as many as a transaction may have.
#[tactic(auto, unfolding(crate::specs::grants::Reading::locals_at))]
fn locals_of(alloc: Global, bytes: &[u8]) -> Result<(Vec<u64>, &[u8]), ReadFault>
    ensures { ReadsAs (λ x. (x.0.items, x.1.now)) result (locals_at bytes.now) }
{
    let (count, rest) = local_count_of(bytes)?;
    so_many_locals(alloc, count, rest)
}

fn local_count_of(bytes: &[u8]) -> Result<(u16, &[u8]), ReadFault>
    ensures { ReadsAs (λ x. (x.0, x.1.now)) result (field u16_at is_local_count bytes.now) }
{
    let mut reader = Reader::new(bytes);
    match reader.u16() {
        Some(count) if count >= 1 && count as usize <= MOST_LOCALS => {
            Ok((count, &bytes[reader.at()..]))
        }
        _ => Err(ReadFault::Left(bytes.len())),
    }
}

fn so_many_locals(alloc: Global, count: u16, bytes: &[u8]) -> Result<(Vec<u64>, &[u8]), ReadFault>
    ensures { ReadsAs (λ x. (x.0.items, x.1.now)) result (numbers_at [] count bytes.now) }
{
    let mut locals = Vec::new(alloc);
    let mut rest = bytes;
    for _ in 0..count {
        let (local, after) = local_of(rest)?;
        locals.push(local)?;
        rest = after;
    }
    Ok((locals, rest))
}

fn local_of(bytes: &[u8]) -> Result<(u64, &[u8]), ReadFault>
    ensures { ReadsAs (λ x. (x.0, x.1.now)) result (field u64_at (λ number. true) bytes.now) }
{
    let mut reader = Reader::new(bytes);
    match reader.u64() {
        Some(number) => Ok((number, &bytes[reader.at()..])),
        None => Err(ReadFault::Left(bytes.len())),
    }
}

/// An acknowledgement, behind the tag.
#[tactic(auto, unfolding(crate::specs::grants::Reading::acked_at))]
fn acked_of<'b>(found: &Option<Containers>, bytes: &'b [u8]) -> Result<(Entry, &'b [u8]), ReadFault>
    ensures { ReadsAs (λ x. (x.0, x.1.now)) result (acked_at (made_in found.now) (length bytes.now + 1) bytes.now) }
{
    let Some(containers) = found else {
        return Err(ReadFault::Left(bytes.len() + 1));
    };
    let (number, rest) = unretired_of(containers, bytes)?;
    let (dn, rest) = owing_of(containers, number, rest)?;
    Ok((Entry::Acked { number, dn }, rest))
}

/// The number of a transaction that is there.
fn unretired_of<'b>(containers: &Containers, bytes: &'b [u8]) -> Result<(u64, &'b [u8]), ReadFault>
    ensures { ReadsAs (λ x. (x.0, x.1.now)) result (field u64_at (is_unretired containers.now.made) bytes.now) }
{
    let mut reader = Reader::new(bytes);
    match reader.u64() {
        Some(number) if containers.is_unretired(number) => Ok((number, &bytes[reader.at()..])),
        _ => Err(ReadFault::Left(bytes.len())),
    }
}

/// A datanode that owes the transaction's acknowledgement.
fn owing_of<'b>(
    containers: &Containers,
    number: u64,
    bytes: &'b [u8],
) -> Result<(u8, &'b [u8]), ReadFault>
    ensures { ReadsAs (λ x. (x.0, x.1.now)) result (field u8_at (may_ack containers.now.made number) bytes.now) }
{
    let mut reader = Reader::new(bytes);
    match reader.u8() {
        Some(dn) if containers.may_ack(number, dn) => Ok((dn, &bytes[reader.at()..])),
        _ => Err(ReadFault::Left(bytes.len())),
    }
}

/// A transaction that is retired, behind the tag.
#[tactic(auto, unfolding(crate::specs::grants::Reading::retired_at))]
fn retired_of<'b>(
    found: &Option<Containers>,
    bytes: &'b [u8],
) -> Result<(Entry, &'b [u8]), ReadFault>
    ensures { ReadsAs (λ x. (x.0, x.1.now)) result (retired_at (made_in found.now) (length bytes.now + 1) bytes.now) }
{
    let Some(containers) = found else {
        return Err(ReadFault::Left(bytes.len() + 1));
    };
    let (number, rest) = acknowledged_of(containers, bytes)?;
    Ok((Entry::Retired { number }, rest))
}

/// The number of a transaction that three datanodes acknowledged.
fn acknowledged_of<'b>(
    containers: &Containers,
    bytes: &'b [u8],
) -> Result<(u64, &'b [u8]), ReadFault>
    ensures { ReadsAs (λ x. (x.0, x.1.now)) result (field u64_at (is_done (log_of containers.now.made)) bytes.now) }
{
    let mut reader = Reader::new(bytes);
    match reader.u64() {
        Some(number) if containers.may_retire(number) => Ok((number, &bytes[reader.at()..])),
        _ => Err(ReadFault::Left(bytes.len())),
    }
}
