//! The memory that an entry takes, before anything is written.

ghost use Rattle.std.specs.Prelude.{◌≡◌, ◌+◌, ◌<◌, ◌≤◌, ◌^◌, length, IfOk, OnOk, OnErr};
ghost use Rattle.std.specs.List.{AllByRecursion};
ghost use Rattle.oz_scm.specs.declared.grants.entry.Entry.TheVariants as entries;
ghost use Rattle.oz_journal.specs.Journal.{body_of};
ghost use Rattle.oz_scm.specs.Frames.{IsFrameOf};
ghost use Rattle.oz_scm.specs.grants.Made.{MayLog, after_log};
ghost use Rattle.oz_scm.specs.grants.Steps.{WasLogged};

use crate::grants::{Containers, Grant, encode_granted, encode_logged, encode_nodes};
use oz_dellog::Txn;
use oz_fields::{List, OutOfMemory};
use oz_journal::Frame;
use std::alloc::Global;

/// A body as a journal takes it.
fn framed(alloc: Global, body: &[u8]) -> Result<Vec<u8>, OutOfMemory>
    ensures body { IfOk result (λ frame. body_of frame.items ≡ body.now) }
    ensures size { IfOk result (λ frame. length frame.items ≡ length body.now + 5) }
{
    let mut frame = Frame::new(alloc)?;
    frame.put(body)?;
    frame.framed()
}

/// The first entry.
pub(crate) fn plan_nodes(alloc: Global, nodes: u8) -> Result<Vec<u8>, OutOfMemory>
    ensures { IfOk result (λ frame. IsFrameOf (entries.Nodes nodes) frame.items) }
{
    let body = encode_nodes(alloc, nodes)?;
    framed(alloc, &body)
}

/// A grant, and room for what it makes.
pub(crate) fn plan_grant(
    alloc: Global,
    containers: &mut Containers,
    stripe: u8,
    grant: &Grant,
) -> Result<Vec<u8>, OutOfMemory>
    ensures same { containers.new.made ≡ containers.old.made }
    ensures room { OnOk result (1 ≤ containers.new.spare) }
    ensures frame { IfOk result (λ frame. IsFrameOf (entries.Granted stripe grant.now) frame.items) }
{
    let body = encode_granted(alloc, stripe, grant)?;
    let frame = framed(alloc, &body)?;
    containers.reserve(alloc)?;
    Ok(frame)
}

/// The numbers of a transaction have 64 bits.
pub(crate) fn has_numbers(txn: &Txn)
    ensures container { txn.now.container < 2 ^ 64 }
    ensures number { txn.now.number < 2 ^ 64 }
    ensures locals { AllByRecursion (λ local. local < 2 ^ 64) txn.now.locals }
{
    let _container = txn.container;
    let _number = txn.number;
    are_numbers(txn.locals.items());
}

fn are_numbers(locals: &[u64])
    ensures { AllByRecursion (λ local. local < 2 ^ 64) locals.now }
{
    let _count = locals.len();
}

/// A deletion, which is logged in memory.
pub(crate) fn plan_log(
    alloc: Global,
    containers: &mut Containers,
    txn: &Txn,
) -> Result<Vec<u8>, OutOfMemory>
    requires { MayLog containers.old.made txn.now }
    ensures logged { OnOk result (containers.new.made ≡ after_log txn.now containers.old.made) }
    ensures was { OnOk result (WasLogged containers.old.made containers.new.made) }
    ensures same { OnErr result (containers.new.made ≡ containers.old.made) }
    ensures frame { IfOk result (λ frame. IsFrameOf (entries.Logged txn.now) frame.items) }
{
    let body = encode_logged(alloc, txn)?;
    let frame = framed(alloc, &body)?;
    let locals = Vec::from_slice(alloc, txn.locals.items())?;
    let copy = Txn {
        number: txn.number,
        container: txn.container,
        locals: List::of(locals),
    };
    containers.log_txn(alloc, copy)?;
    Ok(frame)
}
