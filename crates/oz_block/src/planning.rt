//! The memory that a change takes, before anything is written: its body in a frame, and room for what it holds.

ghost use Rattle.std.specs.Prelude.{◌≡◌, ◌↔◌, ◌+◌, ◌<◌, ◌^◌, ℕ, length, IfOk, OnOk, IsTrue, Contains};
ghost use Rattle.std.specs.List.Sorted.{IsStrictlyIncreasing};
ghost use Rattle.oz_block.specs.Frames.{IsFrameOf};
ghost use Rattle.oz_entries.specs.declared.entry.Entry.TheVariants as entries;
ghost use Rattle.oz_entries.specs.Held.{node_of, HasRoom, IsNamed, is_freed};
ghost use Rattle.oz_entries.specs.Node.{MayFollow, names};
ghost use Rattle.oz_journal.specs.Journal.{body_of};

use oz_container::State;
use oz_dellog::Txn;
use oz_entries::{BlockRow, Held, encode_apply, encode_drop, encode_put, encode_state};
use oz_fields::{Block, OutOfMemory};
use oz_journal::Frame;
use std::alloc::Global;

/// A body as a journal takes it.
fn framed(alloc: Global, body: &[u8]) -> Result<Vec<u8>, OutOfMemory>
    ensures body { IfOk result (λ frame. body_of frame.items ≡ body.now) }
    ensures size { IfOk result (λ frame. length frame.items ≡ length body.now + 5) }
{
    let mut frame = Frame::new(alloc)?;
    frame.put(body)?;
    frame.framed()
}

/// A put.
pub(crate) fn plan_put(
    alloc: Global,
    held: &mut Held,
    block: Block,
    row: &BlockRow,
) -> Result<Vec<u8>, OutOfMemory>
    requires { MayFollow (node_of held.old) (entries.Put block row.now) }
    ensures same { node_of held.new ≡ node_of held.old }
    ensures room { OnOk result (HasRoom held.new block) }
    ensures frame { IfOk result (λ frame. IsFrameOf (entries.Put block row.now) frame.items) }
{
    let body = encode_put(alloc, block, row)?;
    let frame = framed(alloc, &body)?;
    held.make_room(alloc, block)?;
    Ok(frame)
}

/// A replica's state.
pub(crate) fn plan_state(
    alloc: Global,
    held: &mut Held,
    container: u64,
    state: State,
) -> Result<Vec<u8>, OutOfMemory>
    ensures same { node_of held.new ≡ node_of held.old }
    ensures room { OnOk result (IsNamed held.new container) }
    ensures frame { IfOk result (λ frame. IsFrameOf (entries.SetState container state) frame.items) }
{
    let body = encode_state(alloc, container, state)?;
    let frame = framed(alloc, &body)?;
    held.name(alloc, container)?;
    Ok(frame)
}

/// A transaction, and the slots that it sets free.
pub(crate) fn plan_delete(
    alloc: Global,
    held: &mut Held,
    txn: &Txn,
) -> Result<(Vec<u8>, Vec<u32>), OutOfMemory>
    requires { MayFollow (node_of held.old) (entries.Apply txn.now) }
    ensures same { node_of held.new ≡ node_of held.old }
    ensures room { OnOk result (IsNamed held.new txn.now.container) }
    ensures frame { IfOk result (λ plan. IsFrameOf (entries.Apply txn.now) plan.0.items) }
    ensures slots { IfOk result (λ plan. (slot : ℕ) → Contains plan.1.items slot
        ↔ IsTrue (is_freed (names txn.now) ((node_of held.old).users slot))) }
    ensures rising { IfOk result (λ plan. IsStrictlyIncreasing plan.1.items) }
{
    let slots = held.slots_of(alloc, txn.container, txn.locals.items())?;
    let body = encode_apply(alloc, txn)?;
    let frame = framed(alloc, &body)?;
    held.name(alloc, txn.container)?;
    Ok((frame, slots))
}

/// The drop of a replica.
pub(crate) fn plan_drop(
    alloc: Global,
    held: &mut Held,
    container: u64,
) -> Result<Vec<u8>, OutOfMemory>
    requires { MayFollow (node_of held.old) (entries.Drop container) }
    ensures same { node_of held.new ≡ node_of held.old }
    ensures room { OnOk result (IsNamed held.new container) }
    ensures frame { IfOk result (λ frame. IsFrameOf (entries.Drop container) frame.items) }
{
    let body = encode_drop(alloc, container)?;
    let frame = framed(alloc, &body)?;
    held.name(alloc, container)?;
    Ok(frame)
}
