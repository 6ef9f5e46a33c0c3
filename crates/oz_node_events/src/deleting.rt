//! Applying a transaction of the log of deleted blocks at a datanode, and telling it.

ghost use Rattle.std.specs.Prelude.{◌≡◌, ◌≤◌, length, None, Some, IfOk, IfErr, filter};
ghost use Rattle.oz_datanode.specs.Changing.{held_count};
ghost use Rattle.oz_datanode.specs.Datanode.{node_in};
ghost use Rattle.oz_dellog.specs.declared.txn.TheConstants.{MOST_LOCALS as MOST};
ghost use Rattle.oz_entries.specs.Node.{is_held};
ghost use Rattle.oz_kept.specs.reopened.Left.{NumbersAreApart};
ghost use Rattle.oz_node_events.specs.Changing.{ComesOf, HasSeenIt, IsRefusedFor};
ghost use Rattle.oz_node_events.specs.Deleting.{HasApplied, MayApply, as_done, delete_kind, held_locals};
ghost use Rattle.oz_node_events.specs.NodeSeat.{StandsFor};
ghost use Rattle.oz_turn.specs.Seat.{seen_of, taken_of, turn_of};
ghost use Rattle.oz_turn.specs.Turn.{turn_id};

use crate::changing::{change_kind, check_runs, refused_as};
use crate::refusal::ChangeRefusal;
use crate::seat::NodeSeat;
use oz_buffer::{Ledger, Opened};
use oz_core::EventKind;
use oz_datanode::Datanode;
use oz_dellog::Txn;
use oz_fields::{Block, List, OutOfMemory, TryClone};
use oz_turn::{Ring, Seat, Turn};
use oz_world::Disk;
use std::alloc::Global;
use std::sync::Wait;

impl<O: Opened, R: Ring> NodeSeat<Ledger<O>, O, R> {
    /// Applies a transaction that is logged by what another seat has seen, and of whose container the datanode is a member: none
    /// of its blocks is held afterwards, which is stable, and then the event Delete names those that were held, in the transaction's
    /// order. The answer is how many were. Memory is taken before anything is done. The other seat sees all that the datanode's has
    /// seen. Who calls holds the datanode's lock.
    ///
    /// Errors: `Stopped` where a line stopped the datanode, and `Halted` where a disk of it had failed; `Failed` where one fails
    /// now, and the Halt is told; and `OutOfMemory`. Where none fails now nothing is told, and the datanode holds what it held.
    pub fn delete<D: Disk, W: Wait>(
        &mut self,
        rt: &W,
        alloc: Global,
        turn: &Turn<Ledger<O>>,
        other: &mut Seat<Ledger<O>>,
        node: &mut Datanode<D>,
        txn: &Txn,
    ) -> Result<u32, ChangeRefusal>
        requires turn { turn_id turn.now ≡ R.turn }
        requires other_turn { turn_of other.old ≡ R.turn }
        requires other_free { taken_of other.old ≡ None }
        requires stood { StandsFor D.told D.clock D.image D.faults O.coherent O.opening O.bytes O.script O.faults self.old node.old }
        requires number { 1 ≤ txn.now.number }
        requires least { 1 ≤ length txn.now.locals }
        requires most { length txn.now.locals ≤ MOST }
        requires apart { O.coherent → NumbersAreApart O.opening }
        requires may { O.coherent → MayApply O.opening (seen_of other.old) self.old.dn txn.now }
        ensures applied { IfOk result (λ count. HasApplied D.told D.clock D.image D.faults txn.now node.old node.new
            × (count ≡ held_count (node_in node.old) txn.now.container txn.now.locals)) }
        ensures comes { ComesOf D.told D.clock D.image D.faults O.coherent O.opening O.bytes O.script O.faults
            (Some (delete_kind self.old.dn (node_in node.old) txn.now)) (seen_of other.old) self.old self.new node.old node.new (as_done result) }
        ensures other { HasSeenIt self.new.seen other.old other.new }
    {
        self.ready(rt, alloc, turn, other, None)?;
        let locals = held_locals(alloc, node, txn)?;
        let dn = self.dn();
        let number = txn.number;
        let done = EventKind::Delete {
            dn,
            txn: number,
            locals,
        };
        let came = apply(alloc, node, txn);
        let kind = change_kind(dn, Some(done), as_done(came));
        self.give(rt, turn, other, kind);
        came
    }
}

/// The blocks of a transaction that a datanode holds, by their own numbers, in the transaction's order.
fn held_locals<D: Disk>(
    alloc: Global,
    node: &Datanode<D>,
    txn: &Txn,
) -> Result<List<u64>, OutOfMemory>
    ensures { IfOk result (λ locals. locals ≡ held_locals (node_in node.now) txn.now) }
{
    let locals = txn.locals.try_clone(alloc)?;
    let mut items = locals.into_items();
    keep_held(node, txn.container, &mut items);
    Ok(List::of(items))
}

fn keep_held<D: Disk>(node: &Datanode<D>, container: u64, locals: &mut Vec<u64>)
    ensures { locals.new.items ≡ filter (λ local.
        is_held (node_in node.now) (record { container = container; local = local })) locals.old.items }
{
    locals.retain(|local| {
        node.holds(Block {
            container,
            local: *local,
        })
    });
}

/// Has a datanode apply a transaction.
fn apply<D: Disk>(alloc: Global, node: &mut Datanode<D>, txn: &Txn) -> Result<u32, ChangeRefusal>
    requires number { 1 ≤ txn.now.number }
    requires least { 1 ≤ length txn.now.locals }
    requires most { length txn.now.locals ≤ MOST }
    ensures applied { IfOk result (λ count. HasApplied D.told D.clock D.image D.faults txn.now node.old node.new
        × (count ≡ held_count (node_in node.old) txn.now.container txn.now.locals)) }
    ensures refused { IfErr result (IsRefusedFor D.told D.clock D.image D.faults node.old node.new) }
    ensures written { node.new.shelf.written ≡ node.old.shelf.written }
{
    check_runs(node)?;
    match node.apply_deletes(alloc, txn) {
        Ok(count) => {
            let _halted = node.halted();
            Ok(count)
        }
        Err(refusal) => Err(refused_as(node, refusal)),
    }
}

/// Whether the transaction was applied, or why not.
fn as_done(came: Result<u32, ChangeRefusal>) -> Result<(), ChangeRefusal>
    ensures { result ≡ as_done came }
{
    match came {
        Ok(_count) => Ok(()),
        Err(refusal) => Err(refusal),
    }
}
