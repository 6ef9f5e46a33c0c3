//! Closing and dropping replicas at a datanode.

ghost use Rattle.std.specs.Prelude.{◌≡◌, ◌≢◌, ℕ, None, Some, OnOk, IfErr, false};
ghost use Rattle.oz_container.specs.declared.state.State.TheVariants.{Open};
ghost use Rattle.oz_core.specs.declared.event.EventKind.TheVariants.{CloseCommand};
ghost use Rattle.oz_datanode.specs.Datanode.{node_in};
ghost use Rattle.oz_datanode.specs.Writing.{is_open};
ghost use Rattle.oz_entries.specs.declared.entry.Entry.TheVariants as entries;
ghost use Rattle.oz_entries.specs.Node.{is_held};
ghost use Rattle.oz_node_events.specs.Changing.{ComesOf, HasSeenIt, IsRefusedFor};
ghost use Rattle.oz_node_events.specs.Closing.{HasChanged, MayClose};
ghost use Rattle.oz_node_events.specs.NodeSeat.{StandsFor};
ghost use Rattle.oz_turn.specs.Seat.{seen_of, taken_of, turn_of};
ghost use Rattle.oz_turn.specs.Turn.{turn_id};

use crate::changing::{change_kind, check_runs, refused_as};
use crate::refusal::ChangeRefusal;
use crate::seat::NodeSeat;
use oz_buffer::{Ledger, Opened};
use oz_container::State;
use oz_core::EventKind;
use oz_datanode::Datanode;
use oz_turn::{Ring, Seat, Turn};
use oz_world::Disk;
use std::alloc::Global;
use std::sync::Wait;

impl<O: Opened, R: Ring> NodeSeat<Ledger<O>, O, R> {
    /// Closes a replica whose container has left the open state by what another seat has seen: it comes to this state, which is
    /// stable, and then the event CloseCommand is given. Memory is taken before anything is done. The other seat sees all that the
    /// datanode's has seen. Who calls holds the datanode's lock.
    ///
    /// Errors: as those of `delete`.
    pub fn close_replica<D: Disk, W: Wait>(
        &mut self,
        rt: &W,
        alloc: Global,
        turn: &Turn<Ledger<O>>,
        other: &mut Seat<Ledger<O>>,
        node: &mut Datanode<D>,
        container: u64,
        state: State,
    ) -> Result<(), ChangeRefusal>
        requires turn { turn_id turn.now ≡ R.turn }
        requires other_turn { turn_of other.old ≡ R.turn }
        requires other_free { taken_of other.old ≡ None }
        requires stood { StandsFor D.told D.clock D.image D.faults O.coherent O.opening O.bytes O.script O.faults self.old node.old }
        requires closed { state ≢ Open }
        requires may { O.coherent → MayClose O.opening (seen_of other.old) container }
        ensures changed { OnOk result (HasChanged D.told D.clock D.image D.faults (entries.SetState container state) node.old node.new) }
        ensures comes { ComesOf D.told D.clock D.image D.faults O.coherent O.opening O.bytes O.script O.faults
            (Some (CloseCommand self.old.dn container)) (seen_of other.old) self.old self.new node.old node.new result }
        ensures other { HasSeenIt self.new.seen other.old other.new }
    {
        self.ready(rt, alloc, turn, other, None)?;
        let dn = self.dn();
        let came = set_state(alloc, node, container, state);
        let done = EventKind::CloseCommand { dn, container };
        let kind = change_kind(dn, Some(done), came);
        self.give(rt, turn, other, kind);
        came
    }

    /// Drops a replica that is closed and holds nothing: it is deleted, which is stable, and of which no event tells. Memory is taken
    /// before anything is done. Another seat sees all that the datanode's has seen. Who calls holds the datanode's lock.
    ///
    /// Errors: as those of `delete`.
    pub fn drop_replica<D: Disk, W: Wait>(
        &mut self,
        rt: &W,
        alloc: Global,
        turn: &Turn<Ledger<O>>,
        other: &mut Seat<Ledger<O>>,
        node: &mut Datanode<D>,
        container: u64,
    ) -> Result<(), ChangeRefusal>
        requires turn { turn_id turn.now ≡ R.turn }
        requires other_turn { turn_of other.old ≡ R.turn }
        requires other_free { taken_of other.old ≡ None }
        requires stood { StandsFor D.told D.clock D.image D.faults O.coherent O.opening O.bytes O.script O.faults self.old node.old }
        requires empty { (local : ℕ) → is_held (node_in node.old) (record { container = container; local = local }) ≡ false }
        requires closed { is_open ((node_in node.old).states container) ≡ false }
        ensures changed { OnOk result (HasChanged D.told D.clock D.image D.faults (entries.Drop container) node.old node.new) }
        ensures comes { ComesOf D.told D.clock D.image D.faults O.coherent O.opening O.bytes O.script O.faults
            (None) (seen_of other.old) self.old self.new node.old node.new result }
        ensures other { HasSeenIt self.new.seen other.old other.new }
    {
        self.ready(rt, alloc, turn, other, None)?;
        let dn = self.dn();
        let came = drop_container(alloc, node, container);
        let kind = change_kind(dn, None, came);
        self.give(rt, turn, other, kind);
        came
    }
}

/// Brings a replica of a datanode to a state.
fn set_state<D: Disk>(
    alloc: Global,
    node: &mut Datanode<D>,
    container: u64,
    state: State,
) -> Result<(), ChangeRefusal>
    ensures changed { OnOk result (HasChanged D.told D.clock D.image D.faults (entries.SetState container state) node.old node.new) }
    ensures refused { IfErr result (IsRefusedFor D.told D.clock D.image D.faults node.old node.new) }
    ensures written { node.new.shelf.written ≡ node.old.shelf.written }
{
    check_runs(node)?;
    match node.set_state(alloc, container, state) {
        Ok(()) => {
            let _halted = node.halted();
            Ok(())
        }
        Err(refusal) => Err(refused_as(node, refusal)),
    }
}

/// Drops a replica of a datanode, of which it holds no block.
fn drop_container<D: Disk>(
    alloc: Global,
    node: &mut Datanode<D>,
    container: u64,
) -> Result<(), ChangeRefusal>
    requires empty { (local : ℕ) → is_held (node_in node.old) (record { container = container; local = local }) ≡ false }
    ensures changed { OnOk result (HasChanged D.told D.clock D.image D.faults (entries.Drop container) node.old node.new) }
    ensures refused { IfErr result (IsRefusedFor D.told D.clock D.image D.faults node.old node.new) }
    ensures written { node.new.shelf.written ≡ node.old.shelf.written }
{
    check_runs(node)?;
    match node.drop_container(alloc, container) {
        Ok(()) => {
            let _halted = node.halted();
            Ok(())
        }
        Err(refusal) => Err(refused_as(node, refusal)),
    }
}
