//! What a datanode's seat tells of a change that the datanode's journal has, or hasn't.

ghost use Rattle.std.specs.Prelude.{◌≡◌, ◌≤◌, List, [], None, IfSome, OnOk, IfErr};
ghost use Rattle.oz_buffer.specs.Buffer.{AllFollow, Follows};
ghost use Rattle.oz_core.specs.declared.event.Event.{Event as AnyEvent};
ghost use Rattle.oz_datanode.specs.Datanode.{Runs, count_of};
ghost use Rattle.oz_node_events.specs.Changing.{HasSeenIt, IsGiven, IsNoteOfChange, IsRefusedFor, change_kind, refused_as, with_given};
ghost use Rattle.oz_node_events.specs.Commands.{by_node};
ghost use Rattle.oz_node_events.specs.NodeSeat.{IsKept, events_of};
ghost use Rattle.oz_turn.specs.Seat.{seen_of, taken_of, turn_of};
ghost use Rattle.oz_turn.specs.Told.{BeginsWith};
ghost use Rattle.oz_turn.specs.Turn.{turn_id};

use crate::refusal::ChangeRefusal;
use crate::seat::NodeSeat;
use oz_buffer::{Ledger, Opened};
use oz_core::{EventKind, Node};
use oz_datanode::{Datanode, NodeRefusal};
use oz_turn::{Ring, Seat, Turn};
use oz_world::Disk;
use std::sync::Wait;

impl<O: Opened, R: Ring> NodeSeat<Ledger<O>, O, R> {
    /// Appends an event of the datanode where there is one. Another seat sees it, and all that the datanode's has seen.
    pub(crate) fn give<W: Wait>(
        &mut self,
        rt: &W,
        turn: &Turn<Ledger<O>>,
        other: &mut Seat<Ledger<O>>,
        kind: Option<EventKind>,
    )
        requires turn { turn_id turn.now ≡ R.turn }
        requires other_turn { turn_of other.old ≡ R.turn }
        requires other_free { taken_of other.old ≡ None }
        requires room { 1 ≤ self.old.room }
        requires kind { IfSome kind IsNoteOfChange }
        requires follows { IfSome kind (λ kind. (story : List AnyEvent) → BeginsWith story self.old.seen
            → BeginsWith story (seen_of other.old) → AllFollow (Follows O.coherent O.opening O.bytes O.script) [] story
            → events_of self.old.dn story ≡ self.old.mine
            → Follows O.coherent O.opening O.bytes O.script story (by_node self.old.dn kind)) }
        ensures number { self.new.dn ≡ self.old.dn }
        ensures told { IsGiven self.old.dn kind self.old.seen (seen_of other.old) self.new.seen }
        ensures mine { self.new.mine ≡ with_given self.old.dn kind self.old.mine }
        ensures last { self.new.last ≡ self.old.last }
        ensures kept { IsKept O.coherent O.opening O.bytes O.script self.new }
        ensures kept_before { IsKept O.coherent O.opening O.bytes O.script self.old }
        ensures other { HasSeenIt self.new.seen other.old other.new }
    {
        match kind {
            Some(kind) => self.note(rt, turn, other, kind),
            None => {
                self.show(rt, turn, other);
            }
        }
    }
}

/// Whether a datanode runs.
pub(crate) fn check_runs<D: Disk>(node: &Datanode<D>) -> Result<(), ChangeRefusal>
    ensures runs { OnOk result (Runs D.faults node.now) }
    ensures refused { IfErr result (IsRefusedFor D.told D.clock D.image D.faults node.now node.now) }
{
    if node.running() {
        return Ok(());
    }
    if node.halted() {
        return Err(ChangeRefusal::Halted {
            count: node.count(),
        });
    }
    Err(ChangeRefusal::Stopped)
}

/// Why a change was refused that a datanode was asked for while it ran.
pub(crate) fn refused_as<D: Disk>(node: &Datanode<D>, refusal: NodeRefusal) -> ChangeRefusal
    ensures { result ≡ refused_as (count_of D.faults node.now) refusal }
{
    match refusal {
        NodeRefusal::OutOfMemory => ChangeRefusal::OutOfMemory,
        NodeRefusal::Stopped { .. }
        | NodeRefusal::Full { .. }
        | NodeRefusal::NotOpen { .. }
        | NodeRefusal::NoBlock
        | NodeRefusal::Bad { .. } => ChangeRefusal::Failed {
            count: node.count(),
        },
    }
}

/// What is told of a change: that it was made, by an event of this kind where there is one, or that a disk failed.
pub(crate) fn change_kind(
    dn: u8,
    done: Option<EventKind>,
    came: Result<(), ChangeRefusal>,
) -> Option<EventKind>
    ensures { result ≡ change_kind dn done came }
{
    match came {
        Ok(()) => done,
        Err(ChangeRefusal::Failed { count }) => {
            let node = Node::Datanode(dn);
            Some(EventKind::Halt { node, count })
        }
        Err(ChangeRefusal::Stopped | ChangeRefusal::Halted { .. } | ChangeRefusal::OutOfMemory) =>
            None,
    }
}
