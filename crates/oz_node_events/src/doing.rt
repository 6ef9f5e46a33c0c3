//! Having something done to a datanode for a line, and telling it, in one hold of the turn.

ghost use Rattle.std.specs.Prelude.{◌≡◌, ◌≢◌, ℕ, ◌+◌, ◌<◌, ◌≤◌, ◌++◌, ◌∷◌, [], List, IsSome, None, IfErr, OnOk, OnErr, false, slice_index};
ghost use Rattle.oz_buffer.specs.Buffer.{AllFollow, Follows, IsNote};
ghost use Rattle.oz_core.specs.declared.event.Event.{Event as AnyEvent};
ghost use Rattle.oz_core.specs.declared.event.EventKind.TheVariants.{Halt};
ghost use Rattle.oz_core.specs.declared.event.Node.TheVariants.{Datanode as OfDatanode};
ghost use Rattle.oz_core.specs.Seats.{datanode_seat};
ghost use Rattle.oz_datanode.specs.Datanode.{is_halted, meta_of, slots_of};
ghost use Rattle.oz_nodes.specs.declared.nodes.TheConstants.{MOST_NODES};
ghost use Rattle.oz_node_events.specs.declared.command.NodeCommand.TheVariants.{Wipe};
ghost use Rattle.oz_node_events.specs.Commands.{by_node};
ghost use Rattle.oz_node_events.specs.Doing.{EndsSo, IsUndone, LeftSo, WasTold, end_kind, refused_by, told_of};
ghost use Rattle.oz_node_events.specs.Led.{done_kind};
ghost use Rattle.oz_node_events.specs.NodeSeat.{events_of};
ghost use Rattle.oz_replicas.specs.Stays.{IsIdle};
ghost use Rattle.oz_turn.specs.Seat.{IsReady, IsSameSeat, mine_of, room_of, seen_of, taken_of, turn_of};
ghost use Rattle.oz_turn.specs.Told.{BeginsWith};
ghost use Rattle.oz_turn.specs.Turn.{turn_id};

use crate::appending::FIRST_DATANODE_SEAT;
use crate::command::{DoneRefusal, NodeCommand, done_kind};
use oz_buffer::{Ledger, Opened};
use oz_core::{Event, EventKind, Node};
use oz_datanode::Datanode;
use oz_script::Line;
use oz_turn::{Seat, Turn};
use oz_world::Disk;
use std::alloc::Global;
use std::sync::Wait;

/// Has something done to a datanode for a line that isn't told, and appends its event, or the Halt where a disk failed, all in one
/// hold of the turn, in which room for the event is made before. Another seat has seen what stands before it. Where the line is
/// told, or there is no room, nothing happens.
pub(crate) fn do_held<D: Disk, O: Opened, W: Wait>(
    rt: &W,
    alloc: Global,
    turn: &Turn<Ledger<O>>,
    seat: &mut Seat<Ledger<O>>,
    other: &mut Seat<Ledger<O>>,
    node: &mut Datanode<D>,
    dn: u8,
    line: &Line,
    done: NodeCommand,
) -> Result<(), DoneRefusal>
    requires ready { IsReady (turn_id turn.now) (datanode_seat dn) seat.old }
    requires few { dn < MOST_NODES }
    requires other_turn { turn_of other.old ≡ turn_id turn.now }
    requires other_free { taken_of other.old ≡ None }
    requires unhalted { is_halted node.old ≡ false }
    requires idle { IsIdle node.old }
    requires tells { O.coherent → IsSome (D.told (meta_of node.old)) × IsSome (D.told (slots_of node.old)) }
    requires follows { (story : List AnyEvent) → BeginsWith story (seen_of seat.old) → BeginsWith story (seen_of other.old)
        → AllFollow (Follows O.coherent O.opening O.bytes O.script) [] story → events_of dn story ≡ mine_of seat.old
        → Follows O.coherent O.opening O.bytes O.script story (by_node dn (done_kind dn done)) }
    requires halts { (count : ℕ) → 1 ≤ count → (story : List AnyEvent)
        → AllFollow (Follows O.coherent O.opening O.bytes O.script) [] story → events_of dn story ≡ mine_of seat.old
        → Follows O.coherent O.opening O.bytes O.script story (by_node dn (Halt (OfDatanode dn) count)) }
    ensures ready { IsReady (turn_id turn.now) (datanode_seat dn) seat.new }
    ensures room { room_of seat.new ≡ room_of seat.old }
    ensures node { LeftSo D.told D.clock D.image D.faults O.coherent done node.old node.new result }
    ensures idle { IsIdle node.new }
    ensures goes_on { BeginsWith (seen_of other.new) (seen_of seat.old) }
    ensures told { seen_of seat.new ≡ seen_of other.new ++ told_of dn done result }
    ensures mine { mine_of seat.new ≡ mine_of seat.old ++ told_of dn done result }
    ensures known { events_of dn (seen_of seat.new) ≡ mine_of seat.new }
    ensures follow { AllFollow (Follows O.coherent O.opening O.bytes O.script) [] (seen_of seat.new) }
    ensures was_told { WasTold line.now (seen_of other.new) result }
    ensures other { IsSameSeat other.old other.new }
    ensures other_free { taken_of other.new ≡ None }
    ensures other_begins { BeginsWith (seen_of other.new) (seen_of other.old) }
    ensures other_mine { mine_of other.new ≡ mine_of other.old }
    ensures other_room { room_of other.new ≡ room_of other.old }
{
    let (mut ledger, held) = turn.take(rt, seat);
    ledger.all_follow();
    turn.show(seat, other);
    match make_room(&mut ledger, alloc, dn, line) {
        Err(refusal) => {
            turn.give_back(seat, ledger, held);
            seat.knows_own();
            Err(refusal)
        }
        Ok(()) => {
            let end = end_in(&mut ledger, node, dn, done);
            turn.give(seat, ledger, held);
            seat.knows_own();
            refused_by(end)
        }
    }
}

/// Makes room for one event of a datanode's seat, for a line that isn't told.
fn make_room<O: Opened>(
    ledger: &mut Ledger<O>,
    alloc: Global,
    dn: u8,
    line: &Line,
) -> Result<(), DoneRefusal>
    requires few { dn < MOST_NODES }
    ensures story { ledger.new.story ≡ ledger.old.story }
    ensures room { OnOk result (slice_index ledger.new.rooms (datanode_seat dn)
        ≡ slice_index ledger.old.rooms (datanode_seat dn) + 1) }
    ensures others { (n : ℕ) → n ≢ datanode_seat dn → slice_index ledger.new.rooms n ≡ slice_index ledger.old.rooms n }
    ensures err { OnErr result (ledger.new ≡ ledger.old) }
    ensures undone { IfErr result IsUndone }
    ensures was_told { WasTold line.now ledger.old.story result }
{
    if ledger.is_told(line.client, line.number) {
        return Err(DoneRefusal::Told);
    }
    ledger.reserve_notes(alloc, FIRST_DATANODE_SEAT + u16::from(dn), 1)?;
    Ok(())
}

/// Has it done, and appends its event from the room of the datanode's seat.
fn end_in<D: Disk, O: Opened>(
    ledger: &mut Ledger<O>,
    node: &mut Datanode<D>,
    dn: u8,
    done: NodeCommand,
) -> Result<(), u64>
    requires few { dn < MOST_NODES }
    requires room { 1 ≤ slice_index ledger.old.rooms (datanode_seat dn) }
    requires unhalted { is_halted node.old ≡ false }
    requires idle { IsIdle node.old }
    requires tells { O.coherent → IsSome (D.told (meta_of node.old)) × IsSome (D.told (slots_of node.old)) }
    requires follows { Follows O.coherent O.opening O.bytes O.script ledger.old.story (by_node dn (done_kind dn done)) }
    requires halts { (count : ℕ) → 1 ≤ count
        → Follows O.coherent O.opening O.bytes O.script ledger.old.story (by_node dn (Halt (OfDatanode dn) count)) }
    ensures story { ledger.new.story ≡ ledger.old.story ++ by_node dn (end_kind dn done result) ∷ [] }
    ensures room { slice_index ledger.new.rooms (datanode_seat dn) + 1 ≡ slice_index ledger.old.rooms (datanode_seat dn) }
    ensures others { (n : ℕ) → n ≢ datanode_seat dn → slice_index ledger.new.rooms n ≡ slice_index ledger.old.rooms n }
    ensures follow { AllFollow (Follows O.coherent O.opening O.bytes O.script) [] ledger.new.story }
    ensures ends { EndsSo D.told D.clock D.image D.faults O.coherent done node.old node.new result }
    ensures idle { IsIdle node.new }
{
    let end = end::<D, O>(node, done);
    let seat = FIRST_DATANODE_SEAT + u16::from(dn);
    let kind = end_kind(dn, done, end);
    ledger.note(Event { seat, kind });
    ledger.all_follow();
    end
}

/// Stops, starts or wipes a datanode whose disks haven't failed. Where one does now the answer is how often both have.
fn end<D: Disk, O: Opened>(node: &mut Datanode<D>, done: NodeCommand) -> Result<(), u64>
    requires unhalted { is_halted node.old ≡ false }
    requires idle { IsIdle node.old }
    requires tells { O.coherent → IsSome (D.told (meta_of node.old)) × IsSome (D.told (slots_of node.old)) }
    ensures ends { EndsSo D.told D.clock D.image D.faults O.coherent done node.old node.new result }
    ensures idle { IsIdle node.new }
{
    match done {
        NodeCommand::Stop => {
            node.stop();
            Ok(())
        }
        NodeCommand::Start => {
            let _started = node.start();
            Ok(())
        }
        NodeCommand::Wipe => empty::<D, O>(node),
    }
}

/// Takes everything away from a datanode whose disks haven't failed.
fn empty<D: Disk, O: Opened>(node: &mut Datanode<D>) -> Result<(), u64>
    requires unhalted { is_halted node.old ≡ false }
    requires idle { IsIdle node.old }
    requires tells { O.coherent → IsSome (D.told (meta_of node.old)) × IsSome (D.told (slots_of node.old)) }
    ensures ends { EndsSo D.told D.clock D.image D.faults O.coherent Wipe node.old node.new result }
    ensures idle { IsIdle node.new }
{
    match node.wipe() {
        Ok(()) => Ok(()),
        Err(_refusal) => Err(node.count()),
    }
}

/// The same as an answer to who asked for it.
fn refused_by(end: Result<(), u64>) -> Result<(), DoneRefusal>
    ensures { result ≡ refused_by end }
{
    match end {
        Ok(()) => Ok(()),
        Err(count) => Err(DoneRefusal::Halted { count }),
    }
}

/// What is told of it.
fn end_kind(dn: u8, done: NodeCommand, end: Result<(), u64>) -> EventKind
    ensures kind { result ≡ end_kind dn done end }
    ensures noted { IsNote result }
{
    match end {
        Ok(()) => done_kind(dn, done),
        Err(count) => {
            let node = Node::Datanode(dn);
            EventKind::Halt { node, count }
        }
    }
}
