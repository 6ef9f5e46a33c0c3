//! Wiping a datanode.

ghost use Rattle.std.specs.Prelude.{◌≡◌, ◌+◌, ◌≤◌, ◌<◌, ◌++◌, ◌∷◌, [], IfOk, OnErr, slice_index};
ghost use Rattle.oz_script.specs.declared.lines.script.TheConstants.{MOST_CLIENTS as MOST};
ghost use Rattle.oz_node_admin.specs.Seats.{MayChange, MayCommand, MayTake, OnlyLooked, ScmWentOn, StillStands, WasLeft};
ghost use Rattle.oz_node_admin.specs.Wipes.{Empties, HasTold, HaveTold, WipeComesTo, answer_of, last_wiped, runs_now, wipe_event};
ghost use Rattle.oz_node_events.specs.declared.command.NodeCommand.TheVariants as done;
ghost use Rattle.oz_node_events.specs.Commands.{by_node};
ghost use Rattle.oz_node_events.specs.Led.{HasItDone};
ghost use Rattle.oz_node_events.specs.NodeSeat.{IsAppended, StandsFor};
ghost use Rattle.oz_replicas.specs.Stays.{IsIdle};
ghost use Rattle.oz_turn.specs.Seat.{seen_of};
ghost use Rattle.oz_turn.specs.Told.{BeginsWith};
ghost use Rattle.oz_turn.specs.Turn.{turn_id};

use crate::fault::AdminFault;
use oz_buffer::{Ledger, Opened};
use oz_datanode::Datanode;
use oz_fields::OutOfMemory;
use oz_node_events::{
    DoneRefusal, NodeCommand, NodeSeat, it_stands_where_it_saw_more, its_seat_alone_tells,
};
use oz_replicas::NodeCell;
use oz_scm_events::{ScmCell, a_datanode_alone_tells_that_it_runs, the_scm_alone_tells};
use oz_script::Line;
use oz_turn::{Ring, Seat, Turn};
use oz_world::Disk;
use std::alloc::Global;
use std::sync::Wait;

/// Wipes the datanode of a cell for a line: it holds nothing then, each of its replicas is open, and whether a line
/// stopped it is as it was. The line's worker holds the lock of the storage container manager and the cell's. The
/// datanode's seat tells the Wipe, in the hold of the turn in which it is wiped, and the storage container manager takes it for
/// up exactly if it runs; where it was so before that isn't told again. The worker's seat has seen both then. Room for both
/// events is made before anything is done.
///
/// The line is one of the script, with this command, and has started. A datanode that was wiped isn't told here which
/// containers aren't open.
///
/// Errors: `Halted` exactly where a disk of the datanode had failed, and then nothing happens, or fails now: then its
/// seat tells the Halt, it is taken for down, and nothing is said of what it holds. `Repeated` where this line, or a later
/// one of its client, had something done to it before, and `OutOfMemory`, also where the line was told its answer before, which
/// no worker does: nothing happens.
pub fn wipe_at<D: Disk, S: Disk, O: Opened, R: Ring, W: Wait>(
    rt: &W,
    alloc: Global,
    turn: &Turn<Ledger<O>>,
    scm: &mut ScmCell<S, Ledger<O>, O, R>,
    cell: &mut NodeCell<D, NodeSeat<Ledger<O>, O, R>>,
    seat: &mut Seat<Ledger<O>>,
    line: &Line,
) -> Result<(), AdminFault>
    requires seat { MayTake R.turn (turn_id turn.now) seat.old }
    requires may { MayCommand O.Opened (seen_of seat.old) cell.old.kept.dn done.Wipe line.now }
    ensures comes_to { WipeComesTo cell.old cell.new scm.old scm.new D.told D.clock D.image D.faults O.coherent
        O.script line.now (seen_of seat.old) (seen_of seat.new) result }
    ensures stood { StandsFor D.told D.clock D.image D.faults O.coherent O.opening O.bytes O.script O.faults
        cell.old.kept cell.old.node }
    ensures stays { StillStands D.Disk O.Opened cell.old.kept cell.new.kept cell.new.node }
    ensures scm { ScmWentOn scm.old scm.new }
    ensures looked { OnlyLooked R.turn seat.old seat.new }
{
    wipe(
        rt,
        alloc,
        turn,
        scm,
        &mut cell.node,
        &mut cell.kept,
        seat,
        line,
    )
}

/// Wipes the datanode beside which this seat is kept.
fn wipe<D: Disk, S: Disk, O: Opened, R: Ring, W: Wait>(
    rt: &W,
    alloc: Global,
    turn: &Turn<Ledger<O>>,
    scm: &mut ScmCell<S, Ledger<O>, O, R>,
    node: &mut Datanode<D>,
    kept: &mut NodeSeat<Ledger<O>, O, R>,
    seat: &mut Seat<Ledger<O>>,
    line: &Line,
) -> Result<(), AdminFault>
    requires seat { MayTake R.turn (turn_id turn.now) seat.old }
    requires idle { IsIdle node.old }
    requires stood { StandsFor D.told D.clock D.image D.faults O.coherent O.opening O.bytes O.script O.faults
        kept.old node.old }
    requires may { MayCommand O.Opened (seen_of seat.old) kept.old.dn done.Wipe line.now }
    ensures comes_to { WipeComesTo (record { node = node.old; kept = kept.old })
        (record { node = node.new; kept = kept.new }) scm.old scm.new D.told D.clock D.image D.faults O.coherent
        O.script line.now (seen_of seat.old) (seen_of seat.new) result }
    ensures idle { IsIdle node.new }
    ensures stays { StillStands D.Disk O.Opened kept.old kept.new node.new }
    ensures scm { ScmWentOn scm.old scm.new }
    ensures looked { OnlyLooked R.turn seat.old seat.new }
{
    its_seat_alone_tells::<D, O>();
    it_stands_where_it_saw_more::<D, O>();
    kept.is_kept();
    if node.halted() {
        kept.show(rt, turn, seat);
        return Err(AdminFault::Halted {
            count: node.count(),
        });
    }
    if kept.last(line.client) >= line.number {
        kept.is_led();
        return Err(AdminFault::Repeated);
    }
    scm.ready(rt, alloc, turn)?;
    match carry_out(rt, alloc, turn, scm, node, kept, seat, line) {
        Ok(done) => answer_of(done),
        Err(_memory) => Err(AdminFault::OutOfMemory),
    }
}

/// The same of one whose disks haven't failed, with room for the event of the storage container manager. Where a disk fails now
/// the answer is how often both have. Where nothing happens the room is given back.
fn carry_out<D: Disk, S: Disk, O: Opened, R: Ring, W: Wait>(
    rt: &W,
    alloc: Global,
    turn: &Turn<Ledger<O>>,
    scm: &mut ScmCell<S, Ledger<O>, O, R>,
    node: &mut Datanode<D>,
    kept: &mut NodeSeat<Ledger<O>, O, R>,
    seat: &mut Seat<Ledger<O>>,
    line: &Line,
) -> Result<Result<(), u64>, OutOfMemory>
    requires seat { MayTake R.turn (turn_id turn.now) seat.old }
    requires able { MayChange D.Disk O.Opened kept.old node.old }
    requires scm_room { 1 ≤ scm.old.room }
    requires idle { IsIdle node.old }
    requires client { line.now.client ≤ MOST }
    requires behind { slice_index kept.old.last line.now.client < line.now.number }
    requires line { O.coherent → HasItDone O.script (seen_of seat.old) kept.old.dn done.Wipe line.now }
    ensures empties { IfOk result (Empties D.told D.clock D.image D.faults O.coherent node.old node.new) }
    ensures idle { IsIdle node.new }
    ensures seats { IfOk result (λ r. HaveTold kept.old kept.new scm.old scm.new (wipe_event kept.old.dn r) (runs_now node.new)) }
    ensures last { IfOk result (λ r. kept.new.last ≡ last_wiped line.now kept.old.last r) }
    ensures has_told { IfOk result (λ r. HasTold O.coherent kept.old.dn (wipe_event kept.old.dn r) (seen_of seat.old)
        (seen_of seat.new)) }
    ensures undone { OnErr result (WasLeft kept.old kept.new node.old node.new) }
    ensures scm_left { OnErr result ((scm.new.scm ≡ scm.old.scm) × (scm.new.mine ≡ scm.old.mine)) }
    ensures stays { StillStands D.Disk O.Opened kept.old kept.new node.new }
    ensures left { scm.new.room + 1 ≡ scm.old.room }
    ensures scm_goes_on { BeginsWith scm.new.seen scm.old.seen }
    ensures looked { OnlyLooked R.turn seat.old seat.new }
    ensures seen { seen_of seat.new ≡ kept.new.seen }
{
    it_stands_where_it_saw_more::<D, O>();
    a_datanode_alone_tells_that_it_runs::<O>();
    the_scm_alone_tells::<O>();
    match see_to(rt, alloc, turn, node, kept, seat, line) {
        Ok(done) => {
            kept.track(rt, turn, scm, seat, runs(node));
            Ok(done)
        }
        Err(error) => {
            scm.unready(rt, turn);
            Err(error)
        }
    }
}

/// Takes everything away and tells the Wipe, or the Halt. Another seat sees all of it.
///
/// Errors: where there is no memory, or the line was told its answer before, nothing happens.
fn see_to<D: Disk, O: Opened, R: Ring, W: Wait>(
    rt: &W,
    alloc: Global,
    turn: &Turn<Ledger<O>>,
    node: &mut Datanode<D>,
    kept: &mut NodeSeat<Ledger<O>, O, R>,
    seat: &mut Seat<Ledger<O>>,
    line: &Line,
) -> Result<Result<(), u64>, OutOfMemory>
    requires seat { MayTake R.turn (turn_id turn.now) seat.old }
    requires able { MayChange D.Disk O.Opened kept.old node.old }
    requires idle { IsIdle node.old }
    requires client { line.now.client ≤ MOST }
    requires behind { slice_index kept.old.last line.now.client < line.now.number }
    requires line { O.coherent → HasItDone O.script (seen_of seat.old) kept.old.dn done.Wipe line.now }
    ensures empties { IfOk result (Empties D.told D.clock D.image D.faults O.coherent node.old node.new) }
    ensures idle { IsIdle node.new }
    ensures its { IfOk result (λ r. kept.new.mine ≡ kept.old.mine ++ by_node kept.old.dn (wipe_event kept.old.dn r) ∷ []) }
    ensures last { IfOk result (λ r. kept.new.last ≡ last_wiped line.now kept.old.last r) }
    ensures told { IfOk result (λ r. IsAppended (by_node kept.old.dn (wipe_event kept.old.dn r)) kept.old.seen (seen_of seat.old)
        kept.new.seen) }
    ensures undone { OnErr result (WasLeft kept.old kept.new node.old node.new) }
    ensures stays { StillStands D.Disk O.Opened kept.old kept.new node.new }
    ensures looked { OnlyLooked R.turn seat.old seat.new }
    ensures seen { seen_of seat.new ≡ kept.new.seen }
{
    match kept.do_for(rt, alloc, turn, seat, node, line, NodeCommand::Wipe) {
        Ok(()) => Ok(Ok(())),
        Err(DoneRefusal::Halted { count }) => Ok(Err(count)),
        Err(DoneRefusal::Told) => Err(OutOfMemory),
        Err(DoneRefusal::OutOfMemory) => Err(OutOfMemory),
    }
}

/// What is answered where it was done, or a disk failed.
fn answer_of(done: Result<(), u64>) -> Result<(), AdminFault>
    ensures { result ≡ answer_of done }
{
    match done {
        Ok(()) => Ok(()),
        Err(count) => Err(AdminFault::Halted { count }),
    }
}

/// Whether neither a disk nor a line has stopped it.
fn runs<D: Disk>(node: &Datanode<D>) -> bool
    ensures { result ≡ runs_now node.now }
{
    node.running()
}
