//! From the loaded disk to the story.

ghost use Rattle.std.specs.Prelude.{◌≡◌, ◌≤◌, ◌+◌, length, vec_len};
ghost use Rattle.std.specs.Prelude.{IfOk, IfErr};
ghost use Rattle.oz_core.specs.Seats.{first_worker_seat};
ghost use Rattle.oz_script.specs.lines.Numbered.{IsNumbered};
ghost use Rattle.oz_headline.specs.Opens.{Opens};
ghost use Rattle.oz_headline.specs.Seated.{ArePartsOf};
ghost use Rattle.oz_kept.specs.reopened.Left.{NumbersAreApart};
ghost use Rattle.oz_running.specs.Given.{JournalIsGiven, NodesAreGiven};
ghost use Rattle.oz_running.specs.Run.{IsRun};
ghost use Rattle.oz_running.specs.Staff.{IsStaff};
ghost use Rattle.oz_turn.specs.Seat.{AreNewSeats};
ghost use Rattle.oz_turn.specs.Turn.{seats_of, turn_id};

use crate::closing::ended;
use crate::freeing::free;
use crate::leaving::all_leave;
use crate::parting::FIRST_WORKER_SEAT;
use crate::ran::Ran;
use crate::staff::{Staff, staffed};
use crate::unstarted::Unstarted;
use crate::working::work;
use oz_buffer::{Ledger, Opened};
use oz_datanode::Datanode;
use oz_fields::OutOfMemory;
use oz_flusher::{Flusher, Flushing, Mounted};
use oz_loaded::Unseated;
use oz_locks::Loaded;
use oz_scm::Scm;
use oz_script::Script;
use oz_service::Service;
use oz_turn::{Ring, Seat, Turn};
use oz_worker::Shared;
use oz_world::{Disk, Gate};
use std::alloc::Global;
use std::marker::Brand;
use std::sync::{Mutex, Wait};
use std::thread::Threads;

/// Runs the lines of a script over nodes that were loaded, by so many workers and a flusher beside each other, and then
/// by this thread what they leave. Each datanode stands in the place of its number. Where memory runs out before any of
/// them starts, the manager's journal and the other nodes come back as they were. Where no threads can be made this one
/// does it all.
pub fn run_lines<
    D: Disk + Send,
    O: Opened + Send + Sync,
    L: Loaded + Send + Sync,
    M: Mounted + Send + Sync,
    W: Threads + Wait + Sync,
    G: Gate + Sync,
>(
    rt: &W,
    alloc: Global,
    gate: &G,
    script: &Script,
    unseated: Unseated,
    flusher: Flusher<D>,
    scm: Scm<D>,
    nodes: Vec<Datanode<D>>,
    workers: u8,
) -> Result<Ran<D>, (Unstarted<D>, OutOfMemory)>
    requires opens { Opens O.coherent O.opening O.bytes L.rows L.last_index L.coherent L.keeps }
    requires parts { ArePartsOf L.rows L.last_index unseated.parts }
    requires last_index { unseated.last_index ≡ O.opening.last_index }
    requires script { script.now ≡ O.script }
    requires numbered { IsNumbered O.script }
    requires some { 1 ≤ workers }
    requires few { workers ≤ 16 }
    requires nodes { NodesAreGiven D.told D.clock D.image D.faults O.coherent O.opening O.bytes O.script O.faults scm nodes.items }
    requires journal { JournalIsGiven D.told D.clock D.image D.faults O.coherent O.bodies M.disk flusher }
    requires apart { O.coherent → NumbersAreApart O.opening }
    ensures ran { IfOk result (λ ran. IsRun D.told D.clock D.image D.faults O.coherent O.opening O.bytes O.bodies O.script
        O.faults M.disk L.rows (first_worker_seat + workers) ran) }
    ensures journal { IfErr result (λ refused. refused.0.journal ≡ flusher) }
    ensures scm { IfErr result (λ refused. refused.0.scm ≡ scm) }
    ensures nodes { IfErr result (λ refused. refused.0.nodes.items ≡ nodes.items) }
{
    let seats = FIRST_WORKER_SEAT + u16::from(workers);
    match Turn::make(
        alloc,
        Ledger::<O>::over(alloc, unseated.last_index()),
        seats,
    ) {
        Ok((turn, seats)) => {
            run_in_turn::<D, O, L, M, Brand, W, G>(
                rt, alloc, gate, script, unseated, flusher, scm, nodes, turn, seats, workers,
            )
        }
        Err((_ledger, error)) => Err((given_back(flusher, scm, nodes), error)),
    }
}

/// The same, once the turn is named.
fn run_in_turn<
    D: Disk + Send,
    O: Opened + Send + Sync,
    L: Loaded + Send + Sync,
    M: Mounted + Send + Sync,
    R: Ring + Send + Sync,
    W: Threads + Wait + Sync,
    G: Gate + Sync,
>(
    rt: &W,
    alloc: Global,
    gate: &G,
    script: &Script,
    unseated: Unseated,
    flusher: Flusher<D>,
    scm: Scm<D>,
    nodes: Vec<Datanode<D>>,
    turn: Turn<Ledger<O>>,
    seats: Vec<Seat<Ledger<O>>>,
    workers: u8,
) -> Result<Ran<D>, (Unstarted<D>, OutOfMemory)>
    requires opens { Opens O.coherent O.opening O.bytes L.rows L.last_index L.coherent L.keeps }
    requires parts { ArePartsOf L.rows L.last_index unseated.parts }
    requires script { script.now ≡ O.script }
    requires numbered { IsNumbered O.script }
    requires nodes { NodesAreGiven D.told D.clock D.image D.faults O.coherent O.opening O.bytes O.script O.faults scm nodes.items }
    requires journal { JournalIsGiven D.told D.clock D.image D.faults O.coherent O.bodies M.disk flusher }
    requires apart { O.coherent → NumbersAreApart O.opening }
    requires turn { turn_id turn ≡ R.turn }
    requires count { vec_len seats ≡ first_worker_seat + workers }
    requires all { seats_of turn ≡ first_worker_seat + workers }
    requires few { workers ≤ 16 }
    requires seats { AreNewSeats R.turn seats.items }
    ensures ran { IfOk result (λ ran. IsRun D.told D.clock D.image D.faults O.coherent O.opening O.bytes O.bodies O.script
        O.faults M.disk L.rows (seats_of turn) ran) }
    ensures journal { IfErr result (λ refused. refused.0.journal ≡ flusher) }
    ensures scm { IfErr result (λ refused. refused.0.scm ≡ scm) }
    ensures nodes { IfErr result (λ refused. refused.0.nodes.items ≡ nodes.items) }
{
    match staffed::<D, O, L, R>(alloc, script, unseated, scm, nodes, seats, workers) {
        Ok(staff) => Ok(run_staffed::<D, O, L, M, R, W, G>(
            rt, alloc, gate, script, flusher, turn, staff, workers,
        )),
        Err((scm, nodes, error)) => Err((given_back(flusher, scm, nodes), error)),
    }
}

/// What comes back of a run that didn't start. It takes no memory.
fn given_back<D: Disk>(flusher: Flusher<D>, scm: Scm<D>, nodes: Vec<Datanode<D>>) -> Unstarted<D>
    ensures journal { result.journal ≡ flusher }
    ensures scm { result.scm ≡ scm }
    ensures nodes { result.nodes ≡ nodes }
{
    Unstarted {
        journal: flusher.into_journal(),
        scm,
        nodes,
    }
}

/// The same, once there is memory for all of it.
fn run_staffed<
    D: Disk + Send,
    O: Opened + Send + Sync,
    L: Loaded + Send + Sync,
    M: Mounted + Send + Sync,
    R: Ring + Send + Sync,
    W: Threads + Wait + Sync,
    G: Gate + Sync,
>(
    rt: &W,
    alloc: Global,
    gate: &G,
    script: &Script,
    flusher: Flusher<D>,
    turn: Turn<Ledger<O>>,
    staff: Staff<'_, D, Ledger<O>, O, L, R>,
    workers: u8,
) -> Ran<D>
    requires script { script.now ≡ O.script }
    requires numbered { IsNumbered O.script }
    requires journal { JournalIsGiven D.told D.clock D.image D.faults O.coherent O.bodies M.disk flusher }
    requires turn { turn_id turn ≡ R.turn }
    requires all { seats_of turn ≡ first_worker_seat + workers }
    requires staff { IsStaff R.turn workers (length O.opening.nodes) staff.jobs.items staff.flusher staff.service staff.quiet }
    requires apart { O.coherent → NumbersAreApart O.opening }
    ensures { IsRun D.told D.clock D.image D.faults O.coherent O.opening O.bytes O.bodies O.script O.faults M.disk L.rows
        (seats_of turn) result }
{
    let Staff {
        servers,
        mut jobs,
        flusher: seat,
        service,
        quiet,
    } = staff;
    let _workers = workers;
    let flushing = Mutex::new(Flushing::<D, Ledger<O>, O, M, R>::make(flusher, seat));
    let mut service = Service::make(service);
    let shared = Shared::new(rt, alloc, &turn, &servers, gate);
    work(&shared, &flushing, jobs.as_mut_slice());
    free(&shared, &flushing, &mut service);
    let left = all_leave(rt, servers, flushing.into_inner(), service, jobs, quiet);
    ended::<D, O, L, M, R>(turn, script, left)
}
