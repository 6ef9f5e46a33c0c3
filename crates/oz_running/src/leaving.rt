//! All nodes leave, and all seats.

ghost use Rattle.std.specs.Prelude.{◌≡◌, ◌≤◌, ◌+◌, ◌-◌, ◌++◌, ◌∷◌, [], length, vec_capacity, vec_len};
ghost use Rattle.oz_core.specs.Seats.{caller_seat, datanode_seat, first_worker_seat};
ghost use Rattle.oz_nodes.specs.declared.nodes.TheConstants.{MOST_NODES};
ghost use Rattle.oz_running.specs.Jobs.{AreJobs};
ghost use Rattle.oz_running.specs.Left.{IsLeft};
ghost use Rattle.oz_running.specs.Seats.{AddsReady, AreNewFrom};
ghost use Rattle.oz_service.specs.Pass.{AskedMore};
ghost use Rattle.oz_turn.specs.Seat.{IsNewSeat};

use crate::staff::Quiet;
use oz_buffer::{Ledger, Opened};
use oz_core::Event;
use oz_datanode::Datanode;
use oz_flusher::{Flushing, Mounted};
use oz_journal::Journal;
use oz_locks::Loaded;
use oz_scm::Scm;
use oz_service::Service;
use oz_turn::{Ring, Seat, Told};
use oz_worker::{Job, Parts, Servers};
use oz_world::Disk;
use std::sync::Wait;

/// What the threads of a run leave: the manager's journal, the storage container manager, the datanodes in the order of
/// their numbers, and so all seats.
#[derive(Drop)]
pub(crate) struct Left<D: Disk, T: Told<Entry = Event>> {
    pub(crate) journal: Journal<D>,
    pub(crate) scm: Scm<D>,
    pub(crate) nodes: Vec<Datanode<D>>,
    pub(crate) seats: Vec<Seat<T>>,
}

/// All nodes leave, and all seats, in the list that they came in: those of the servers, of the flusher, of the service job, of who
/// gave nothing, and of the jobs. It takes no memory.
pub(crate) fn all_leave<D: Disk, O: Opened, L: Loaded, M: Mounted, R: Ring, W: Wait>(
    rt: &W,
    servers: Servers<D, Ledger<O>, O, L, R>,
    flushing: Flushing<D, Ledger<O>, O, M, R>,
    service: Service<Ledger<O>, O, R>,
    mut jobs: Vec<Job<'_, Ledger<O>, O, R>>,
    quiet: Quiet<Ledger<O>>,
) -> Left<D, Ledger<O>>
    requires some { 1 ≤ length jobs.items }
    requires jobs { AreJobs (length jobs.items - 1) jobs.items }
    requires asked { AskedMore [] service.mine }
    requires caller { IsNewSeat R.turn caller_seat quiet.caller }
    requires absent_count { length O.opening.nodes + length quiet.absent.items ≡ MOST_NODES }
    requires absent { AreNewFrom R.turn (datanode_seat (length O.opening.nodes)) quiet.absent.items }
    requires none { quiet.all.items ≡ [] }
    requires room { first_worker_seat + (length jobs.items - 1) ≤ vec_capacity quiet.all }
    ensures count { length result.seats.items ≡ first_worker_seat + (length jobs.entry.items - 1) }
    ensures left { IsLeft D.told D.clock D.image D.faults O.coherent O.opening O.bytes O.script O.faults R.turn O.bodies
        M.disk L.rows result.journal.stopped result.journal.disk result.scm result.nodes.items result.seats.items }
{
    let (journal, flusher) = flushing.into_parts();
    let Parts {
        manager,
        scm,
        seat_of_scm,
        nodes,
        seats_of_nodes,
    } = servers.into_parts(rt);
    let stripes = manager.into_seats(rt);
    let Quiet {
        caller,
        absent,
        mut all,
    } = quiet;
    add_first(&mut all, flusher, service.into_seat(), caller, seat_of_scm);
    add_all(&mut all, seats_of_nodes);
    add_all(&mut all, absent);
    add_all(&mut all, stripes);
    let _flusher = jobs.pop();
    add_workers(jobs, &mut all);
    Left {
        journal,
        scm,
        nodes,
        seats: all,
    }
}

/// The seats before those of the datanodes come into a list that has room for all: that of the flusher, of the service job, of the
/// caller, and of the storage container manager.
fn add_first<T: Told<Entry = Event>>(
    all: &mut Vec<Seat<T>>,
    flusher: Seat<T>,
    service: Seat<T>,
    caller: Seat<T>,
    scm: Seat<T>,
)
    requires none { all.old.items ≡ [] }
    requires room { 4 ≤ vec_capacity all.old }
    ensures items { all.new.items ≡ flusher ∷ service ∷ caller ∷ scm ∷ [] }
    ensures room { vec_capacity all.old ≤ vec_capacity all.new }
{
    all.push_reserved(flusher);
    all.push_reserved(service);
    all.push_reserved(caller);
    all.push_reserved(scm);
}

/// Seats are added behind the others of a list that has room for them.
fn add_all<T: Told<Entry = Event>>(all: &mut Vec<Seat<T>>, mut more: Vec<Seat<T>>)
    requires room { vec_len all.old + vec_len more ≤ vec_capacity all.old }
    ensures items { all.new.items ≡ all.old.items ++ more.items }
    ensures room { vec_capacity all.old ≤ vec_capacity all.new }
{
    let Ok(()) = all.append(&mut more) else {
        unreachable!()
    };
}

/// The seats of workers are added behind the others.
fn add_workers<O: Opened, R: Ring>(
    mut jobs: Vec<Job<'_, Ledger<O>, O, R>>,
    all: &mut Vec<Seat<Ledger<O>>>,
)
    requires jobs { AreJobs (length jobs.items) jobs.items }
    requires count { length all.old.items ≡ first_worker_seat }
    requires room { first_worker_seat + length jobs.items ≤ vec_capacity all.old }
    ensures count { length all.new.items ≡ first_worker_seat + length jobs.entry.items }
    ensures added { AddsReady R.turn all.old.items all.new.items }
{
    while let Some(job) = jobs.pop() {
        let Job::Worker(worker) = job else {
            unreachable!()
        };
        all.push_reserved(worker.into_seat());
    }
}
