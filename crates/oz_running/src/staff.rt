//! What a run is made of before its threads start.

ghost use Rattle.std.specs.Prelude.{◌≡◌, ◌≤◌, ◌+◌, length, vec_capacity, vec_len, IfErr, IfOk};
ghost use Rattle.oz_core.specs.Seats.{datanode_seat, first_worker_seat, scm_seat};
ghost use Rattle.oz_script.specs.lines.Numbered.{IsNumbered};
ghost use Rattle.oz_nodes.specs.declared.nodes.TheConstants.{FEWEST_NODES, MOST_NODES};
ghost use Rattle.oz_headline.specs.Opens.{Opens};
ghost use Rattle.oz_headline.specs.Seated.{ArePartsOf, ArePlaced};
ghost use Rattle.oz_running.specs.Given.{NodesAreGiven};
ghost use Rattle.oz_running.specs.Staff.{IsStaff};
ghost use Rattle.oz_turn.specs.Seat.{AreNewSeats, IsNewSeat};

use crate::hiring::hired;
use crate::parting::{Parted, parted_seats};
use oz_buffer::{Ledger, Opened};
use oz_core::Event;
use oz_datanode::Datanode;
use oz_fields::OutOfMemory;
use oz_headline::Manager;
use oz_loaded::Unseated;
use oz_locks::Loaded;
use oz_scm::Scm;
use oz_script::Script;
use oz_turn::{Ring, Seat, Told};
use oz_worker::{Job, Servers};
use oz_world::Disk;
use std::alloc::Global;

/// The servers and the jobs in their seats, the seats of the flusher and of the service job, and those that give nothing.
#[derive(Drop)]
pub(crate) struct Staff<'s, D: Disk, T: Told<Entry = Event>, O: Opened, L: Loaded, R: Ring> {
    pub(crate) servers: Servers<D, T, O, L, R>,
    pub(crate) jobs: Vec<Job<'s, T, O, R>>,
    pub(crate) flusher: Seat<T>,
    pub(crate) service: Seat<T>,
    pub(crate) quiet: Quiet<T>,
}

/// The seats that give nothing, of the caller and of the datanodes that aren't there; and the list that all seats came in, empty.
#[derive(Drop)]
pub(crate) struct Quiet<T: Told<Entry = Event>> {
    pub(crate) caller: Seat<T>,
    pub(crate) absent: Vec<Seat<T>>,
    pub(crate) all: Vec<Seat<T>>,
}

/// The manager alone of the servers, and the seats of the others.
#[derive(Drop)]
struct Seated<'s, T: Told<Entry = Event>, O: Opened, L: Loaded, R: Ring> {
    manager: Manager<T, O, L, R>,
    jobs: Vec<Job<'s, T, O, R>>,
    flusher: Seat<T>,
    service: Seat<T>,
    quiet: Quiet<T>,
    scm: Seat<T>,
    nodes: Vec<Seat<T>>,
}

/// Takes all memory that a run needs to hand out what it made. Where there is none the storage container manager and the
/// datanodes come back.
pub(crate) fn staffed<'s, D: Disk, O: Opened, L: Loaded, R: Ring>(
    alloc: Global,
    script: &'s Script,
    unseated: Unseated,
    scm: Scm<D>,
    nodes: Vec<Datanode<D>>,
    seats: Vec<Seat<Ledger<O>>>,
    workers: u8,
) -> Result<Staff<'s, D, Ledger<O>, O, L, R>, (Scm<D>, Vec<Datanode<D>>, OutOfMemory)>
    requires opens { Opens O.coherent O.opening O.bytes L.rows L.last_index L.coherent L.keeps }
    requires parts { ArePartsOf L.rows L.last_index unseated.parts }
    requires script { script.now ≡ O.script }
    requires numbered { IsNumbered O.script }
    requires nodes { NodesAreGiven D.told D.clock D.image D.faults O.coherent O.opening O.bytes O.script O.faults scm nodes.items }
    requires count { vec_len seats ≡ first_worker_seat + workers }
    requires few { workers ≤ 16 }
    requires seats { AreNewSeats R.turn seats.items }
    ensures staff { IfOk result (λ staff. IsStaff R.turn workers (length O.opening.nodes) staff.jobs.items
        staff.flusher staff.service staff.quiet) }
    ensures scm { IfErr result (λ refused. refused.0 ≡ scm) }
    ensures nodes { IfErr result (λ refused. refused.1.items ≡ nodes.items) }
{
    let count = nodes.len() as u8;
    let Seated {
        manager,
        jobs,
        flusher,
        service,
        quiet,
        scm: seat_of_scm,
        nodes: seats_of_nodes,
    } = match seat_all::<O, L, R>(alloc, script, unseated, seats, count, workers) {
        Ok(seated) => seated,
        Err(error) => return Err((scm, nodes, error)),
    };
    match Servers::make(alloc, manager, scm, nodes, seat_of_scm, seats_of_nodes) {
        Ok(servers) => Ok(Staff {
            servers,
            jobs,
            flusher,
            service,
            quiet,
        }),
        Err(refused) => Err(refused),
    }
}

/// The same without the servers, where there are so many datanodes.
fn seat_all<'s, O: Opened, L: Loaded, R: Ring>(
    alloc: Global,
    script: &'s Script,
    unseated: Unseated,
    mut seats: Vec<Seat<Ledger<O>>>,
    nodes: u8,
    workers: u8,
) -> Result<Seated<'s, Ledger<O>, O, L, R>, OutOfMemory>
    requires opens { Opens O.coherent O.opening O.bytes L.rows L.last_index L.coherent L.keeps }
    requires parts { ArePartsOf L.rows L.last_index unseated.parts }
    requires script { script.now ≡ O.script }
    requires numbered { IsNumbered O.script }
    requires count { vec_len seats ≡ first_worker_seat + workers }
    requires few { workers ≤ 16 }
    requires seats { AreNewSeats R.turn seats.items }
    requires least { FEWEST_NODES ≤ nodes }
    requires most { nodes ≤ MOST_NODES }
    requires opened { nodes ≡ length O.opening.nodes }
    ensures staff { IfOk result (λ seated. IsStaff R.turn workers nodes seated.jobs.items seated.flusher
        seated.service seated.quiet) }
    ensures scm { IfOk result (λ seated. IsNewSeat R.turn scm_seat seated.scm) }
    ensures node_count { IfOk result (λ seated. length seated.nodes.items ≡ nodes) }
    ensures nodes { IfOk result (λ seated. ArePlaced (λ dn s. IsNewSeat R.turn (datanode_seat dn) s)
        seated.nodes.items) }
{
    let Parted {
        flusher,
        service,
        caller,
        scm,
        nodes: seats_of_nodes,
        absent,
        stripes,
        workers: seats_of_workers,
    } = parted_seats::<Ledger<O>, R>(&mut seats, nodes)?;
    let _workers = workers;
    let jobs = hired::<O, R>(alloc, script, seats_of_workers, nodes)?;
    match Manager::seat(alloc, unseated, stripes) {
        Ok(manager) => Ok(Seated {
            manager,
            jobs,
            flusher,
            service,
            quiet: Quiet {
                caller,
                absent,
                all: seats,
            },
            scm,
            nodes: seats_of_nodes,
        }),
        Err((_unseated, _seats, error)) => Err(error),
    }
}
