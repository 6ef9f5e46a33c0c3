//! The jobs of a run.

ghost use Rattle.std.specs.Prelude.{◌≡◌, ◌≤◌, ◌<◌, ◌+◌, length, IfOk};
ghost use Rattle.oz_core.specs.Seats.{first_worker_seat};
ghost use Rattle.oz_script.specs.lines.Numbered.{IsNumbered};
ghost use Rattle.oz_nodes.specs.declared.nodes.TheConstants.{FEWEST_NODES, MOST_NODES};
ghost use Rattle.oz_running.specs.Jobs.{AreJobs, worker_at};
ghost use Rattle.oz_running.specs.Seats.{AreNewFrom};
ghost use Rattle.oz_turn.specs.Seat.{IsReady};

use crate::parting::FIRST_WORKER_SEAT;
use oz_buffer::{Ledger, Opened};
use oz_fields::OutOfMemory;
use oz_script::Script;
use oz_turn::{Ring, Seat};
use oz_worker::{Job, Worker};
use std::alloc::Global;

/// A worker for each of the seats, among whom the clients are shared out, and the flusher.
pub(crate) fn hired<'s, O: Opened, R: Ring>(
    alloc: Global,
    script: &'s Script,
    mut seats: Vec<Seat<Ledger<O>>>,
    nodes: u8,
) -> Result<Vec<Job<'s, Ledger<O>, O, R>>, OutOfMemory>
    requires script { script.now ≡ O.script }
    requires numbered { IsNumbered O.script }
    requires few { length seats.items ≤ 16 }
    requires seats { AreNewFrom R.turn first_worker_seat seats.items }
    requires least { FEWEST_NODES ≤ nodes }
    requires most { nodes ≤ MOST_NODES }
    requires opened { nodes ≡ length O.opening.nodes }
    ensures count { IfOk result (λ jobs. length jobs.items ≡ length seats.items + 1) }
    ensures jobs { IfOk result (λ jobs. AreJobs (length seats.items) jobs.items) }
{
    let workers = seats.len() as u16;
    let mut jobs = Vec::with_capacity(alloc, seats.len() + 1)?;
    while let Some(seat) = seats.pop() {
        let place = seats.len() as u16;
        jobs.push_reserved(hire::<O, R>(alloc, script, seat, place, workers, nodes)?);
    }
    jobs.push_reserved(Job::Flusher);
    Ok(jobs)
}

/// The worker at a place, of so many, with its seat.
fn hire<'s, O: Opened, R: Ring>(
    alloc: Global,
    script: &'s Script,
    seat: Seat<Ledger<O>>,
    place: u16,
    workers: u16,
    nodes: u8,
) -> Result<Job<'s, Ledger<O>, O, R>, OutOfMemory>
    requires script { script.now ≡ O.script }
    requires numbered { IsNumbered O.script }
    requires seat { IsReady R.turn (first_worker_seat + place) seat }
    requires few { workers ≤ 16 }
    requires one { place < workers }
    requires least { FEWEST_NODES ≤ nodes }
    requires most { nodes ≤ MOST_NODES }
    requires opened { nodes ≡ length O.opening.nodes }
    ensures { IfOk result (λ job. job ≡ worker_at workers place) }
{
    match Worker::make(
        alloc,
        script,
        FIRST_WORKER_SEAT + place,
        seat,
        place,
        workers,
        nodes,
    ) {
        Ok(worker) => Ok(Job::Worker(worker)),
        Err((_seat, error)) => Err(error),
    }
}
