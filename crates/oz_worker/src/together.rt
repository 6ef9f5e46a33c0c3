//! The jobs of a run: on threads of their own, and what they leave on the caller's.

ghost use Rattle.std.specs.Prelude.{◌≡◌};

use crate::job::Job;
use oz_at_work::{Loaded, Shared};
use oz_buffer::{Ledger, Opened};
use oz_core::Event;
use oz_flusher::{Flushing, Mounted};
use oz_turn::{Ring, Told};
use oz_world::{Disk, Gate};
use std::sync::atomic::AtomicU64;
use std::sync::{Mutex, Wait};
use std::thread::{Threads, for_each_mut};

/// Does all jobs, each on a thread of its own. Where a thread can't be made a job is done behind others; what is left
/// then, and what workers gave up, is for `finish`.
pub fn work_together<
    D: Disk + Send,
    O: Opened + Send + Sync,
    L: Loaded + Send + Sync,
    M: Mounted + Send + Sync,
    R: Ring + Send + Sync,
    W: Threads + Wait + Sync,
    G: Gate + Sync,
>(
    shared: &Shared<'_, D, O, L, R, W, G>,
    flushing: &Mutex<Flushing<D, Ledger<O>, O, M, R>>,
    jobs: &mut [Job<'_, Ledger<O>, O, R>],
)
    ensures { jobs.new ≡ jobs.old }
{
    if jobs.is_empty() {
        return;
    }
    let threads = jobs.len();
    let at_work = AtomicU64::new(workers_in(jobs));
    let run = |_: usize, job: &mut Job<'_, Ledger<O>, O, R>|
        ensures { job.exit.now ≡ job.entry.now }
    { job.run(shared, flushing, &at_work) };
    for_each_mut(shared.rt, jobs, threads, &run);
}

/// Serves on the caller's thread what the jobs have left, worker after worker, each from its own seat, until nothing
/// goes on any more. Says whether all lines were told: else there was no memory, or a line waits for one that nobody
/// serves.
pub fn finish<D: Disk, O: Opened, L: Loaded, M: Mounted, R: Ring, W: Wait, G: Gate>(
    shared: &Shared<'_, D, O, L, R, W, G>,
    flushing: &Mutex<Flushing<D, Ledger<O>, O, M, R>>,
    jobs: &mut [Job<'_, Ledger<O>, O, R>],
) -> bool
    ensures { jobs.new ≡ jobs.old }
{
    for _ in shared.rt.forever() {
        if !each_goes_on(shared, flushing, jobs) {
            return jobs.iter().all(|job| job.is_done());
        }
    }
    unreachable!()
}

/// Each worker serves its clients as far as they can go on without other workers. Says whether anything went on.
fn each_goes_on<D: Disk, O: Opened, L: Loaded, M: Mounted, R: Ring, W: Wait, G: Gate>(
    shared: &Shared<'_, D, O, L, R, W, G>,
    flushing: &Mutex<Flushing<D, Ledger<O>, O, M, R>>,
    jobs: &mut [Job<'_, Ledger<O>, O, R>],
) -> bool
    ensures { jobs.new ≡ jobs.old }
{
    let mut went_on = false;
    for job in jobs.iter_mut() {
        if job.go_on(shared, flushing) {
            went_on = true;
        }
    }
    went_on
}

/// How many workers there are.
fn workers_in<T: Told<Entry = Event>, O: Opened, R: Ring>(jobs: &[Job<'_, T, O, R>]) -> u64 {
    let mut workers: u64 = 0;
    for job in jobs {
        if job.is_worker() {
            workers = workers.saturating_add(1);
        }
    }
    workers
}
