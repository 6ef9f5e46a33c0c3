//! What a thread of a run does.

ghost use Rattle.std.specs.Prelude.{◌≡◌};

use crate::flusher::flush_for;
use crate::worker::{FEWEST_LOOKS, Worker};
use oz_at_work::{Loaded, Shared};
use oz_buffer::{Ledger, Opened};
use oz_core::Event;
use oz_flusher::{Flushing, Mounted};
use oz_turn::{Ring, Told};
use oz_world::{Disk, Gate};
use std::sync::atomic::{AtomicU64, Ordering};
use std::sync::{Mutex, Wait};

/// A worker, or the flusher, whose seat stands behind its lock.
#[derive(Drop)]
pub enum Job<'s, T: Told<Entry = Event>, O: Opened, R: Ring> {
    Worker(Worker<'s, T, O, R>),
    Flusher,
}

impl<'s, T: Told<Entry = Event>, O: Opened, R: Ring> Job<'s, T, O, R> {
    /// Whether it is a worker.
    pub(crate) fn is_worker(&self) -> bool {
        matches!(self, Job::Worker(_))
    }

    /// Whether it has nothing left to do.
    pub(crate) fn is_done(&self) -> bool {
        match self {
            Job::Worker(worker) => worker.is_done(),
            Job::Flusher => true,
        }
    }
}

impl<'s, O: Opened, R: Ring> Job<'s, Ledger<O>, O, R> {
    /// Does it on a thread of its own. `at_work` is how many workers are at work.
    pub(crate) fn run<D: Disk, L: Loaded, M: Mounted, W: Wait, G: Gate>(
        &mut self,
        shared: &Shared<'_, D, O, L, R, W, G>,
        flushing: &Mutex<Flushing<D, Ledger<O>, O, M, R>>,
        at_work: &AtomicU64,
    )
        ensures { self.new ≡ self.old }
    {
        match self {
            Job::Worker(worker) => {
                worker.work(shared, flushing);
                at_work.fetch_sub(1, Ordering::SeqCst);
            }
            Job::Flusher => flush_for(shared, flushing, at_work),
        }
    }

    /// A worker serves its clients as far as they can go on without other workers. Says whether anything went on.
    pub(crate) fn go_on<D: Disk, L: Loaded, M: Mounted, W: Wait, G: Gate>(
        &mut self,
        shared: &Shared<'_, D, O, L, R, W, G>,
        flushing: &Mutex<Flushing<D, Ledger<O>, O, M, R>>,
    ) -> bool
        ensures { self.new ≡ self.old }
    {
        match self {
            Job::Worker(worker) => { worker.serve(shared, flushing, FEWEST_LOOKS) }
            Job::Flusher => false,
        }
    }
}
