//! The work of a run.

ghost use Rattle.std.specs.Prelude.{◌≡◌};

use oz_buffer::{Ledger, Opened};
use oz_flusher::{Flushing, Mounted, flush_in_turn};
use oz_locks::Loaded;
use oz_turn::Ring;
use oz_worker::{Job, Shared, finish, work_together};
use oz_world::{Disk, Gate};
use std::sync::{Mutex, Wait};
use std::thread::Threads;

/// Does the jobs, each on a thread of its own, and then on this thread what they leave. At last it flushes what nobody has
/// flushed yet.
pub(crate) fn work<
    D: Disk + Send,
    O: Opened + Send + Sync,
    L: Loaded + Send + Sync,
    M: Mounted + Send + Sync,
    R: Ring + Send + Sync,
    W: Threads + Wait + Sync,
    G: Gate + Sync,
>(
    shared: &Shared<'_, D, O, L, R, W, G>,
    flushing: &Mutex<Flushing<D, Ledger<O>, O, M, R>>,
    jobs: &mut [Job<'_, Ledger<O>, O, R>],
)
    ensures { jobs.new ≡ jobs.old }
{
    work_together(shared, flushing, jobs);
    let _all_done = finish(shared, flushing, jobs);
    let _flushed = flush_in_turn(shared.rt, flushing, shared.turn, shared.gate);
}
