//! Behind the join what nothing reaches any more is freed.

ghost use Rattle.std.specs.Prelude.{◌≡◌};
ghost use Rattle.oz_kept.specs.reopened.Left.{NumbersAreApart};
ghost use Rattle.oz_service.specs.Pass.{GoesOn};

use oz_buffer::{Ledger, Opened};
use oz_flusher::{Flushing, Mounted, flush_in_turn};
use oz_locks::Loaded;
use oz_service::{Lent, Parts, Passed, Service};
use oz_turn::Ring;
use oz_worker::Shared;
use oz_world::{Disk, Gate};
use std::sync::{Mutex, Wait};

/// How often the service job passes at most. A pass purges up to 1,024 rows of each stripe. Over disks that don't agree a row may be
/// found again and again.
const MOST_PASSES: u8 = 64;

/// Lets the service job pass over and over, and flushes what each pass decided, until one finds nothing to do, or can't go on for want
/// of memory or since a node halted, or it has passed 64 times. What is left then is for a later run.
pub(crate) fn free<D: Disk, O: Opened, L: Loaded, M: Mounted, R: Ring, W: Wait, G: Gate>(
    shared: &Shared<'_, D, O, L, R, W, G>,
    flushing: &Mutex<Flushing<D, Ledger<O>, O, M, R>>,
    service: &mut Service<Ledger<O>, O, R>,
)
    requires apart { O.coherent → NumbersAreApart O.opening }
    ensures { GoesOn service.old service.new }
{
    let parts = Parts {
        lent: Lent {
            rt: shared.rt,
            alloc: shared.alloc,
            turn: shared.turn,
            scm: &shared.servers.scm,
            nodes: &shared.servers.nodes,
        },
        manager: &shared.servers.manager,
    };
    let count = shared.servers.node_count();
    for _ in 0..MOST_PASSES {
        let passed = service.pass(&parts, count);
        let flushed = flush_in_turn(shared.rt, flushing, shared.turn, shared.gate);
        if flushed.is_err() || !matches!(passed, Ok(Passed::WentOn | Passed::Waits)) {
            return;
        }
    }
}
