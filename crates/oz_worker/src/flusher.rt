//! The flusher's part of a run.

use crate::pausing::sleep;
use crate::worker::MOST_LOOKS;
use oz_at_work::{Loaded, Shared};
use oz_buffer::{Ledger, Opened};
use oz_flusher::{Flushing, Mounted, flush_in_turn};
use oz_turn::Ring;
use oz_world::{Disk, Gate};
use std::sync::atomic::{AtomicU64, Ordering};
use std::sync::{Mutex, Wait};

/// The microseconds of the flusher's first sleep, by which each is longer than the one before, and those that none is
/// longer than.
const SHORTEST: u64 = 200;

const LONGER: u64 = 50;

const LONGEST: u64 = 1_000;

/// Flushes again and again, until no worker is at work, the manager halts, or there was nothing to flush so often in
/// turn.
pub(crate) fn flush_for<D: Disk, O: Opened, L: Loaded, M: Mounted, R: Ring, W: Wait, G: Gate>(
    shared: &Shared<'_, D, O, L, R, W, G>,
    flushing: &Mutex<Flushing<D, Ledger<O>, O, M, R>>,
    at_work: &AtomicU64,
) {
    let mut looks = MOST_LOOKS;
    let mut flushed_at = None;
    for _ in shared.rt.forever() {
        if at_work.load(Ordering::SeqCst) == 0 || looks == 0 {
            return;
        }
        let length = shared.turn.length();
        if flushed_at != Some(length) {
            match flush_in_turn(shared.rt, flushing, shared.turn, shared.gate) {
                Ok(Some(_)) => {
                    looks = MOST_LOOKS;
                    continue;
                }
                Ok(None) => flushed_at = Some(length),
                Err(_) => return,
            }
        }
        looks -= 1;
        sleep(shared.rt, pause_behind(MOST_LOOKS.saturating_sub(looks)));
    }
}

/// The microseconds for which the flusher sleeps that has found nothing so often in turn. Workers that wait flush themselves
/// meanwhile.
fn pause_behind(found_nothing: u32) -> u64 {
    (SHORTEST + LONGER * u64::from(found_nothing)).min(LONGEST)
}
