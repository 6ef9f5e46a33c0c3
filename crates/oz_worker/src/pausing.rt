//! How a thread waits that has found nothing to do.

use std::hint::spin_loop;
use std::sync::Wait;
use std::sync::atomic::AtomicU64;
use std::time::Duration;

/// So often in turn it only lets some time go by on its processor.
const SPINS: u32 = 32;

/// A spin's steps.
const STEPS: u32 = 64;

/// The microseconds by which a sleep is longer than the one before, and those that none is longer than.
const LONGER: u64 = 8;

const LONGEST: u64 = 1_000;

/// A pause of who has found nothing so often in turn: the longer that lasts, the longer it is.
pub(crate) fn pause<W: Wait>(rt: &W, found_nothing: u32) {
    match found_nothing.checked_sub(SPINS) {
        Some(sleeps) => sleep(rt, (LONGER * u64::from(sleeps)).min(LONGEST)),
        None => spin(),
    }
}

fn spin() {
    for _ in 0..STEPS {
        spin_loop();
    }
}

/// Sleeps so many microseconds, and one more.
pub(crate) fn sleep<W: Wait>(rt: &W, micros: u64) {
    let nobody = AtomicU64::new(0);
    nobody.park_timeout(rt, 0, Duration::from_micros(micros.saturating_add(1)));
}
