//! Sixteen stripes, each behind a lock.

ghost use Rattle.std.specs.Prelude.{◌≡◌, ◌≤◌, ◌<◌, ◌+◌, ℕ, [], length, vec_capacity, IfErr, IsSomeAnd};
ghost use Rattle.std.specs.Sync.Mutex.{mutex_guard_value};
ghost use Rattle.oz_locks.specs.Stripe.{AreSixteen, IsAtRest};
ghost use Rattle.oz_names.specs.declared.limits.TheConstants.{STRIPES};

use crate::loaded::Loaded;
use crate::resting::Resting;
use crate::stripe::Stripe;
use oz_core::Event;
use oz_fields::OutOfMemory;
use oz_names::STRIPES;
use oz_turn::{Ring, Told};
use std::alloc::Global;
use std::sync::{Mutex, MutexGuard, Wait};

/// A stripe that is locked until this is let go.
pub type StripeGuard<'a, T, L, R> = MutexGuard<'a, Resting<T, L, R>>;

/// The sixteen stripes, each behind a lock of its own.
#[derive(Drop)]
pub struct Stripes<T: Told<Entry = Event>, L: Loaded, R: Ring> {
    /// From the last stripe to the first.
    locks: Vec<Mutex<Resting<T, L, R>>>,
    list: Mutex<EmptyList<T, L, R>>,
    ghost count: { length locks.items ≡ STRIPES },
}

/// The list that the stripes came in, empty, for when they leave. It is locked, since two threads may not look at a stripe at
/// once, nor at a list of them.
#[derive(Drop)]
struct EmptyList<T: Told<Entry = Event>, L: Loaded, R: Ring> {
    parts: Vec<Stripe<T, L, R>>,
    ghost empty: { parts.items ≡ [] },
    ghost room: { STRIPES ≤ vec_capacity parts },
}

impl<T: Told<Entry = Event>, L: Loaded, R: Ring> Stripes<T, L, R> {
    pub fn make(
        alloc: Global,
        mut parts: Vec<Stripe<T, L, R>>,
    ) -> Result<Stripes<T, L, R>, (Vec<Stripe<T, L, R>>, OutOfMemory)>
        requires { AreSixteen L.last_index L.coherent L.keeps parts.items }
        ensures { IfErr result (λ error. error.0 ≡ parts) }
    {
        let Ok(mut locks) = Vec::with_capacity(alloc, usize::from(STRIPES)) else {
            return Err((parts, OutOfMemory));
        };
        while let Some(stripe) = parts.pop() {
            locks.push_reserved(Mutex::new(Resting::of(stripe)));
        }
        Ok(Stripes {
            locks,
            list: Mutex::new(EmptyList { parts }),
        })
    }

    /// The sixteen stripes in order, in the list that they came in. It takes no memory.
    pub fn into_parts<W: Wait>(self, rt: &W) -> Vec<Stripe<T, L, R>>
        ensures { AreSixteen L.last_index L.coherent L.keeps result.items }
    {
        let Stripes { mut locks, list } = self;
        let EmptyList { mut parts } = list.into_inner();
        while let Some(lock) = locks.pop() {
            let stripe = numbered(rt, lock.into_inner(), parts.len());
            parts.push_reserved(stripe);
        }
        parts
    }

    /// Waits for the lock of a stripe, and until the stripe lies behind it.
    pub fn lock<W: Wait>(&self, rt: &W, stripe: u8) -> StripeGuard<'_, T, L, R>
        requires { stripe < STRIPES }
        ensures { IsSomeAnd (mutex_guard_value result) (λ inside. inside.number ≡ stripe) }
    {
        let lock = &self.locks[usize::from(STRIPES - 1 - stripe)];
        for _ in rt.forever() {
            let guard = lock.lock(rt);
            if guard.number() == Some(stripe) {
                return guard;
            }
        }
        unreachable!()
    }
}

/// The stripe that has this number, as the one at each place does.
fn numbered<T: Told<Entry = Event>, L: Loaded, R: Ring, W: Wait>(
    rt: &W,
    resting: Resting<T, L, R>,
    number: usize,
) -> Stripe<T, L, R>
    ensures number { result.number ≡ number }
    ensures rests { IsAtRest L.last_index L.coherent L.keeps result }
{
    if let Some(stripe) = resting.into_stripe()
        && usize::from(stripe.number()) == number
    {
        return stripe;
    }
    for _ in rt.forever() {}
    unreachable!()
}
