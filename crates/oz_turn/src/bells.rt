//! Where a thread waits until its ticket is served. What is here does nothing to the table, and nothing is claimed of it.

use std::alloc::{AllocError as OutOfMemory, Global};
use std::hint::spin_loop;
use std::sync::Wait;
use std::sync::atomic::{AtomicU64, Ordering};

// So often a thread looks whose ticket is the next one, and so often another, before it sleeps.
const LOOKS_OF_NEXT: u32 = 4_000;

const LOOKS: u32 = 1_000;

const SILENT: u64 = 0;

const ASLEEP: u64 = 1;

/// A bell for each ticket that may be out at once: no two of those have one bell. It says whether a thread sleeps by it,
/// or is about to.
#[derive(Drop)]
pub(crate) struct Bells {
    bells: Vec<AtomicU64>,
}

/// What a thread has done since it drew its ticket.
#[derive(Clone, Copy)]
pub(crate) struct Waited {
    looks: u32,
    at_bell: bool,
}

impl Waited {
    pub(crate) fn new() -> Waited {
        Waited {
            looks: 0,
            at_bell: false,
        }
    }
}

impl Bells {
    pub(crate) fn new(alloc: Global, seats: u16) -> Result<Bells, OutOfMemory> {
        let mut bells = Vec::with_capacity(alloc, usize::from(seats))?;
        for _ in 0..seats {
            bells.push(AtomicU64::new(SILENT))?;
        }
        Ok(Bells { bells })
    }

    fn of(&self, ticket: u64) -> Option<&AtomicU64> {
        let place = ticket.checked_rem(self.bells.len() as u64)?;
        self.bells.get(place as usize)
    }

    /// One step of waiting, between two looks at the turn that is served. It sleeps only where the thread said so at its
    /// bell before its last look: whoever serves its ticket later finds that, and rings.
    pub(crate) fn wait<R: Wait>(&self, rt: &R, ticket: u64, serving: u64, waited: &mut Waited) {
        let most = if ticket.wrapping_sub(serving) == 1 {
            LOOKS_OF_NEXT
        } else {
            LOOKS
        };
        if waited.looks < most {
            waited.looks += 1;
            spin_loop();
            return;
        }
        let Some(bell) = self.of(ticket) else {
            return;
        };
        if waited.at_bell {
            bell.park(rt, ASLEEP as u32);
        } else {
            bell.store(ASLEEP, Ordering::SeqCst);
        }
        waited.at_bell = !waited.at_bell;
    }

    /// A ticket is served: wakes its thread if it sleeps.
    pub(crate) fn ring(&self, ticket: u64) {
        if let Some(bell) = self.of(ticket) {
            if bell.load(Ordering::SeqCst) == ASLEEP {
                bell.store(SILENT, Ordering::SeqCst);
                bell.wake_one();
            }
        }
    }
}
