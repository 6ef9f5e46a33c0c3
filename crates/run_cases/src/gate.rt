//! A gate that counts who passes it, and at which the flusher lets other threads go first.

use oz_world::{Gate, Point};
use std::sync::Wait;
use std::sync::atomic::{AtomicU64, Ordering};
use std::thread::yield_now;

/// How often the flusher passed, before it writes to the manager's journal, and how often others did.
#[derive(Drop)]
pub struct CountingGate {
    flusher: AtomicU64,
    others: AtomicU64,
    yields: u64,
}

impl CountingGate {
    /// A gate at which a write of the manager's journal lets other threads go first so often.
    pub fn new(yields: u64) -> CountingGate {
        CountingGate {
            flusher: AtomicU64::new(0),
            others: AtomicU64::new(0),
            yields,
        }
    }

    pub fn flusher(&self) -> u64 {
        self.flusher.load(Ordering::SeqCst)
    }

    pub fn others(&self) -> u64 {
        self.others.load(Ordering::SeqCst)
    }
}

impl Gate for CountingGate {
    fn pass<R: Wait>(&self, _rt: &R, point: Point, who: u16) {
        let passes = if point == Point::ManagerWrite && who == 0 {
            &self.flusher
        } else {
            &self.others
        };
        passes.fetch_add(1, Ordering::SeqCst);
        if point == Point::ManagerWrite {
            for _ in 0..self.yields {
                yield_now();
            }
        }
    }
}
