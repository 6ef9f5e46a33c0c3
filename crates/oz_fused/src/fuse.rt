//! A count of calls that disks share.

use crate::OutOfMemory;
use std::alloc::Global;
use std::sync::Arc;
use std::sync::atomic::{AtomicU64, Ordering};

/// How many calls pass yet. All fuses that were shared from one have one count, on whichever threads they are. No clause
/// tells it, since other threads may take of it at any moment: that as many calls pass as were given is for tests to show.
#[derive(Drop)]
pub struct Fuse {
    left: Arc<AtomicU64, Global>,
}

impl Fuse {
    /// A fuse that lets so many calls pass, in all.
    pub fn new(alloc: Global, calls: u64) -> Result<Fuse, OutOfMemory> {
        Ok(Fuse {
            left: Arc::new(alloc, AtomicU64::new(calls))?,
        })
    }

    /// The same fuse once more, for another disk. It takes no memory, and fails only where the fuse has 2^63 - 1 holders.
    pub fn share(&self, _alloc: Global) -> Result<Fuse, OutOfMemory> {
        Ok(Fuse {
            left: Arc::try_clone(&self.left)?,
        })
    }

    /// How many calls pass yet. It never rises.
    pub fn left(&self) -> u64 {
        self.left.load(Ordering::SeqCst)
    }

    /// Takes one of the calls that are left, and says whether there was one. At 0 the count stays, so that it never wraps.
    pub(crate) fn take(&self) -> bool {
        self.left
            .fetch_update(Ordering::SeqCst, Ordering::SeqCst, |left| {
                left.checked_sub(1)
            })
            .is_ok()
    }
}
