//! Datanodes, each behind a lock.

ghost use Rattle.std.specs.Prelude.{◌≡◌, ◌<◌, ◌+◌, ◌↔◌, ℕ, length, IsNone, IsSome, IfOk, IfErr, OnSome};
ghost use Rattle.std.specs.Sync.Mutex.{mutex_guard_value};
ghost use Rattle.oz_replicas.specs.Cells.{AreInOrder};

use crate::cell::NodeCell;
use crate::kept::Kept;
use oz_fields::OutOfMemory;
use oz_world::Disk;
use std::alloc::Global;
use std::marker::Model;
use std::sync::{Mutex, MutexGuard, Wait};

/// A datanode that is locked until this is let go.
pub type NodeGuard<'a, D, K> = MutexGuard<'a, NodeCell<D, K>>;

/// Datanodes by their numbers, each with what is kept beside it behind a lock of its own. Contracts see how many there are.
#[derive(Drop)]
pub struct Nodes<D: Disk, K: Kept<D>> {
    locks: Vec<Mutex<NodeCell<D, K>>>,
}

impl<D: Disk, K: Kept<D>> Model for Nodes<D, K> {
    ghost use Rattle.std.specs.Prelude.{ℕ, length};

    ghost Value = { ℕ };

    ghost view = { λ nodes. length nodes.locks.items };
}

impl<D: Disk, K: Kept<D>> Nodes<D, K> {
    /// The datanode in each place has the number of the place. They come back where there is no memory.
    pub fn make(
        alloc: Global,
        mut parts: Vec<NodeCell<D, K>>,
    ) -> Result<Nodes<D, K>, (Vec<NodeCell<D, K>>, OutOfMemory)>
        requires order { AreInOrder parts.items }
        ensures count { IfOk result (λ nodes. nodes ≡ length parts.items) }
        ensures error { IfErr result (λ error. error.0 ≡ parts) }
    {
        let Ok(mut locks) = Vec::with_capacity(alloc, parts.len()) else {
            return Err((parts, OutOfMemory));
        };
        parts.reverse();
        while let Some(cell) = parts.pop() {
            locks.push_reserved(Mutex::new(cell));
        }
        parts.destroy_empty();
        Ok(Nodes { locks })
    }

    /// Waits for the lock of the datanode of this number.
    pub fn lock<W: Wait>(&self, rt: &W, dn: u8) -> NodeGuard<'_, D, K>
        requires { dn < self.now }
        ensures { (mutex_guard_value result).node.id ≡ dn }
    {
        let lock = &self.locks[usize::from(dn)];
        for _ in rt.forever() {
            let guard = lock.lock(rt);
            if guard.node.id() == dn {
                return guard;
            }
        }
        unreachable!()
    }

    /// Takes the last one out, unless there is none. It takes no memory.
    pub fn pop(&mut self) -> Option<NodeCell<D, K>>
        ensures none { IsNone result ↔ (self.old ≡ 0) }
        ensures empty { self.old ≡ 0 → self.new ≡ 0 }
        ensures taken { OnSome result (self.new + 1 ≡ self.old) }
    {
        let lock = self.locks.pop()?;
        Some(lock.into_inner())
    }

    /// Lets go of them once all were taken out.
    pub fn destroy_empty(self)
        requires { self ≡ 0 }
    {
        self.locks.destroy_empty();
    }
}
