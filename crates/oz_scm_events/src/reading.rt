//! What the log of deleted blocks has.

ghost use Rattle.std.specs.Prelude.{◌≡◌, ◌↔◌, IsTrue, IfOk, ℕ};
ghost use Rattle.std.specs.FinMap.{entries};
ghost use Rattle.std.specs.Map.Iter.{ShowsInOrder, deref_pair};
ghost use Rattle.oz_dellog.specs.declared.logged.Logged.{Logged as AnyLogged};
ghost use Rattle.oz_dellog.specs.Log.{IsLogged, pending};
ghost use Rattle.oz_scm.specs.grants.Made.{log_of};

use crate::cell::ScmCell;
use oz_buffer::{Opened, OutOfMemory};
use oz_core::Event;
use oz_dellog::{Logged, Txn};
use oz_fields::Block;
use oz_turn::{Ring, Told};
use oz_world::Disk;
use std::alloc::Global;
use std::collections::btree_map::Iter;

impl<D: Disk, T: Told<Entry = Event>, O: Opened, R: Ring> ScmCell<D, T, O, R> {
    /// The number of the last transaction that was logged, retired or not, 0 for none.
    pub fn last_txn(&self) -> u64
        ensures { result ≡ self.now.scm.made.last_txn }
    {
        self.scm.last_txn()
    }

    /// Whether a transaction that isn't retired names the block.
    pub fn names(&self, block: Block) -> bool
        ensures { IsTrue result ↔ IsLogged (log_of self.now.scm.made) block }
    {
        self.scm.logged(block)
    }

    /// The transactions of a container that a datanode hasn't acknowledged, in the order of their numbers.
    pub fn pending(&self, alloc: Global, container: u64, dn: u8) -> Result<Vec<Txn>, OutOfMemory>
        ensures { IfOk result (λ txns. txns.items ≡ pending (log_of self.now.scm.made) container dn) }
    {
        self.scm.pending_in(alloc, container, dn)
    }

    /// What was logged and isn't retired, in the order of the numbers, with who acknowledged it.
    pub fn unretired(&self) -> Iter<'_, u64, Logged>
        ensures rest { result ≡ entries self.now.scm.made.unretired }
        ensures runs { ShowsInOrder (deref_pair {K = ℕ} {X = AnyLogged}) }
    {
        self.scm.unretired()
    }
}
