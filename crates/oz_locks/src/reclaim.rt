//! What a stripe keeps of rows that may go, so that they are found without a walk.

ghost use Rattle.std.specs.Prelude.{◌≡◌, ◌||◌, ℕ, [], true, false, OnOk, OnErr, IfOk, None, option_copied};
ghost use Rattle.oz_cache.specs.Cache.{newest};
ghost use Rattle.oz_locks.specs.Reclaims.{marks_one};
ghost use Rattle.oz_reclaim.specs.Work.{IsChainWork, is_marked as marked};
ghost use Rattle.oz_reclaim.specs.sweep.Notes.{notes_of};
ghost use Rattle.oz_reclaim.specs.sweep.Swept.{IsSweptTo};
ghost use Rattle.oz_rows.specs.RowMaps.{Rows};

use oz_cache::Cached;
use oz_fields::OutOfMemory;
use oz_reclaim::{Sweep, chain_work};
use oz_requests::Request;
use oz_rows::{Change, Row, SnapshotState};
use std::alloc::Global;

/// The sweep of a stripe's rows, and whether one of them may be that of a deleted snapshot.
#[derive(Drop)]
pub struct Reclaim {
    pub(crate) sweep: Sweep,
    pub(crate) may_be_marked: bool,
}

impl Reclaim {
    /// For rows of which none was looked at. It takes no memory.
    pub(crate) fn new(alloc: Global) -> Reclaim
        ensures noted { result.sweep.noted ≡ [] }
        ensures swept { (all : Rows) (upto : ℕ) → IsSweptTo result.sweep upto all }
        ensures marked { result.may_be_marked ≡ true }
    {
        Reclaim {
            sweep: Sweep::new(alloc),
            may_be_marked: true,
        }
    }

    /// Takes the memory that it takes to note these changes. Where it runs out, no notes are gone.
    pub(crate) fn room(&mut self, alloc: Global, changes: &[Change]) -> Result<(), OutOfMemory>
        ensures flag { self.new.may_be_marked ≡ (self.old.may_be_marked || marks_one changes.now) }
        ensures ready { OnOk result (self.new.sweep ≡ record self.old.sweep { ready = notes_of changes.now }) }
        ensures same { OnErr result (self.new.sweep ≡ self.old.sweep) }
    {
        self.may_be_marked = self.may_be_marked || is_one_marked(changes);
        self.sweep.room(alloc, changes)
    }

    /// The request by which the first of the deleted snapshots is worked off. It looks for one only where there may be one.
    pub(crate) fn next_work(
        &mut self,
        alloc: Global,
        cached: &Cached,
    ) -> Result<Option<Request>, OutOfMemory>
        requires { self.old.may_be_marked ≡ false → IsChainWork (newest cached.now) None }
        ensures work { IfOk result (IsChainWork (newest cached.now)) }
        ensures flag { self.new.may_be_marked ≡ false → IsChainWork (newest cached.now) None }
        ensures same { self.new.sweep ≡ self.old.sweep }
    {
        if !self.may_be_marked {
            return Ok(None);
        }
        let work = chain_work(alloc, cached)?;
        self.may_be_marked = work.is_some();
        Ok(work)
    }
}

/// Whether one of the changes puts the row of a deleted snapshot.
fn is_one_marked(changes: &[Change]) -> bool
    ensures { result ≡ marks_one changes.now }
{
    changes.iter().any(|change| is_marked(change.row.as_ref()))
}

fn is_marked(row: Option<&Row>) -> bool
    ensures { result ≡ marked (option_copied row.entry) }
{
    match row {
        Some(Row::Snapshot { state, .. }) => *state == SnapshotState::Marked,
        _ => false,
    }
}
