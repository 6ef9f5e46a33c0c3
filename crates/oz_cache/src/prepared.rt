//! Changes for which all memory was taken.

ghost use Rattle.std.specs.Prelude.{◌≡◌, [], ◌∷◌, IfOk};
ghost use Rattle.oz_cache.specs.Cache.{batch_of};

use crate::batch::Batch;
use oz_fields::{List, OutOfMemory, TryClone};
use oz_rows::{Change, RowKey};
use std::alloc::Global;
use std::collections::LinkedList;
use std::marker::Model;

/// A change for the cached rows, and its key once more for the list of epochs.
#[derive(Drop)]
pub struct ListedChange {
    change: Change,
    listed: RowKey,
}

impl Model for ListedChange {
    ghost use Rattle.std.specs.Prelude.{◌≡◌};
    ghost use Rattle.oz_rows.specs.declared.operation.Change.{Change as AnyChange};

    ghost Value = { AnyChange };

    ghost view = { λ c. c.change };

    ghost invariant = { λ c. c.listed ≡ c.change.key };
}

impl ListedChange {
    fn of(alloc: Global, change: &Change) -> Result<ListedChange, OutOfMemory>
        ensures { IfOk result (λ listed. listed ≡ change.now) }
    {
        let listed = change.key.try_clone(alloc)?;
        let change = change.try_clone(alloc)?;
        Ok(ListedChange { change, listed })
    }

    /// The change, and its key once more.
    pub(crate) fn into_parts(self) -> (Change, RowKey)
        ensures change { result.0 ≡ self }
        ensures listed { result.1 ≡ self.key }
    {
        let ListedChange { change, listed } = self;
        (change, listed)
    }
}

/// Changes for which all memory was taken. They stand in a batch that lacks its epoch, and once more
/// for the cached rows.
#[derive(Drop)]
pub struct Prepared {
    batch: LinkedList<Batch>,
    copy: List<ListedChange>,
}

impl Model for Prepared {
    ghost use Rattle.std.specs.Prelude.{◌≡◌, List as Items, [], ◌∷◌};
    ghost use Rattle.oz_rows.specs.declared.operation.Change.{Change as AnyChange};
    ghost use Rattle.oz_cache.specs.Cache.{batch_of};

    ghost Value = { Items AnyChange };

    ghost view = { λ p. p.copy };

    ghost invariant = { λ p. p.batch ≡ batch_of 0 p.copy ∷ [] };
}

impl Prepared {
    /// Takes the memory for these changes.
    pub(crate) fn of(alloc: Global, changes: Vec<Change>) -> Result<Prepared, OutOfMemory>
        ensures { IfOk result (λ prepared. prepared ≡ changes.items) }
    {
        let copy = listed_copy(alloc, &changes)?;
        let changes = List::of(changes);
        let mut batch = LinkedList::new(alloc);
        batch.push_back(Batch { epoch: 0, changes })?;
        Ok(Prepared { batch, copy })
    }

    /// The batch under its epoch, and the changes once more.
    pub(crate) fn under(self, epoch: u64) -> (LinkedList<Batch>, List<ListedChange>)
        ensures batch { result.0 ≡ batch_of epoch self ∷ [] }
        ensures copy { result.1 ≡ self }
    {
        let Prepared { mut batch, copy } = self;
        if let Some(first) = batch.front_mut() {
            first.epoch = epoch;
        }
        (batch, copy)
    }
}

/// Copies of changes for the cached rows.
fn listed_copy(alloc: Global, changes: &[Change]) -> Result<List<ListedChange>, OutOfMemory>
    ensures { IfOk result (λ copy. copy ≡ changes.now) }
{
    let mut copy = Vec::with_capacity(alloc, changes.len())?;
    for change in changes {
        copy.push(ListedChange::of(alloc, change)?)?;
    }
    Ok(List::of(copy))
}
