//! The cached rows, and the list of their epochs.

ghost use Rattle.std.specs.Prelude.{◌≡◌, ◌+◌, ◌<◌, ◌≤◌, ℕ, [], length, false, Some};
ghost use Rattle.std.specs.Prelude.{IsSome, IfSome, if◌then◌else◌, OnOk};
ghost use Rattle.oz_epochs.specs.Epochs.{found as found_at};
ghost use Rattle.oz_rows.specs.declared.key.RowKey.{RowKey as AnyKey};
ghost use Rattle.oz_rows.specs.RowMaps.{is_same};
ghost use Rattle.oz_cache.specs.Places.{found, written, written_in, after_changes, if_later};
ghost use Rattle.oz_cache.specs.Linked.{AreLinked, AllBy, place_of, without_place};

use crate::cached_rows::{CachedRow, CachedRows};
use crate::prepared::ListedChange;
use oz_epochs::{EpochList, Place, Steps};
use oz_fields::{List, OutOfMemory};
use oz_rows::{Change, RowKey};
use std::alloc::Global;
use std::marker::Model;
use std::sync::ledger::Ledger;

/// The cached rows, and a list with the epoch and the key of each of them.
#[derive(Drop)]
pub struct Newer {
    rows: CachedRows,
    epochs: EpochList<RowKey>,
}

impl Model for Newer {
    ghost use Rattle.std.specs.Prelude.{min};
    ghost use Rattle.oz_cache.specs.Linked.{NewerView, AreListed};

    ghost Value = { NewerView };

    ghost view = { λ n. record {
      rows = n.rows.rows.entries;
      epochs = n.epochs.entries;
      spare = min n.rows.rows.spare n.epochs.spare;
    } };

    ghost invariant = { λ n. AreListed n.rows.rows.entries n.epochs.entries };
}

impl Newer {
    pub fn new(alloc: Global) -> Newer
        ensures rows { result.rows ≡ [] }
        ensures epochs { result.epochs ≡ [] }
    {
        Newer {
            rows: CachedRows::new(alloc),
            epochs: EpochList::new(alloc),
        }
    }

    /// The cached rows.
    pub fn rows(&self) -> &CachedRows
        ensures { result.now.rows.entries ≡ self.now.rows }
    {
        &self.rows
    }

    /// The list of epochs.
    pub fn epochs(&self) -> &EpochList<RowKey>
        ensures list { result.now.entries ≡ self.now.epochs }
        ensures linked { AreLinked (found self.now.rows) self.now.epochs }
    {
        &self.epochs
    }

    /// Makes room for so many changes.
    pub fn reserve(&mut self, alloc: Global, changes: usize) -> Result<(), OutOfMemory>
        ensures rows { self.new.rows ≡ self.old.rows }
        ensures epochs { self.new.epochs ≡ self.old.epochs }
        ensures room { OnOk result (changes ≤ self.new.spare) }
        ensures kept { self.old.spare ≤ self.new.spare }
    {
        self.rows.reserve(alloc, changes)?;
        self.epochs.reserve(alloc, changes)
    }

    /// Enters changes of one epoch in their order.
    pub fn enter(&mut self, epoch: u64, changes: List<ListedChange>)
        requires room { length changes ≤ self.old.spare }
        requires ends { AllBy epoch self.old.epochs }
        ensures rows { (key : AnyKey) → written_in self.new.rows key
            ≡ after_changes epoch changes key (written_in self.old.rows key) }
        ensures ends { AllBy epoch self.new.epochs }
        ensures spare { self.old.spare ≤ self.new.spare + length changes }
    {
        for change in changes {
            self.put(epoch, change);
        }
    }

    /// Takes out what no later epoch wrote. It takes one step more than it takes rows out.
    pub fn keep_after<L: Ledger>(&mut self, epoch: u64, steps: &mut Steps<L>)
        ensures rows { (key : AnyKey) → written_in self.new.rows key ≡ if_later epoch (written_in self.old.rows key) }
        ensures ends { (limit : ℕ) → AllBy limit self.old.epochs → AllBy limit self.new.epochs }
        ensures spare { self.old.spare ≤ self.new.spare }
        ensures steps { steps.new + length self.new.epochs ≡ steps.old + length self.old.epochs + 1 }
    {
        while self.evict(epoch, steps) {}
    }

    /// Enters one change: the entry of its key leaves its place in the list, and comes to the end.
    fn put(&mut self, epoch: u64, change: ListedChange)
        requires room { 0 < self.old.spare }
        requires ends { AllBy epoch self.old.epochs }
        ensures rows { (key : AnyKey) → written_in self.new.rows key
            ≡ (if is_same change.key key then Some (written epoch change) else written_in self.old.rows key) }
        ensures ends { AllBy epoch self.new.epochs }
        ensures spare { self.old.spare ≤ self.new.spare + 1 }
    {
        let (Change { key, row }, listed) = change.into_parts();
        unlist(&mut self.epochs, place_in(&self.rows, &key));
        let place = self.epochs.push_back(epoch, listed);
        self.rows.put(key, CachedRow { epoch, place, row });
    }

    /// Takes the row at the front of the list out, unless its epoch is later, and says whether it
    /// did. It is one step.
    fn evict<L: Ledger>(&mut self, epoch: u64, steps: &mut Steps<L>) -> bool
        ensures rows { (key : AnyKey) → if_later epoch (written_in self.new.rows key)
            ≡ if_later epoch (written_in self.old.rows key) }
        ensures ends { (limit : ℕ) → AllBy limit self.old.epochs → AllBy limit self.new.epochs }
        ensures spare { self.old.spare ≤ self.new.spare }
        ensures evicted { length self.old.epochs ≡ length self.new.epochs + (if result then 1 else 0) }
        ensures step { steps.new ≡ steps.old + 1 }
        ensures all_later { result ≡ false → (key : AnyKey) → if_later epoch (written_in self.new.rows key)
            ≡ written_in self.new.rows key }
    {
        match self.epochs.pop_to(epoch, steps) {
            Some((_epoch, key)) => {
                self.rows.take(&key);
                discard(key);
                true
            }
            None => false,
        }
    }
}

/// Where the entry of a key stands, where it has a cached row.
fn place_in(rows: &CachedRows, key: &RowKey) -> Option<Place>
    ensures { result ≡ place_of (found rows.now.rows.entries key.now) }
{
    match rows.find(key) {
        Some(cached) => Some(cached.place),
        None => None,
    }
}

/// Takes the entry at a place out, where one is given.
fn unlist(epochs: &mut EpochList<RowKey>, place: Option<Place>)
    requires { IfSome place (λ place. IsSome (found_at place.slot epochs.old.entries)) }
    ensures entries { epochs.new.entries ≡ without_place place epochs.old.entries }
    ensures spare { epochs.old.spare ≤ epochs.new.spare }
{
    if let Some(place) = place {
        let _ = epochs.remove(place);
    }
}

fn discard(_key: RowKey) {}
