//! Cached rows, in the order of their keys.

ghost use Rattle.std.specs.Prelude.{◌≡◌, ◌+◌, ◌^◌, ◌<◌, ◌≤◌, [], length, None, Some, if◌then◌else◌};
ghost use Rattle.std.specs.Prelude.{option_copied, MatchOption, OnOk};
ghost use Rattle.oz_rows.specs.declared.key.RowKey.{RowKey as AnyKey};
ghost use Rattle.oz_rows.specs.Order.{key_order};
ghost use Rattle.oz_sorted.specs.Sorted.{IsNext, HasNoNext};
ghost use Rattle.oz_rows.specs.RowMaps.{is_same};
ghost use Rattle.oz_cache.specs.Places.{found, IsFirst, HasNone};

use oz_epochs::Place;
use oz_fields::OutOfMemory;
use oz_rows::{Row, RowKey};
use oz_sorted::SortedMap;
use std::alloc::Global;

/// What a key has above the tables: its row, or none where it was taken away. The epoch is that of
/// the last change, and the place that of the key's entry in the list of epochs.
#[derive(Debug, Drop)]
pub struct CachedRow {
    pub epoch: u64,
    pub place: Place,
    pub row: Option<Row>,
}

/// Cached rows, in the order of their keys.
#[derive(Drop)]
pub struct CachedRows {
    rows: SortedMap<RowKey, CachedRow>,
}

impl CachedRows {
    pub fn new(alloc: Global) -> CachedRows
        ensures { result.rows.entries ≡ [] }
    {
        CachedRows {
            rows: SortedMap::new(alloc),
        }
    }

    /// How many keys have a cached row.
    pub fn len(&self) -> usize
        ensures len { result ≡ length self.now.rows.entries }
        ensures small { result < 2 ^ 63 }
    {
        self.rows.len()
    }

    pub fn find(&self, key: &RowKey) -> Option<&CachedRow>
        ensures { option_copied result ≡ found self.now.rows.entries key.now }
    {
        self.rows.get(key)
    }

    /// The first cached row from a key on.
    pub fn first_from<'a>(&'a self, from: &'a RowKey) -> Option<(&'a RowKey, &'a CachedRow)>
        ensures { MatchOption result (HasNone (found self.now.rows.entries) from.now)
            (λ at. IsFirst (found self.now.rows.entries) from.now at.0.now at.1.now) }
    {
        match self.find(from) {
            Some(cached) => Some((from, cached)),
            None => self.next(from),
        }
    }

    /// The cached row of the least greater key.
    pub fn next(&self, key: &RowKey) -> Option<(&RowKey, &CachedRow)>
        ensures { MatchOption result (HasNoNext key_order (found self.now.rows.entries) key.now)
            (λ at. IsNext key_order (found self.now.rows.entries) key.now at.0.now at.1.now) }
    {
        self.rows.next(key)
    }

    /// Makes room for so many rows.
    pub fn reserve(&mut self, alloc: Global, rows: usize) -> Result<(), OutOfMemory>
        ensures rows { self.new.rows.entries ≡ self.old.rows.entries }
        ensures room { OnOk result (rows ≤ self.new.rows.spare) }
        ensures kept { self.old.rows.spare ≤ self.new.rows.spare }
    {
        self.rows.reserve(alloc, rows)
    }

    /// Puts a row under its key.
    pub fn put(&mut self, key: RowKey, row: CachedRow)
        requires { 0 < self.old.rows.spare }
        ensures rows { (other : AnyKey) → found self.new.rows.entries other
            ≡ (if is_same key other then Some row else found self.old.rows.entries other) }
        ensures spare { self.old.rows.spare ≤ self.new.rows.spare + 1 }
    {
        self.rows.insert(key, row);
    }

    /// Takes the row of a key out, where there is one.
    pub fn take(&mut self, key: &RowKey)
        ensures rows { (other : AnyKey) → found self.new.rows.entries other
            ≡ (if is_same key.now other then None else found self.old.rows.entries other) }
        ensures spare { self.old.rows.spare ≤ self.new.rows.spare }
    {
        self.rows.remove(key);
    }
}
