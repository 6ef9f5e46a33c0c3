//! The rows of a manager, as one map in the order of their keys.

ghost use Rattle.std.specs.Prelude.{◌≡◌, ◌+◌, ◌^◌, ◌<◌, ◌≤◌, [], length};
ghost use Rattle.std.specs.Prelude.{option_copied, None, Some, if◌then◌else◌, MatchOption, IsOk, OnOk};
ghost use Rattle.oz_rows.specs.declared.key.RowKey.{RowKey as AnyKey};
ghost use Rattle.oz_rows.specs.RowMaps.{row_of, row_after, row_after_one, is_same, KeysRise, IsNext, HasNoNext};
ghost use Rattle.oz_rows.specs.Counts.{IsCount};

use oz_fields::OutOfMemory;
use oz_rows::{Change, Row, RowKey, RowMap};
use oz_sorted::SortedMap;
use std::alloc::Global;
use std::marker::Model;

/// Rows by their keys, and the index of the last transaction that they stand for.
#[derive(Debug)]
pub struct Tables {
    entries: SortedMap<RowKey, Row>,
    last_index: u64,
}

impl Model for Tables {
    ghost use Rattle.oz_tables.specs.Tables.{TableView, rows_in};

    ghost Value = { TableView };

    ghost view = { λ t. record {
      rows = rows_in t.entries.entries;
      last_index = t.last_index;
      spare = t.entries.spare;
    } };
}

/// Who lets tables go needn't know how they are kept.
impl Drop for Tables {
    fn drop(self) {
        let Tables {
            entries: _,
            last_index: _,
        } = self;
    }
}

impl Tables {
    /// Tables without rows, of the index 0. It takes no memory.
    pub fn new(alloc: Global) -> Tables
        ensures rows { result.rows ≡ [] }
        ensures last_index { result.last_index ≡ 0 }
    {
        Tables {
            entries: SortedMap::new(alloc),
            last_index: 0,
        }
    }

    /// The row of a key.
    pub fn get(&self, key: &RowKey) -> Option<&Row>
        ensures { option_copied result ≡ row_of self.now.rows key.now }
    {
        self.entries.get(key)
    }

    /// The least key above this one that is of the same kind, and its row. The key itself may have
    /// none.
    pub fn next(&self, key: &RowKey) -> Option<(&RowKey, &Row)>
        ensures { MatchOption result
            (HasNoNext (row_of self.now.rows) key.now)
            (λ found. IsNext (row_of self.now.rows) key.now found.0.now found.1.now) }
    {
        let (found, row) = self.entries.next(key)?;
        if found.kind() == key.kind() {
            Some((found, row))
        } else {
            None
        }
    }

    /// How many keys from one on and below another have a row.
    pub fn count(&self, from: &RowKey, to: &RowKey) -> usize
        ensures count { IsCount (row_of self.now.rows) from.now to.now result }
        ensures small { result < 2 ^ 63 }
        ensures in_order { KeysRise self.now.rows }
    {
        self.entries.count(from, to)
    }

    /// Makes room for so many changes.
    pub fn reserve(&mut self, alloc: Global, changes: usize) -> Result<(), OutOfMemory>
        ensures rows { self.new.rows ≡ self.old.rows }
        ensures last_index { self.new.last_index ≡ self.old.last_index }
        ensures room { OnOk result (changes ≤ self.new.spare) }
        ensures kept { self.old.spare ≤ self.new.spare }
        ensures succeeds { changes ≤ self.old.spare → IsOk result }
    {
        self.entries.reserve(alloc, changes)
    }

    /// Applies changes in their order, and sets the index. It takes no memory. To take away a row
    /// that is not there changes nothing.
    pub fn apply(&mut self, index: u64, changes: Vec<Change>)
        requires room { length changes.items ≤ self.old.spare }
        requires above { self.old.last_index < index }
        ensures rows { (key : AnyKey) → row_of self.new.rows key
            ≡ row_after changes.items key (row_of self.old.rows key) }
        ensures last_index { self.new.last_index ≡ index }
        ensures spare { self.old.spare ≤ self.new.spare + length changes.items }
    {
        self.enter_all(changes);
        self.reach(index);
    }

    /// The index of the last transaction that the rows stand for, 0 where there was none.
    pub fn last_index(&self) -> u64
        ensures { result ≡ self.now.last_index }
    {
        self.last_index
    }

    /// The rows stand in the order of their keys. It does nothing when it runs.
    pub fn rows_are_in_order(&self)
        ensures { KeysRise self.now.rows }
    {
        let _rows = self.entries.len();
    }

    /// How many rows there are.
    pub fn len(&self) -> usize
        ensures { result ≡ length self.now.rows }
    {
        self.entries.len()
    }

    /// Applies changes in their order, the index left as it is.
    pub fn enter_all(&mut self, changes: Vec<Change>)
        requires { length changes.items ≤ self.old.spare }
        ensures rows { (key : AnyKey) → row_of self.new.rows key
            ≡ row_after changes.items key (row_of self.old.rows key) }
        ensures last_index { self.new.last_index ≡ self.old.last_index }
        ensures spare { self.old.spare ≤ self.new.spare + length changes.items }
    {
        for change in changes {
            self.enter(change);
        }
    }

    /// Sets the index.
    pub fn reach(&mut self, index: u64)
        ensures rows { self.new.rows ≡ self.old.rows }
        ensures last_index { self.new.last_index ≡ index }
        ensures spare { self.old.spare ≤ self.new.spare }
    {
        self.last_index = index;
    }

    fn enter(&mut self, change: Change)
        requires { 0 < self.old.spare }
        ensures rows { (key : AnyKey) → row_of self.new.rows key ≡ row_after_one change key (row_of self.old.rows key) }
        ensures last_index { self.new.last_index ≡ self.old.last_index }
        ensures spare { self.old.spare ≤ self.new.spare + 1 }
    {
        let Change { key, row } = change;
        match row {
            Some(row) => self.put(key, row),
            None => self.take_away(&key),
        }
    }

    fn put(&mut self, key: RowKey, row: Row)
        requires { 0 < self.old.spare }
        ensures rows { (other : AnyKey) → row_of self.new.rows other
            ≡ (if is_same key other then Some row else row_of self.old.rows other) }
        ensures last_index { self.new.last_index ≡ self.old.last_index }
        ensures spare { self.old.spare ≤ self.new.spare + 1 }
    {
        self.entries.insert(key, row);
    }

    fn take_away(&mut self, key: &RowKey)
        ensures rows { (other : AnyKey) → row_of self.new.rows other
            ≡ (if is_same key.now other then None else row_of self.old.rows other) }
        ensures last_index { self.new.last_index ≡ self.old.last_index }
        ensures spare { self.old.spare ≤ self.new.spare }
    {
        self.entries.remove(key);
    }
}

impl RowMap for Tables {
    ghost rows = { λ t. row_of t.rows };

    fn get(&self, key: &RowKey) -> Option<&Row> {
        Tables::get(self, key)
    }

    fn next(&self, key: &RowKey) -> Option<(&RowKey, &Row)> {
        Tables::next(self, key)
    }

    fn count(&self, from: &RowKey, to: &RowKey) -> usize {
        Tables::count(self, from, to)
    }
}
