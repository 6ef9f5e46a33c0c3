//! What is kept of the rows that were flushed, so that those that may go are found by what changed since.

ghost use Rattle.std.specs.Prelude.{◌≡◌, ◌≤◌, ◌<◌, ◌++◌, ◌↔◌, ℕ, [], List as AnyList, map, true, OnOk, OnErr, IfOk, length, IsTrue};
ghost use Rattle.std.specs.List.{AllByRecursion};
ghost use Rattle.oz_namespace.specs.declared.namespace.Namespace.{Namespace as AnyNamespace};
ghost use Rattle.oz_reclaim.specs.Reclaimable.{IsAmongFirst, IsReclaimable};
ghost use Rattle.oz_reclaim.specs.sweep.Dates.{AreDated, IsDate};
ghost use Rattle.oz_reclaim.specs.sweep.Found.{IsBacked, IsPartlyPinned, keyed};
ghost use Rattle.oz_reclaim.specs.sweep.Notes.{dated, later, notes_of as all_notes_of, up_to};
ghost use Rattle.oz_reclaim.specs.sweep.Swept.{IsSwept, IsSweptTo};
ghost use Rattle.oz_reclaim.specs.sweep.View.{date_of, dead_of};
ghost use Rattle.oz_rows.specs.Counts.{AllRise};
ghost use Rattle.oz_rows.specs.declared.key.RowKey.{RowKey as AnyKey};
ghost use Rattle.oz_rows.specs.declared.row.Row.{Row as AnyRow};
ghost use Rattle.oz_rows.specs.RowMaps.{Rows, row_of};

use crate::finding::{MOST_PURGED, first_free};
use crate::reaching::add_each;
use crate::sweep::dating::{date_changes, enter_dates, with_dates};
use crate::sweep::filing::filings;
use crate::sweep::found::{Found, is_one_partly_pinned};
use crate::sweep::homes::{Homes, enter_homes, homes_to_come, leave_homes};
use crate::sweep::kept::forget_touched;
use crate::sweep::notes::{Note, keep_later, move_dated, notes_of};
use oz_fields::{Block, Name, OutOfMemory};
use oz_rows::{Change, RowKey};
use oz_sorted::SortedMap;
use oz_tables::Tables;
use std::alloc::Global;
use std::collections::BTreeSet;
use std::marker::Model;

/// The dead rows among those that were flushed, which no live snapshot has, and what was noted of changes since.
pub struct Sweep {
    noted: Vec<Note>,
    ready: Vec<Note>,
    dead: Tables,
    dates: SortedMap<RowKey, u64>,
    sets: SortedMap<RowKey, BTreeSet<Block>>,
    homes: Homes,
    is_new: bool,
}

impl Model for Sweep {
    ghost use Rattle.std.specs.Prelude.{◌≡◌, ◌≤◌, ◌+◌, false, vec_len, vec_capacity};
    ghost use Rattle.oz_reclaim.specs.sweep.Dates.{AreDated};
    ghost use Rattle.oz_reclaim.specs.sweep.Homes.{AreHomes};
    ghost use Rattle.oz_reclaim.specs.sweep.View.{SweepView};

    ghost Value = { SweepView };

    ghost view = { λ s. record {
      noted = s.noted.items;
      ready = s.ready.items;
      dead = s.dead.rows;
      dates = s.dates.entries;
      sets = s.sets.entries;
      is_new = s.is_new;
    } };

    ghost invariant = { λ s. record {
      room : vec_len s.noted + vec_len s.ready ≤ vec_capacity s.noted;
      dated : AreDated s.dead.rows s.dates.entries;
      homes : s.homes.is_shared ≡ false → AreHomes s.dead.rows s.homes.keys.entries;
    } };
}

/// Who lets a sweep go needn't know how it is kept.
impl Drop for Sweep {
    fn drop(self) {
        let Sweep {
            noted: _,
            ready: _,
            dead: _,
            dates: _,
            sets: _,
            homes: _,
            is_new: _,
        } = self;
    }
}

impl Sweep {
    /// A sweep that looks at all deleted rows once. It takes no memory.
    pub fn new(alloc: Global) -> Sweep
        ensures noted { result.noted ≡ [] }
        ensures ready { result.ready ≡ [] }
        ensures dead { result.dead ≡ [] }
        ensures swept { (all : Rows) (upto : ℕ) → IsSweptTo result upto all }
    {
        Sweep {
            noted: Vec::new(alloc),
            ready: Vec::new(alloc),
            dead: Tables::new(alloc),
            dates: SortedMap::new(alloc),
            sets: SortedMap::new(alloc),
            homes: Homes::new(alloc),
            is_new: true,
        }
    }

    /// Takes the memory that it takes to enter these changes. Where it runs out, all is as it was.
    pub fn room(&mut self, alloc: Global, changes: &[Change]) -> Result<(), OutOfMemory>
        ensures ready { OnOk result (self.new ≡ record self.old { ready = all_notes_of changes.now }) }
        ensures same { OnErr result (self.new ≡ self.old) }
    {
        let ready = notes_of(alloc, changes)?;
        self.noted.reserve(ready.len())?;
        self.ready = ready;
        Ok(())
    }

    /// Notes the changes for which there is room, under the index of their transaction. It takes no memory.
    pub fn enter(&mut self, index: u64)
        ensures noted { self.new ≡ record self.old { noted = self.old.noted ++ map (dated index) self.old.ready; ready = [] } }
        ensures swept { (all : Rows) (upto : ℕ) → upto < index → IsSweptTo self.old upto all → IsSweptTo self.new upto all }
    {
        move_dated(&mut self.ready, &mut self.noted, index);
    }

    /// Brings the sweep on to these tables, which stand for all transactions up to an index. Where memory runs out, its notes
    /// stay, and the next call goes on.
    pub fn bring(&mut self, alloc: Global, durable: &Tables, upto: u64) -> Result<(), OutOfMemory>
        ensures noted { OnOk result (self.new.noted ≡ later upto self.old.noted) }
        ensures swept { OnOk result (IsSweptTo self.old upto (row_of durable.now.rows) → IsSwept self.new (row_of durable.now.rows)) }
        // Since when their blocks are out of reach.
        ensures dated { OnOk result (IsSweptTo self.old upto (row_of durable.now.rows) → (key : AnyKey) (row : AnyRow)
            → dead_of self.new key ≡ Some row → (since : ℕ) × (date_of self.new key ≡ Some since)
            × IsDate (row_of durable.now.rows) (up_to upto self.old.noted) self.old.dates key row since (date_of self.old key)) }
        ensures still { IsSweptTo self.old upto (row_of durable.now.rows) → IsSweptTo self.new upto (row_of durable.now.rows) }
        ensures same { OnErr result (self.new ≡ record self.old { sets = self.new.sets }) }
        ensures ready { self.new.ready ≡ self.old.ready }
    {
        forget_touched(alloc, &mut self.sets, &self.noted, upto)?;
        let changes = filings(
            alloc,
            durable,
            &mut self.sets,
            &self.noted,
            upto,
            self.is_new,
        )?;
        let dates = date_changes(
            alloc,
            durable,
            &self.dates,
            &self.noted,
            upto,
            changes.as_slice(),
        )?;
        let homes = homes_to_come(alloc, &mut self.homes, changes.as_slice())?;
        self.dead.reserve(alloc, changes.len())?;
        self.dates.reserve(alloc, dates.len())?;
        leave_homes(&mut self.homes, &self.dead, changes.as_slice());
        enter_homes(&mut self.homes, homes);
        self.dead.enter_all(changes);
        enter_dates(&mut self.dates, dates);
        keep_later(&mut self.noted, upto);
        self.is_new = false;
        Ok(())
    }

    /// Each dead row has a date, and no other key has one. It does nothing when it runs.
    pub fn rows_are_dated(&self)
        ensures { AreDated self.now.dead self.now.dates }
    {
        let _ = &self.is_new;
    }

    /// Dead rows of which no block is pinned. Where there are more than `most`, these are the first by the order of row keys.
    pub fn find(&self, alloc: Global, pinned: &[Block], most: u16) -> Result<Found, OutOfMemory>
        requires some { 1 ≤ most }
        requires few { most ≤ MOST_PURGED }
        ensures only { IfOk result (λ found. (all : Rows) (namespace : AnyNamespace) → IsSwept self.now all → IsBacked all namespace
            → AllByRecursion (λ row. IsReclaimable all namespace pinned.now row.0) found.rows.items) }
        // Fewer than `most` are all of them, so there are none exactly where none may go.
        ensures first { IfOk result (λ found. (all : Rows) (namespace : AnyNamespace) → IsSwept self.now all → IsBacked all namespace
            → (key : AnyKey) → IsReclaimable all namespace pinned.now key → IsAmongFirst most (map keyed found.rows.items) key) }
        ensures few { IfOk result (λ found. length found.rows.items ≤ most) }
        // Each stands there once.
        ensures in_order { IfOk result (λ found. AllRise (map keyed found.rows.items)) }
        ensures dated { IfOk result (λ found. AllByRecursion (λ row. date_of self.now row.0 ≡ Some row.1) found.rows.items) }
        ensures partly { IfOk result (λ found. (all : Rows) (namespace : AnyNamespace) → IsSwept self.now all → IsBacked all namespace
            → (found.is_partly_pinned ≡ true) ↔ IsPartlyPinned all namespace pinned.now) }
    {
        let none = Name::copy(alloc, b"")?;
        let start = RowKey::of_deleted(alloc, &none, &none, 0, &none, 0)?;
        let mut pins = BTreeSet::new(alloc);
        add_each(&mut pins, pinned)?;
        let is_partly_pinned = is_one_partly_pinned(
            alloc,
            &self.dead,
            &self.homes,
            &start,
            pinned,
            &pins,
        )?;
        let keys = first_free(alloc, &self.dead, &start, &pins, most)?;
        let rows = with_dates(alloc, &self.dates, keys)?;
        Ok(Found {
            rows,
            is_partly_pinned,
        })
    }
}
