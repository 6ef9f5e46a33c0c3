//! Since when the blocks of dead rows are out of reach.

ghost use Rattle.std.specs.Prelude.{◌≡◌, ◌+◌, ◌≤◌, ℕ, List, length, map, IfOk, IsSome, is_some, if◌then◌else◌};
ghost use Rattle.std.specs.Ordering.{nat_cmp};
ghost use Rattle.oz_reclaim.specs.declared.sweep.notes.Note.{Note as AnyNote};
ghost use Rattle.oz_reclaim.specs.sweep.Dates.{IsDate, births as all_births, date_in, or_zero};
ghost use Rattle.oz_reclaim.specs.sweep.Dead.{first_of};
ghost use Rattle.oz_reclaim.specs.sweep.Filing.{AreDates, AreLetGo, HasDate, IsFirstOf, dates_after};
ghost use Rattle.oz_reclaim.specs.sweep.Notes.{up_to};
ghost use Rattle.oz_rows.specs.declared.key.RowKey.{RowKey as AnyKey};
ghost use Rattle.oz_rows.specs.RowMaps.{Rows, is_same, row_of};
ghost use Rattle.oz_sorted.specs.Sorted.{value_of};

use crate::sweep::births::{Birth, births, date_or_zero, made_at};
use crate::sweep::filing::first_block;
use crate::sweep::marks::{LetGo, left_at, let_go};
use crate::sweep::notes::Note;
use oz_fields::{OutOfMemory, TryClone};
use oz_rows::{Change, Row, RowKey};
use oz_sorted::SortedMap;
use oz_tables::Tables;
use std::alloc::Global;

/// The date of a dead row that comes, or none where the row goes.
#[derive(Debug, Drop)]
pub struct DateChange {
    pub key: RowKey,
    pub date: Option<u64>,
}

/// The dates of dead rows that come, by notes up to an index.
pub(crate) fn date_changes(
    alloc: Global,
    durable: &Tables,
    dates: &SortedMap<RowKey, u64>,
    notes: &[Note],
    upto: u64,
    changes: &[Change],
) -> Result<Vec<DateChange>, OutOfMemory>
    ensures dates { IfOk result (λ others.
        AreDates (row_of durable.now.rows) (up_to upto notes.now) dates.now.entries changes.now others.items) }
    ensures len { IfOk result (λ others. length others.items ≡ length changes.now) }
{
    let born = births(alloc, dates, notes, upto)?;
    let gone = let_go(alloc, durable, notes, upto)?;
    let mut others = Vec::new(alloc);
    for change in changes {
        let key = change.key.try_clone(alloc)?;
        let date = new_date(dates, &born, gone.as_slice(), change);
        others.push(DateChange { key, date })?;
    }
    Ok(others)
}

/// The date of a dead row that comes with this change.
fn new_date(
    dates: &SortedMap<RowKey, u64>,
    born: &SortedMap<u64, Birth>,
    gone: &[LetGo],
    change: &Change,
) -> Option<u64>
    ensures both { is_some result ≡ is_some change.now.row }
    ensures date { (all : Rows) (notes : List AnyNote) → AreLetGo all notes gone.now
        → ((local : ℕ) → value_of nat_cmp born.now.entries local ≡ all_births dates.now.entries notes local)
        → IsFirstOf change.now
        → HasDate all notes dates.now.entries change.now.key change.now.row result }
{
    match &change.row {
        Some(row) => Some(date_of(dates, born, gone, &change.key, row)),
        None => None,
    }
}

/// Since when the blocks of a dead row are out of reach.
fn date_of(
    dates: &SortedMap<RowKey, u64>,
    born: &SortedMap<u64, Birth>,
    gone: &[LetGo],
    key: &RowKey,
    row: &Row,
) -> u64
    ensures { (all : Rows) (notes : List AnyNote) → AreLetGo all notes gone.now
        → ((local : ℕ) → value_of nat_cmp born.now.entries local ≡ all_births dates.now.entries notes local)
        → IsSome (first_of row.now)
        → IsDate all notes dates.now.entries key.now row.now result (date_in dates.now.entries key.now) }
{
    if let Some(date) = dates.get(key) {
        return *date;
    }
    let made = made_at(born, key);
    match first_block(row) {
        Some(first) => made.max(left_at(gone, &first)),
        None => made,
    }
}

/// Enters changes of dates, one after another. Room for them was made.
pub(crate) fn enter_dates(dates: &mut SortedMap<RowKey, u64>, changes: Vec<DateChange>)
    requires { length changes.items ≤ dates.old.spare }
    ensures { (key : AnyKey) → date_in dates.new.entries key ≡ dates_after changes.items key (date_in dates.old.entries key) }
{
    for change in changes {
        enter_date(dates, change);
    }
}

fn enter_date(dates: &mut SortedMap<RowKey, u64>, change: DateChange)
    requires { 1 ≤ dates.old.spare }
    ensures dates { (key : AnyKey) → date_in dates.new.entries key
        ≡ (if is_same change.key key then change.date else date_in dates.old.entries key) }
    ensures spare { dates.old.spare ≤ dates.new.spare + 1 }
{
    let DateChange { key, date } = change;
    match date {
        Some(date) => {
            dates.insert(key, date);
        }
        None => {
            dates.remove(&key);
        }
    }
}

/// Keys of dead rows, with their dates.
pub(crate) fn with_dates(
    alloc: Global,
    dates: &SortedMap<RowKey, u64>,
    keys: Vec<RowKey>,
) -> Result<Vec<(RowKey, u64)>, OutOfMemory>
    ensures { IfOk result (λ rows. rows.items ≡ map (λ (key : AnyKey). (key, or_zero (date_in dates.now.entries key))) keys.items) }
{
    let mut rows = Vec::new(alloc);
    for key in keys {
        let since = date_or_zero(dates, &key);
        rows.push((key, since))?;
    }
    Ok(rows)
}
