//! Since when deleted rows are there.

ghost use Rattle.std.specs.Prelude.{◌≡◌, ◌==◌, ℕ, OnOk, IfOk, option_copied};
ghost use Rattle.std.specs.Ordering.{nat_cmp};
ghost use Rattle.oz_reclaim.specs.sweep.Dates.{births as all_births, born as born_by, born_after, is_moved as moved, or_zero, since_in};
ghost use Rattle.oz_reclaim.specs.sweep.Dates.{date_in, gone_or as gone_before, local_of, since_or as since_before};
ghost use Rattle.oz_reclaim.specs.sweep.Notes.{up_to};
ghost use Rattle.oz_sorted.specs.Sorted.{value_of};

use crate::sweep::notes::Note;
use oz_fields::OutOfMemory;
use oz_rows::RowKey;
use oz_sorted::SortedMap;
use std::alloc::Global;

/// The index since which a deleted row is there, and that of the transaction that last took it away, 0 for none.
#[derive(Clone, Copy, Debug)]
pub struct Birth {
    pub since: u64,
    pub gone: u64,
}

/// What notes up to an index say of deleted rows, by their local ids.
pub(crate) fn births(
    alloc: Global,
    dates: &SortedMap<RowKey, u64>,
    notes: &[Note],
    upto: u64,
) -> Result<SortedMap<u64, Birth>, OutOfMemory>
    ensures { IfOk result (λ births. (local : ℕ) → value_of nat_cmp births.entries local
        ≡ all_births dates.now.entries (up_to upto notes.now) local) }
{
    let mut births = SortedMap::new(alloc);
    for note in notes {
        if note.index <= upto {
            add_birth(alloc, dates, note, &mut births)?;
        }
    }
    Ok(births)
}

fn add_birth(
    alloc: Global,
    dates: &SortedMap<RowKey, u64>,
    note: &Note,
    births: &mut SortedMap<u64, Birth>,
) -> Result<(), OutOfMemory>
    ensures { OnOk result ((local : ℕ) → value_of nat_cmp births.new.entries local
        ≡ born_after dates.now.entries local (value_of nat_cmp births.old.entries local) note.now) }
{
    match &note.key {
        RowKey::Deleted { local, .. } => {
            let before = births.get(local).copied();
            let birth = born(dates, note, before);
            births.reserve(alloc, 1)?;
            births.insert(*local, birth);
            Ok(())
        }
        _ => Ok(()),
    }
}

/// What a note says of a deleted row of which this is known.
fn born(dates: &SortedMap<RowKey, u64>, note: &Note, before: Option<Birth>) -> Birth
    ensures { result ≡ born_by dates.now.entries note.now before }
{
    let since = if note.is_put && !is_moved(note, before) {
        note.index
    } else {
        since_or(dates, &note.key, before)
    };
    let gone = if note.is_put {
        gone_or(before)
    } else {
        note.index
    };
    Birth { since, gone }
}

fn is_moved(note: &Note, before: Option<Birth>) -> bool
    ensures { result ≡ moved note.now before }
{
    match before {
        Some(birth) => birth.gone == note.index,
        None => false,
    }
}

fn since_or(dates: &SortedMap<RowKey, u64>, key: &RowKey, before: Option<Birth>) -> u64
    ensures { result ≡ since_before dates.now.entries key.now before }
{
    match before {
        Some(birth) => birth.since,
        None => date_or_zero(dates, key),
    }
}

/// The date of a key, 0 where it has none.
pub(crate) fn date_or_zero(dates: &SortedMap<RowKey, u64>, key: &RowKey) -> u64
    ensures { result ≡ or_zero (date_in dates.now.entries key.now) }
{
    match dates.get(key) {
        Some(date) => *date,
        None => 0,
    }
}

fn gone_or(before: Option<Birth>) -> u64
    ensures { result ≡ gone_before before }
{
    match before {
        Some(birth) => birth.gone,
        None => 0,
    }
}

/// Since when the deleted row with this key is there, by what is known of local ids; 0 where nothing is.
pub(crate) fn made_at(births: &SortedMap<u64, Birth>, key: &RowKey) -> u64
    ensures { result ≡ since_in (value_of nat_cmp births.now.entries (local_of key.now)) }
{
    match births.get(&local_in(key)) {
        Some(birth) => birth.since,
        None => 0,
    }
}

fn local_in(key: &RowKey) -> u64
    ensures { result ≡ local_of key.now }
{
    match key {
        RowKey::Deleted { local, .. } => *local,
        _ => 0,
    }
}
