//! Which snapshot has a name.

ghost use Rattle.std.specs.Prelude.{◌≡◌, IfOk, option_copied};
ghost use Rattle.oz_reclaim.specs.Marks.{HasNumber};
ghost use Rattle.oz_reclaim.specs.Numbered.{is_named as named_so, previous_of};

use crate::owning::next_owner;
use oz_fields::{Name, OutOfMemory};
use oz_rows::{Row, RowKey, RowMap, SnapshotState};
use std::alloc::Global;

/// The number of the bucket's live snapshot of this name.
pub(crate) fn number_named<M: RowMap>(
    alloc: Global,
    rows: &M,
    volume: &Name,
    bucket: &Name,
    name: &Name,
) -> Result<Option<u64>, OutOfMemory>
    ensures { IfOk result (HasNumber (M.rows rows.now) volume.now bucket.now name.now) }
{
    let mut last = 0;
    for _ in 0..u64::MAX {
        let number = next_owner(alloc, rows, volume, bucket, last)?;
        if number == 0 {
            return Ok(None);
        }
        let of_snapshot = RowKey::of_snapshot(alloc, volume, bucket, number)?;
        if is_named(rows.get(&of_snapshot), name) {
            return Ok(Some(number));
        }
        last = number;
    }
    Err(OutOfMemory)
}

/// Whether a row is that of a live snapshot of this name.
fn is_named(row: Option<&Row>, name: &Name) -> bool
    ensures { result ≡ named_so (option_copied row.entry) name.now }
{
    match row {
        Some(
            Row::Snapshot {
                name: other,
                state,
                ..
            },
        ) => *state == SnapshotState::Live && *other == *name,
        _ => false,
    }
}

/// The number of the snapshot before the one that has this row.
pub(crate) fn previous_in(row: Option<&Row>) -> u64
    ensures { result ≡ previous_of (option_copied row.entry) }
{
    match row {
        Some(Row::Snapshot { previous, .. }) => *previous,
        _ => 0,
    }
}
