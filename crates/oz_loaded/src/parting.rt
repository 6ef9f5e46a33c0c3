//! Rows parted into sixteen, by copies of them.

ghost use Rattle.std.specs.Prelude.{◌≡◌, IfOk};
ghost use Rattle.oz_loaded.specs.Parts.{AreParts, IsPart};
ghost use Rattle.oz_loaded.specs.Walks.{puts_of};
ghost use Rattle.oz_rows.specs.RowMaps.{KeysRise, put};
ghost use Rattle.oz_sound.specs.stripes.Parts.{part_of};
ghost use Rattle.oz_sound.specs.stripes.Stripes.{is_own, stripe_of_key as stripe_of_its_key};

use crate::walking::{all_rows, first_keys};
use oz_cache::Cached;
use oz_effects::RowRef;
use oz_fields::{OutOfMemory, TryClone};
use oz_names::{STRIPES, stripe_of};
use oz_rows::{Change, RowKey};
use oz_tables::Tables;
use std::alloc::Global;

/// For each stripe its rows alone, in the order of the stripes. They have the whole's last index. The rows are copied, and
/// the whole stays as it is.
pub fn part(alloc: Global, whole: &Tables) -> Result<Vec<Cached>, OutOfMemory>
    ensures { IfOk result (λ parts. AreParts whole.now.rows whole.now.last_index parts.items) }
{
    whole.rows_are_in_order();
    let starts = first_keys(alloc)?;
    let rows = all_rows(alloc, whole, &starts)?;
    parts_of(alloc, &rows, whole.last_index())
}

/// The same of rows in order.
pub(crate) fn parts_of(
    alloc: Global,
    rows: &[RowRef],
    last_index: u64,
) -> Result<Vec<Cached>, OutOfMemory>
    requires in_order { KeysRise rows.now }
    ensures { IfOk result (λ parts. AreParts rows.now last_index parts.items) }
{
    let mut parts = Vec::with_capacity(alloc, usize::from(STRIPES))?;
    for stripe in 0..STRIPES {
        parts.push(part_for(alloc, rows, stripe, last_index)?)?;
    }
    Ok(parts)
}

/// The rows of one stripe.
fn part_for(
    alloc: Global,
    rows: &[RowRef],
    stripe: u8,
    last_index: u64,
) -> Result<Cached, OutOfMemory>
    requires in_order { KeysRise rows.now }
    ensures { IfOk result (IsPart rows.now last_index stripe) }
{
    let changes = changes_for(alloc, rows, stripe)?;
    let mut part = Tables::new(alloc);
    part.reserve(alloc, changes.len())?;
    part.enter_all(changes);
    part.reach(last_index);
    Ok(Cached::over(alloc, part))
}

/// Copies of the rows of one stripe, as changes that put them.
fn changes_for(alloc: Global, rows: &[RowRef], stripe: u8) -> Result<Vec<Change>, OutOfMemory>
    ensures { IfOk result (λ changes. changes.items ≡ puts_of (part_of (is_own stripe) rows.now)) }
{
    let mut changes = Vec::new(alloc);
    for entry in rows {
        if stripe_of_key(entry.key) == stripe {
            changes.push(copied(alloc, entry)?)?;
        }
    }
    Ok(changes)
}

/// A copy of a row, as a change that puts it.
fn copied(alloc: Global, entry: &RowRef) -> Result<Change, OutOfMemory>
    ensures { IfOk result (λ change. change ≡ put entry.now.key entry.now.row) }
{
    let key = entry.key.try_clone(alloc)?;
    let row = entry.row.try_clone(alloc)?;
    Ok(Change {
        key,
        row: Some(row),
    })
}

/// The stripe of a row.
fn stripe_of_key(key: &RowKey) -> u8
    ensures { result ≡ stripe_of_its_key key.now }
{
    match key {
        RowKey::Volume { volume }
        | RowKey::Bucket { volume, .. }
        | RowKey::Key { volume, .. }
        | RowKey::Open { volume, .. }
        | RowKey::Deleted { volume, .. }
        | RowKey::Snapshot { volume, .. }
        | RowKey::SnapshotKey { volume, .. }
        | RowKey::Renamed { volume, .. } => stripe_of(volume.bytes()),
        RowKey::Stripe { stripe } => *stripe,
    }
}
