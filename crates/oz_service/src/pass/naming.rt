//! Deleted rows of one volume, as a Purge names them.

ghost use Rattle.std.specs.Prelude.{◌≡◌, IfOk, IfSome, None, Ok, Some, length, map, slice_get, take};
ghost use Rattle.oz_om.specs.Purging.{DeletedRow, key_of};
ghost use Rattle.oz_reclaim.specs.Service.{key_named};
ghost use Rattle.oz_service.specs.Purges.{IsFirstOf, IsOfVolume, NamesFront};

use oz_fields::{Block, List, Name, OutOfMemory, TryClone};
use oz_requests::{PurgeRow, Request};
use oz_rows::RowKey;
use std::alloc::{AllocError, Global};

/// A Purge of the rows at a front, and how many they are.
#[derive(Drop)]
pub(crate) struct Front {
    pub(crate) request: Request,
    pub(crate) count: usize,
}

/// The Purge of those of the rows at the front that are of the first one's volume.
///
/// Errors: no memory. The same is answered where there are no rows, or the first one's key isn't that of a deleted row.
pub(crate) fn front_of(alloc: Global, rows: &[(RowKey, List<Block>)]) -> Result<Front, OutOfMemory>
    ensures { IfOk result (NamesFront rows.now) }
{
    let Some(volume) = first_volume(rows) else {
        return Err(AllocError);
    };
    let named = rows_of_volume(alloc, volume, rows)?;
    let volume = volume.try_clone(alloc)?;
    let count = named.len();
    let rows = List::of(named);
    let request = Request::Purge { volume, rows };
    Ok(Front { request, count })
}

/// The volume of the first row, None where there is no row or its key isn't that of a deleted row.
fn first_volume(rows: &[(RowKey, List<Block>)]) -> Option<&Name>
    ensures { IfSome result (λ volume. IsFirstOf volume.now rows.now) }
{
    match rows.first() {
        Some(first) => volume_of(&first.0),
        None => None,
    }
}

/// The volume of a deleted row.
fn volume_of(key: &RowKey) -> Option<&Name>
    ensures { IfSome result (λ volume. IsOfVolume volume.now key.now) }
{
    match key {
        RowKey::Deleted { volume, .. } => Some(volume),
        _ => None,
    }
}

/// The rows at the front that are of a volume, as a Purge names them.
fn rows_of_volume(
    alloc: Global,
    volume: &Name,
    rows: &[(RowKey, List<Block>)],
) -> Result<Vec<PurgeRow>, OutOfMemory>
    ensures named { IfOk result (λ named. map (key_named volume.now) named.items ≡ map key_of (take (length named.items) rows.now)) }
    ensures whole { IfOk result (λ named. (row : DeletedRow) → slice_get rows.now (length named.items) ≡ Some row
        → IsOfVolume volume.now (key_of row) → ⊥) }
{
    let mut named = Vec::new(alloc);
    for row in rows {
        let Some(one) = row_of_volume(alloc, volume, &row.0)? else {
            return Ok(named);
        };
        named.push(one)?;
    }
    Ok(named)
}

/// A row of a volume, as a Purge names it; None where its key isn't that of a deleted row of the volume.
fn row_of_volume(
    alloc: Global,
    volume: &Name,
    key: &RowKey,
) -> Result<Option<PurgeRow>, OutOfMemory>
    ensures named { IfOk result (λ found. IfSome found (λ row. key_named volume.now row ≡ key.now)) }
    ensures none { result ≡ Ok None → IsOfVolume volume.now key.now → ⊥ }
{
    match key {
        RowKey::Deleted {
            volume: its,
            bucket,
            owner,
            key,
            local,
        } if its == volume => Ok(Some(PurgeRow {
            bucket: bucket.try_clone(alloc)?,
            owner: *owner,
            key: key.try_clone(alloc)?,
            local: *local,
        })),
        _ => Ok(None),
    }
}
