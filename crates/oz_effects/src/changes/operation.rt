//! What an operation changes among the rows.

ghost use Rattle.std.specs.Prelude.{◌≡◌, ◌∷◌, [], List, IfOk};
ghost use Rattle.oz_rows.specs.declared.entry.RowEntry.{RowEntry as AnyEntry};
ghost use Rattle.oz_rows.specs.RowMaps.{AreRows};
ghost use Rattle.oz_effects.specs.Effects.{operation_changes as changed_by};

use crate::changes::closings::closed_sessions;
use crate::changes::copies::copied_keys;
use crate::changes::drops::dropped_keys;
use crate::changes::moves::moved_rows;
use oz_fields::{OutOfMemory, TryClone};
use oz_rows::{Change, Operation, Row, RowKey, RowMap};
use std::alloc::Global;

/// The changes that an operation stands for, the first one first.
pub fn operation_changes<M: RowMap>(
    alloc: Global,
    rows: &M,
    operation: &Operation,
) -> Result<Vec<Change>, OutOfMemory>
    ensures { IfOk result (λ changes. (all : List AnyEntry) → AreRows all (M.rows rows.now)
        → changes.items ≡ changed_by all operation.now) }
{
    match operation {
        Operation::Put { key, row } => only(
            alloc,
            key.try_clone(alloc)?,
            Some(row.try_clone(alloc)?),
        ),
        Operation::Remove { key } => only(alloc, key.try_clone(alloc)?, None),
        Operation::CopyKeys {
            volume,
            bucket,
            number,
        } => copied_keys(alloc, rows, volume, bucket, *number),
        Operation::MoveDeleted {
            volume,
            bucket,
            from,
            to,
        } => moved_rows(alloc, rows, volume, bucket, *from, *to),
        Operation::DropKeys {
            volume,
            bucket,
            number,
        } => dropped_keys(alloc, rows, volume, bucket, *number),
        Operation::DropOpen { volume, bucket } => closed_sessions(alloc, rows, volume, bucket),
    }
}

fn only(alloc: Global, key: RowKey, row: Option<Row>) -> Result<Vec<Change>, OutOfMemory>
    ensures { IfOk result (λ changes. changes.items ≡ record { key = key; row = row } ∷ []) }
{
    let mut changes = Vec::new(alloc);
    changes.push(Change { key, row })?;
    Ok(changes)
}
