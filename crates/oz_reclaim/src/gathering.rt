//! The rows of one kind, gathered one after another.

ghost use Rattle.std.specs.Prelude.{◌≡◌, IfOk};
ghost use Rattle.oz_effects.specs.Parts.{own_row};
ghost use Rattle.oz_reclaim.specs.Gathered.{AreAllOf, IsLeast};
ghost use Rattle.oz_rows.specs.Rows.{kind_of};

use oz_effects::RowRef;
use oz_fields::OutOfMemory;
use oz_rows::{RowKey, RowMap};
use std::alloc::Global;

/// All rows of the kind of `start`, in the order of their keys.
pub(crate) fn rows_of_kind<'m, M: RowMap>(
    alloc: Global,
    rows: &'m M,
    start: &'m RowKey,
) -> Result<Vec<RowRef<'m>>, OutOfMemory>
    requires { IsLeast start.now }
    ensures { IfOk result (λ found. AreAllOf (M.rows rows.now) (kind_of start.now) found.items) }
{
    let mut found = own(alloc, rows, start)?;
    let mut last = start;
    for _ in 0..u64::MAX {
        let Some((key, row)) = rows.next(last) else {
            return Ok(found);
        };
        found.push(RowRef { key, row })?;
        last = key;
    }
    Err(OutOfMemory)
}

/// The row that a key has itself.
fn own<'m, M: RowMap>(
    alloc: Global,
    rows: &'m M,
    key: &'m RowKey,
) -> Result<Vec<RowRef<'m>>, OutOfMemory>
    ensures { IfOk result (λ found. found.items ≡ own_row key.now (M.rows rows.now key.now)) }
{
    let mut found = Vec::new(alloc);
    if let Some(row) = rows.get(key) {
        found.push(RowRef { key, row })?;
    }
    Ok(found)
}
