//! All rows of tables, gathered in order.

ghost use Rattle.std.specs.Prelude.{◌≡◌, ◌+◌, ◌++◌, IfOk};
ghost use Rattle.oz_effects.specs.Parts.{own_row};
ghost use Rattle.oz_loaded.specs.Walks.{IsFirstOfKind, StandBefore, first_keys as keys_that_begin};
ghost use Rattle.oz_rows.specs.Rows.{kind_of};
ghost use Rattle.oz_rows.specs.RowMaps.{row_of};

use oz_effects::RowRef;
use oz_fields::{Name, OutOfMemory};
use oz_rows::RowKey;
use oz_tables::Tables;
use std::alloc::Global;

/// For each kind the key that no other of that kind is below, in the order of the kinds.
pub fn first_keys(alloc: Global) -> Result<Vec<RowKey>, OutOfMemory>
    ensures { IfOk result (λ made. made.items ≡ keys_that_begin) }
{
    let none = Name::copy(alloc, b"")?;
    let mut made = Vec::with_capacity(alloc, 9)?;
    made.push(RowKey::of_volume(alloc, &none)?)?;
    made.push(RowKey::of_bucket(alloc, &none, &none)?)?;
    made.push(RowKey::of_key(alloc, &none, &none, &none)?)?;
    made.push(RowKey::of_session(alloc, &none, &none, &none, 0)?)?;
    made.push(RowKey::of_deleted(alloc, &none, &none, 0, &none, 0)?)?;
    made.push(RowKey::of_snapshot(alloc, &none, &none, 0)?)?;
    made.push(RowKey::of_snapshot_key(alloc, &none, &none, 0, &none)?)?;
    made.push(RowKey::of_renamed(alloc, &none, &none, 0, 0)?)?;
    made.push(RowKey::Stripe { stripe: 0 })?;
    Ok(made)
}

/// All rows, in order. Each kind is walked from its first key on.
pub fn all_rows<'m>(
    alloc: Global,
    tables: &'m Tables,
    starts: &'m [RowKey],
) -> Result<Vec<RowRef<'m>>, OutOfMemory>
    requires { starts.now ≡ keys_that_begin }
    ensures { IfOk result (λ found. found.items ≡ tables.now.rows) }
{
    let mut found = Vec::new(alloc);
    for start in starts {
        found = with_kind(tables, start, found)?;
    }
    Ok(found)
}

/// The rows of all lower kinds, and behind them those of this key's.
fn with_kind<'m>(
    tables: &'m Tables,
    start: &'m RowKey,
    lower: Vec<RowRef<'m>>,
) -> Result<Vec<RowRef<'m>>, OutOfMemory>
    requires first { IsFirstOfKind start.now }
    requires before { StandBefore (kind_of start.now) tables.now.rows lower.items }
    ensures { IfOk result (λ found. StandBefore (kind_of start.now + 1) tables.now.rows found.items) }
{
    tables.rows_are_in_order();
    let mut found = with_own(tables, start, lower)?;
    let mut last = start;
    for _ in 0..u64::MAX {
        let Some((key, row)) = tables.next(last) else {
            return Ok(found);
        };
        found.push(RowRef { key, row })?;
        last = key;
    }
    Err(OutOfMemory)
}

/// These rows, and behind them the one that the key has itself.
fn with_own<'m>(
    tables: &'m Tables,
    start: &'m RowKey,
    lower: Vec<RowRef<'m>>,
) -> Result<Vec<RowRef<'m>>, OutOfMemory>
    ensures { IfOk result (λ found. found.items
        ≡ lower.entry.items ++ own_row start.now (row_of tables.now.rows start.now)) }
{
    let mut found = lower;
    if let Some(row) = tables.get(start) {
        found.push(RowRef { key: start, row })?;
    }
    Ok(found)
}
