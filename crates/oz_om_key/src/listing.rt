//! The names of keys, gathered from row to row.

ghost use Rattle.std.specs.Prelude.{◌≡◌, ◌≤◌, [], ◌∷◌, List as AnyList, ℕ, length, is_some, if◌then◌else◌};
ghost use Rattle.std.specs.Prelude.{IfOk, IfSome, IfNone};
ghost use Rattle.oz_fields.specs.declared.block.Piece.{Piece as AnyPiece};
ghost use Rattle.oz_model.specs.Buckets.{listed};
ghost use Rattle.oz_namespace.specs.Namespace.{ByName};
ghost use Rattle.oz_om_key.specs.Walking.{HaveRows, IsFound, IsLast, AreFirst};

use crate::place::Place;
use oz_decision::has_row;
use oz_fields::{List, Name, OutOfMemory, TryClone};
use oz_rows::{RowKey, RowMap};
use std::alloc::Global;

/// The names with a prefix and above a start, in order, at most so many. It costs a search for each of them, and two
/// more.
pub(crate) fn listed_names<M: RowMap>(
    alloc: Global,
    rows: &M,
    place: &Place<'_>,
    prefix: &Name,
    start: &Name,
    count: u16,
) -> Result<List<Name>, OutOfMemory>
    ensures { IfOk result (λ names. (keys : ByName (AnyList AnyPiece)) →
        HaveRows (M.rows rows.now) place.now.volume.now place.now.bucket.now place.now.source keys →
        names ≡ listed keys prefix.now start.now count) }
{
    if count == 0 {
        return Ok(List::new(alloc));
    }
    let (from, first) = first_names(alloc, rows, place, prefix, start)?;
    names_behind(alloc, rows, place, prefix, &from, first, count)
}

/// The row behind which names are listed, and the prefix itself, where it is the first of them.
fn first_names<M: RowMap>(
    alloc: Global,
    rows: &M,
    place: &Place<'_>,
    prefix: &Name,
    start: &Name,
) -> Result<(RowKey, Vec<Name>), OutOfMemory>
    ensures first { IfOk result (λ made. (keys : ByName (AnyList AnyPiece)) →
        HaveRows (M.rows rows.now) place.now.volume.now place.now.bucket.now place.now.source keys →
        AreFirst keys place.now.volume.now place.now.bucket.now place.now.source prefix.now start.now made.0 made.1.items) }
    ensures few { IfOk result (λ made. length made.1.items ≤ 1) }
{
    if *start < *prefix {
        let from = place.row_key(alloc, prefix)?;
        let first = itself_if_there(alloc, rows, prefix, &from)?;
        Ok((from, first))
    } else {
        Ok((place.row_key(alloc, start)?, Vec::new(alloc)))
    }
}

/// The name itself, where its row is there.
fn itself_if_there<M: RowMap>(
    alloc: Global,
    rows: &M,
    name: &Name,
    row: &RowKey,
) -> Result<Vec<Name>, OutOfMemory>
    ensures { IfOk result (λ names. names.items ≡ (if is_some (M.rows rows.now row.now) then name.now ∷ [] else [])) }
{
    let mut names = Vec::new(alloc);
    if has_row(rows, row) {
        names.push(name.try_clone(alloc)?)?;
    }
    Ok(names)
}

/// These first names and those behind them, at most so many in all.
fn names_behind<M: RowMap>(
    alloc: Global,
    rows: &M,
    place: &Place<'_>,
    prefix: &Name,
    from: &RowKey,
    first: Vec<Name>,
    count: u16,
) -> Result<List<Name>, OutOfMemory>
    requires { length first.items ≤ count }
    ensures { IfOk result (λ names. (keys : ByName (AnyList AnyPiece)) (start : AnyList ℕ) →
        HaveRows (M.rows rows.now) place.now.volume.now place.now.bucket.now place.now.source keys →
        AreFirst keys place.now.volume.now place.now.bucket.now place.now.source prefix.now start from.now first.items →
        names ≡ listed keys prefix.now start count) }
{
    let mut names = first;
    let mut last = from;
    for _ in names.len()..usize::from(count) {
        let Some((key, name)) = next_listed(rows, place, prefix, last) else {
            return Ok(List::of(names));
        };
        names.push(name.try_clone(alloc)?)?;
        last = key;
    }
    Ok(List::of(names))
}

/// The next row and the name of its key, where that is one with the prefix.
fn next_listed<'r, M: RowMap>(
    rows: &'r M,
    place: &Place<'_>,
    prefix: &Name,
    last: &RowKey,
) -> Option<(&'r RowKey, &'r Name)>
    ensures some { IfSome result (λ next. IsFound
        (M.rows rows.now) place.now.volume.now place.now.bucket.now place.now.source prefix.now last.now next.0.now next.1.now) }
    ensures none { IfNone result (IsLast (M.rows rows.now) place.now.volume.now place.now.bucket.now place.now.source prefix.now last.now) }
{
    let Some((key, _row)) = rows.next(last) else {
        return None;
    };
    let Some(name) = place.name_in(key) else {
        return None;
    };
    if name.bytes().starts_with(prefix.bytes()) {
        Some((key, name))
    } else {
        None
    }
}
