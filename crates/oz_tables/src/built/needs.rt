//! The rows that rows need, and the operations at fault where one is missing.

ghost use Rattle.std.specs.Prelude.{◌≡◌, [], ◌∷◌, ◌&&◌, ◌⊎◌, ℕ, Option, None, false, not, map, IfOk, MatchOption};
ghost use Rattle.std.specs.Prelude.{MatchBool, IsTrue};
ghost use Rattle.std.specs.List.{list_any};
ghost use Rattle.oz_rows.specs.declared.key.RowKey.{RowKey as AnyKey};
ghost use Rattle.oz_rows.specs.RowMaps.{is_same};
ghost use Rattle.oz_effects.specs.Build.{base_of as needed_by, puts as is_put_by, removes as is_removed_by, IsOrphan};
ghost use Rattle.oz_effects.specs.Build.{LeavesOne, IsAtFault, NoneAtFault};
ghost use Rattle.oz_tables.specs.built.Steps.{operations_of, FirstAtFault, stands_on as does_stand_on, is_left as does_leave};
ghost use Rattle.oz_tables.specs.built.Steps.{is_live as is_live_row, IsLeftAmong};
ghost use Rattle.oz_effects.specs.Parts.{front_of};

use crate::Tables;
use crate::built::body::Step;
use oz_effects::{Part, RowRef, first_key, part_rows};
use oz_fields::{Name, OutOfMemory};
use oz_rows::{Operation, Row, RowKey, SnapshotState};
use std::alloc::Global;

/// The first operation of a body that is at fault, once all have been applied: how many bytes of the
/// body were left from it on.
pub(crate) fn first_at_fault(
    alloc: Global,
    tables: &Tables,
    steps: &[Step],
) -> Result<Option<usize>, OutOfMemory>
    ensures { IfOk result (λ found. MatchOption found
        (NoneAtFault tables.now.rows (operations_of steps.now) (operations_of steps.now) [])
        (FirstAtFault tables.now.rows steps.now)) }
{
    for (at, step) in steps.iter().enumerate() {
        if is_at_fault(alloc, tables, steps, &steps[at + 1..], &step.operation)? {
            return Ok(Some(step.left));
        }
    }
    Ok(None)
}

/// Whether an operation of a body is at fault, behind which the later ones stand.
fn is_at_fault(
    alloc: Global,
    tables: &Tables,
    steps: &[Step],
    later: &[Step],
    operation: &Operation,
) -> Result<bool, OutOfMemory>
    ensures { let fault = IsAtFault tables.now.rows (operations_of steps.now) (operations_of later.now) operation.now in
        IfOk result (λ found. MatchBool found fault (fault → ⊥)) }
{
    match operation {
        Operation::Put { key, .. } => is_orphan(alloc, tables, key),
        Operation::Remove { key } => is_last_to_leave(alloc, tables, steps, later, key),
        _ => Ok(false),
    }
}

/// Whether the key has a row that stands without the one that it needs.
fn is_orphan(alloc: Global, tables: &Tables, key: &RowKey) -> Result<bool, OutOfMemory>
    ensures { let orphan = ((base : AnyKey) × IsOrphan tables.now.rows key.now base) in
        IfOk result (λ found. MatchBool found orphan (orphan → ⊥)) }
{
    if is_based(alloc, tables, key)? {
        return Ok(false);
    }
    let Some(row) = tables.get(key) else {
        return Ok(false);
    };
    let Some(base) = base_of(alloc, key, row)? else {
        return Ok(false);
    };
    Ok(tables.get(&base).is_none())
}

/// Whether the row that any row of this key needs is there. Mostly it is, and the key's own row, which may stand far
/// from those that were looked at before, needn't be looked for.
fn is_based(alloc: Global, tables: &Tables, key: &RowKey) -> Result<bool, OutOfMemory>
    ensures { IfOk result (λ based. IsTrue based → (base : AnyKey) → IsOrphan tables.now.rows key.now base → ⊥) }
{
    let base = match key {
        RowKey::Bucket { volume, .. } => RowKey::of_volume(alloc, volume)?,
        RowKey::Key { volume, bucket, .. } => RowKey::of_bucket(alloc, volume, bucket)?,
        RowKey::Open { volume, bucket, .. } => RowKey::of_bucket(alloc, volume, bucket)?,
        _ => return Ok(false),
    };
    Ok(tables.get(&base).is_some())
}

fn base_of(alloc: Global, key: &RowKey, row: &Row) -> Result<Option<RowKey>, OutOfMemory>
    ensures { IfOk result (λ base. base ≡ needed_by key.now row.now) }
{
    Ok(match (key, row) {
        (RowKey::Bucket { volume, .. }, _) => Some(RowKey::of_volume(alloc, volume)?),
        (RowKey::Key { volume, bucket, .. }, _) => Some(RowKey::of_bucket(alloc, volume, bucket)?),
        (RowKey::Open { volume, bucket, .. }, _) => Some(RowKey::of_bucket(alloc, volume, bucket)?),
        (
            RowKey::Snapshot { volume, bucket, .. },
            Row::Snapshot {
                state: SnapshotState::Live,
                ..
            },
        ) => Some(RowKey::of_bucket(alloc, volume, bucket)?),
        _ => None,
    })
}

/// Whether no later operation removes this row, and a row needs it that none of them all put.
fn is_last_to_leave(
    alloc: Global,
    tables: &Tables,
    steps: &[Step],
    later: &[Step],
    base: &RowKey,
) -> Result<bool, OutOfMemory>
    ensures { let leaves = LeavesOne tables.now.rows (operations_of steps.now) base.now
        × (list_any (is_removed_by base.now) (operations_of later.now) ≡ false) in
        IfOk result (λ found. MatchBool found leaves (leaves → ⊥)) }
{
    if !leaves_orphan(alloc, tables, steps, base)? {
        return Ok(false);
    }
    Ok(!is_removed(later, base))
}

/// Whether one of the operations removes the row.
fn is_removed(steps: &[Step], key: &RowKey) -> bool
    ensures { result ≡ list_any (is_removed_by key.now) (operations_of steps.now) }
{
    some_step_removes(steps, key)
}

fn some_step_removes(steps: &[Step], key: &RowKey) -> bool
    ensures { result ≡ list_any (λ step. is_removed_by key.now step.operation) steps.now }
{
    steps.iter().any(|step| removes(&step.operation, key))
}

fn removes(operation: &Operation, key: &RowKey) -> bool
    ensures { result ≡ is_removed_by key.now operation.now }
{
    match operation {
        Operation::Remove { key: other } => other.cmp(key).is_eq(),
        _ => false,
    }
}

/// Whether a row needs this one that isn't there, and none of the operations put it.
fn leaves_orphan(
    alloc: Global,
    tables: &Tables,
    steps: &[Step],
    base: &RowKey,
) -> Result<bool, OutOfMemory>
    ensures { let leaves = LeavesOne tables.now.rows (operations_of steps.now) base.now in
        IfOk result (λ found. MatchBool found leaves (leaves → ⊥)) }
{
    if tables.get(base).is_some() {
        return Ok(false);
    }
    tables.rows_are_in_order();
    match base {
        RowKey::Volume { volume } => is_bucket_left(alloc, tables, steps, base, volume),
        RowKey::Bucket { volume, bucket } => is_content_left(
            alloc, tables, steps, base, volume, bucket,
        ),
        _ => Ok(false),
    }
}

/// The same of the buckets of a volume.
fn is_bucket_left(
    alloc: Global,
    tables: &Tables,
    steps: &[Step],
    base: &RowKey,
    volume: &Name,
) -> Result<bool, OutOfMemory>
    requires { base.now ≡ AnyKey.Volume volume.now }
    ensures { IfOk result (λ found. found
        ≡ list_any (does_leave (operations_of steps.now) base.now) tables.now.rows) }
{
    let none = Name::copy(alloc, b"")?;
    let found = is_part_left(alloc, tables, Part::Buckets, steps, base, volume, &none)?;
    Ok(found)
}

/// The same of the keys, the open keys and the snapshots of a bucket.
fn is_content_left(
    alloc: Global,
    tables: &Tables,
    steps: &[Step],
    base: &RowKey,
    volume: &Name,
    bucket: &Name,
) -> Result<bool, OutOfMemory>
    requires { base.now ≡ AnyKey.Bucket volume.now bucket.now }
    ensures { IfOk result (λ found. found
        ≡ list_any (does_leave (operations_of steps.now) base.now) tables.now.rows) }
{
    let keys = is_part_left(alloc, tables, Part::Keys, steps, base, volume, bucket)?;
    let sessions = is_part_left(alloc, tables, Part::Sessions, steps, base, volume, bucket)?;
    let snapshots = is_part_left(alloc, tables, Part::Snapshots, steps, base, volume, bucket)?;
    Ok(keys | sessions | snapshots)
}

/// The same of the rows of a part.
fn is_part_left(
    alloc: Global,
    tables: &Tables,
    part: Part,
    steps: &[Step],
    base: &RowKey,
    volume: &Name,
    bucket: &Name,
) -> Result<bool, OutOfMemory>
    ensures { IfOk result (IsLeftAmong tables.now.rows (front_of part volume.now bucket.now)
        (operations_of steps.now) base.now) }
{
    tables.rows_are_in_order();
    let start = first_key(alloc, part, volume, bucket)?;
    let rows = part_rows(alloc, tables, part, volume, bucket, &start)?;
    Ok(is_one_left(rows.as_slice(), steps, base))
}

/// Whether one of the rows needs this one, and none of the operations put it.
fn is_one_left(rows: &[RowRef], steps: &[Step], base: &RowKey) -> bool
    ensures { result ≡ list_any (does_leave (operations_of steps.now) base.now) rows.now }
{
    rows.iter().any(|entry| is_left(entry, steps, base))
}

fn is_left(entry: &RowRef, steps: &[Step], base: &RowKey) -> bool
    ensures { result ≡ does_leave (operations_of steps.now) base.now entry.now }
{
    stands_on(entry, base) && !is_put(steps, entry.key)
}

fn is_put(steps: &[Step], key: &RowKey) -> bool
    ensures { result ≡ list_any (is_put_by key.now) (operations_of steps.now) }
{
    some_step_puts(steps, key)
}

fn some_step_puts(steps: &[Step], key: &RowKey) -> bool
    ensures { result ≡ list_any (λ step. is_put_by key.now step.operation) steps.now }
{
    steps.iter().any(|step| puts(&step.operation, key))
}

fn puts(operation: &Operation, key: &RowKey) -> bool
    ensures { result ≡ is_put_by key.now operation.now }
{
    match operation {
        Operation::Put { key: other, .. } => other.cmp(key).is_eq(),
        _ => false,
    }
}

/// Whether the row needs the other one.
fn stands_on(entry: &RowRef, base: &RowKey) -> bool
    ensures { result ≡ does_stand_on base.now entry.now }
{
    match entry.key {
        RowKey::Bucket { volume, .. } => is_volume(volume, base),
        RowKey::Key { volume, bucket, .. } => is_bucket(volume, bucket, base),
        RowKey::Open { volume, bucket, .. } => is_bucket(volume, bucket, base),
        RowKey::Snapshot { volume, bucket, .. } => is_live(entry.row)
            && is_bucket(volume, bucket, base),
        _ => false,
    }
}

fn is_volume(volume: &Name, key: &RowKey) -> bool
    ensures { result ≡ is_same key.now (AnyKey.Volume volume.now) }
{
    match key {
        RowKey::Volume { volume: other } => other.cmp(volume).is_eq(),
        _ => false,
    }
}

fn is_bucket(volume: &Name, bucket: &Name, key: &RowKey) -> bool
    ensures { result ≡ is_same key.now (AnyKey.Bucket volume.now bucket.now) }
{
    match key {
        RowKey::Bucket {
            volume: of_volume,
            bucket: other,
        } => of_volume.cmp(volume).is_eq() && other.cmp(bucket).is_eq(),
        _ => false,
    }
}

fn is_live(row: &Row) -> bool
    ensures { result ≡ is_live_row row.now }
{
    match row {
        Row::Snapshot { state, .. } => *state == SnapshotState::Live,
        _ => false,
    }
}
