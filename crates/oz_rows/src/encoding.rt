//! Rows, operations and bodies written.

ghost use Rattle.std.specs.Prelude.{◌≡◌, ◌∷◌, ◌++◌, IfOk, OnOk, OnErr};
ghost use Rattle.oz_rows.specs.Rows.{KeyFits, RowFits, key_bytes, row_bytes};
ghost use Rattle.oz_rows.specs.Operations.{OperationFits, operation_bytes, IsHead, head_bytes};

use crate::key::RowKey;
use crate::operation::{Head, Operation};
use crate::row::Row;
use crate::writing::{put_key, put_path, put_value};
use oz_fields::{OutOfMemory, put_u8, put_u64};
use std::alloc::Global;

const PUT: u8 = 1;

const REMOVE: u8 = 2;

const COPY_KEYS: u8 = 3;

const MOVE_DELETED: u8 = 4;

const DROP_KEYS: u8 = 5;

const DROP_OPEN: u8 = 6;

/// The one spelling of a row: its kind, its key fields and its value fields.
pub fn encode(alloc: Global, key: &RowKey, row: &Row) -> Result<Vec<u8>, OutOfMemory>
    requires { RowFits key.now row.now }
    ensures { IfOk result (λ bytes. bytes.items ≡ row_bytes key.now row.now) }
{
    let mut out = Vec::new(alloc);
    put_key(alloc, &mut out, key)?;
    put_value(alloc, &mut out, key, row)?;
    Ok(out)
}

/// Puts the operation that gives a row its value behind a batch.
pub fn put_row(alloc: Global, out: &mut Vec<u8>, key: &RowKey, row: &Row) -> Result<(), OutOfMemory>
    requires { RowFits key.now row.now }
    ensures ok { OnOk result (out.new.items ≡ out.old.items ++ (1 ∷ row_bytes key.now row.now)) }
    ensures err { OnErr result (out.new.items ≡ out.old.items) }
{
    let bytes = row_put(alloc, key, row)?;
    out.extend_from_slice(&bytes)
}

/// Puts the operation that takes a row away behind a batch.
pub fn put_removal(alloc: Global, out: &mut Vec<u8>, key: &RowKey) -> Result<(), OutOfMemory>
    requires { KeyFits key.now }
    ensures ok { OnOk result (out.new.items ≡ out.old.items ++ (2 ∷ key_bytes key.now)) }
    ensures err { OnErr result (out.new.items ≡ out.old.items) }
{
    let bytes = key_removed(alloc, key)?;
    out.extend_from_slice(&bytes)
}

/// Puts an operation behind a batch.
pub fn put_operation(
    alloc: Global,
    out: &mut Vec<u8>,
    operation: &Operation,
) -> Result<(), OutOfMemory>
    requires { OperationFits operation.now }
    ensures ok { OnOk result (out.new.items ≡ out.old.items ++ operation_bytes operation.now) }
    ensures err { OnErr result (out.new.items ≡ out.old.items) }
{
    let bytes = spelled(alloc, operation)?;
    out.extend_from_slice(&bytes)
}

/// Puts the head of a body.
#[tactic(auto, unfolding(oz_fields::specs::Number::u64_bytes))]
pub fn put_head(_alloc: Global, out: &mut Vec<u8>, head: Head) -> Result<(), OutOfMemory>
    requires { IsHead head }
    ensures ok { OnOk result (out.new.items ≡ out.old.items ++ head_bytes head) }
    ensures err { OnErr result (out.new.items ≡ out.old.items) }
{
    out.reserve(9)?;
    out.push(head.layout).unwrap();
    out.extend_from_slice(&head.index.to_be_bytes()).unwrap();
    Ok(())
}

fn row_put(alloc: Global, key: &RowKey, row: &Row) -> Result<Vec<u8>, OutOfMemory>
    requires { RowFits key.now row.now }
    ensures { IfOk result (λ bytes. bytes.items ≡ 1 ∷ row_bytes key.now row.now) }
{
    let mut out = Vec::new(alloc);
    put_u8(alloc, &mut out, PUT)?;
    put_key(alloc, &mut out, key)?;
    put_value(alloc, &mut out, key, row)?;
    Ok(out)
}

fn key_removed(alloc: Global, key: &RowKey) -> Result<Vec<u8>, OutOfMemory>
    requires { KeyFits key.now }
    ensures { IfOk result (λ bytes. bytes.items ≡ 2 ∷ key_bytes key.now) }
{
    let mut out = Vec::new(alloc);
    put_u8(alloc, &mut out, REMOVE)?;
    put_key(alloc, &mut out, key)?;
    Ok(out)
}

/// The bytes of an operation alone.
fn spelled(alloc: Global, operation: &Operation) -> Result<Vec<u8>, OutOfMemory>
    requires { OperationFits operation.now }
    ensures { IfOk result (λ bytes. bytes.items ≡ operation_bytes operation.now) }
{
    let mut out = Vec::new(alloc);
    match operation {
        Operation::Put { key, row } => return row_put(alloc, key, row),
        Operation::Remove { key } => return key_removed(alloc, key),
        Operation::CopyKeys {
            volume,
            bucket,
            number,
        } => {
            put_u8(alloc, &mut out, COPY_KEYS)?;
            put_path(alloc, &mut out, volume, bucket)?;
            put_u64(alloc, &mut out, *number)?;
        }
        Operation::MoveDeleted {
            volume,
            bucket,
            from,
            to,
        } => {
            put_u8(alloc, &mut out, MOVE_DELETED)?;
            put_path(alloc, &mut out, volume, bucket)?;
            put_u64(alloc, &mut out, *from)?;
            put_u64(alloc, &mut out, *to)?;
        }
        Operation::DropKeys {
            volume,
            bucket,
            number,
        } => {
            put_u8(alloc, &mut out, DROP_KEYS)?;
            put_path(alloc, &mut out, volume, bucket)?;
            put_u64(alloc, &mut out, *number)?;
        }
        Operation::DropOpen { volume, bucket } => {
            put_u8(alloc, &mut out, DROP_OPEN)?;
            put_path(alloc, &mut out, volume, bucket)?;
        }
    }
    Ok(out)
}
