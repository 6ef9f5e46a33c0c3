//! What was read of bytes, written again.

ghost use Rattle.oz_rows.specs.Operations.{IsBody, IsHead, AreOperations};
ghost use Rattle.oz_rows.specs.Rows.{RowFits};

use oz_fields::{OutOfMemory, TryClone};
use oz_rows::{Head, Operation, Operations, Row, RowKey, encode, put_head, put_operation};
use std::alloc::Global;

/// Tells where a row isn't copied as it is, or isn't written in the bytes that it was read from.
pub fn say_row_again(
    alloc: Global,
    bytes: &[u8],
    key: &RowKey,
    row: &Row,
    came: &mut String,
) -> Result<(), OutOfMemory>
    requires { RowFits key.now row.now }
{
    let written = encode(alloc, key, row)?;
    if written.as_slice() != bytes {
        came.push_str("it is written in other bytes\n")?;
    }
    if written.first() != Some(&key.kind()) {
        came.push_str("its kind is another\n")?;
    }
    let copied = key.try_clone(alloc)?;
    if copied != *key {
        came.push_str("its key is copied as another\n")?;
    }
    let copied = row.try_clone(alloc)?;
    if copied != *row {
        came.push_str("what it holds is copied as another\n")?;
    }
    Ok(())
}

/// The bytes of a body.
fn written(alloc: Global, head: Head, items: &[Operation]) -> Result<Vec<u8>, OutOfMemory>
    requires head { IsHead head }
    requires items { AreOperations items.now }
{
    let mut out = Vec::new(alloc);
    put_head(alloc, &mut out, head)?;
    for operation in items {
        put_operation(alloc, &mut out, operation)?;
    }
    Ok(out)
}

/// Tells where a body isn't written in the bytes that it was read from.
pub fn say_body_again(
    alloc: Global,
    bytes: &[u8],
    body: &Operations,
    came: &mut String,
) -> Result<(), OutOfMemory>
    requires { IsBody bytes.now body.now }
{
    let head = Head {
        layout: body.layout,
        index: body.index,
    };
    let again = written(alloc, head, body.items.items())?;
    if again.as_slice() != bytes {
        came.push_str("it is written in other bytes\n")?;
    }
    Ok(())
}
