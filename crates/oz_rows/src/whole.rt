//! Rows, operations and bodies written.

ghost use Rattle.std.specs.Prelude.{◌≡◌, IfOk, IfErr, MatchResult};
ghost use Rattle.oz_rows.specs.declared.key.RowKey.{RowKey as AnyKey};
ghost use Rattle.oz_rows.specs.declared.row.Row.{Row as AnyRow};
ghost use Rattle.oz_rows.specs.declared.operation.Operations.{Operations as AnyBody};
ghost use Rattle.oz_rows.specs.Rows.{IsRow};
ghost use Rattle.oz_rows.specs.Operations.{IsBody, AreOperations, batch_bytes};
ghost use Rattle.oz_rows.specs.Faults.{IsRowFault, IsBodyFault, BatchFails, place_in};

use crate::decoding::row_of;
use crate::fault::{ReadFault, RowFault};
use crate::key::RowKey;
use crate::operation::{Operation, Operations};
use crate::operation_reading::{head_of, operation_of};
use crate::row::Row;
use oz_fields::List;
use std::alloc::Global;

/// Reads bytes that are one row: a kind, its key fields and its value fields.
pub fn decode(alloc: Global, bytes: &[u8]) -> Result<(RowKey, Row), RowFault>
    ensures found { IfOk result (λ row. IsRow bytes.now row.0 row.1) }
    ensures only { (key : AnyKey) (row : AnyRow) → IsRow bytes.now key row
        → MatchResult result (λ found. found ≡ (key, row)) (λ fault. fault ≡ RowFault.OutOfMemory) }
    ensures fault { IfErr result (λ fault. IsRowFault bytes.now fault) }
{
    let (row, rest) = match row_of(alloc, bytes) {
        Ok(found) => found,
        Err(fault) => return Err(offset_of(fault, bytes)),
    };
    if !rest.is_empty() {
        return Err(RowFault::At(bytes.len().saturating_sub(rest.len())));
    }
    Ok(row)
}

fn offset_of(fault: ReadFault, bytes: &[u8]) -> RowFault
    ensures { result ≡ place_in bytes.now fault }
{
    match fault {
        ReadFault::Left(left) => RowFault::At(bytes.len().saturating_sub(left)),
        ReadFault::OutOfMemory => RowFault::OutOfMemory,
    }
}

/// Reads a body of the manager's journal, all of its bytes.
pub fn operations(alloc: Global, body: &[u8]) -> Result<Operations, RowFault>
    ensures found { IfOk result (λ found. IsBody body.now found) }
    ensures only { (other : AnyBody) → IsBody body.now other
        → MatchResult result (λ found. found ≡ other) (λ fault. fault ≡ RowFault.OutOfMemory) }
    ensures fault { IfErr result (λ fault. IsBodyFault body.now fault) }
{
    let (head, rest) = match head_of(body) {
        Ok(found) => found,
        Err(fault) => return Err(offset_of(fault, body)),
    };
    match batch_of(alloc, rest) {
        Ok(items) => Ok(Operations {
            layout: head.layout,
            index: head.index,
            items: List::of(items),
        }),
        Err(fault) => Err(offset_of(fault, body)),
    }
}

/// Operations to the end of the bytes.
fn batch_of(alloc: Global, bytes: &[u8]) -> Result<Vec<Operation>, ReadFault>
    ensures { MatchResult result
        (λ found. AreOperations found.items × (bytes.now ≡ batch_bytes found.items))
        (λ fault. BatchFails bytes.now fault) }
{
    let mut items = Vec::new(alloc);
    let mut rest = bytes;
    while !rest.is_empty() {
        let (operation, after) = operation_of(alloc, rest)?;
        items.push(operation)?;
        rest = after;
    }
    Ok(items)
}
