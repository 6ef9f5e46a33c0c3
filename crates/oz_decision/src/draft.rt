//! A batch that is put together, operation by operation.

ghost use Rattle.std.specs.Prelude.{◌≡◌, ◌++◌, ◌∷◌, [], IfOk};
ghost use Rattle.oz_rows.specs.declared.operation.Operation.{Operation as AnyOperation};
ghost use Rattle.oz_rows.specs.Operations.{OperationFits, batch_bytes};
ghost use Rattle.oz_rows.specs.RowMaps.{put, gone};
ghost use Rattle.oz_rows.specs.Rows.{RowFits, KeyFits};

use crate::decision::Decision;
use oz_fields::{List, OutOfMemory};
use oz_requests::Reply;
use oz_rows::{Change, Operation, Row, RowKey, put_operation, put_removal, put_row};
use std::alloc::Global;
use std::marker::Model;

/// Operations in bytes, and the changes that they make. A call that finds no memory drops the draft.
#[derive(Debug, Drop)]
pub struct Draft {
    bytes: Vec<u8>,
    changes: Vec<Change>,
}

impl Model for Draft {
    ghost use Rattle.oz_decision.specs.Drafts.{DraftView};

    ghost Value = { DraftView };

    ghost view = { λ d. record { bytes = d.bytes.items; changes = d.changes.items } };
}

impl Draft {
    /// A draft without operations. It takes no memory.
    pub fn new(alloc: Global) -> Draft
        ensures bytes { result.bytes ≡ [] }
        ensures changes { result.changes ≡ [] }
    {
        Draft {
            bytes: Vec::new(alloc),
            changes: Vec::new(alloc),
        }
    }

    /// The row has this value.
    pub fn put(self, alloc: Global, key: RowKey, row: Row) -> Result<Draft, OutOfMemory>
        requires { RowFits key row }
        ensures bytes { IfOk result (λ draft. draft.bytes ≡ self.bytes ++ batch_bytes (AnyOperation.Put key row ∷ [])) }
        ensures changes { IfOk result (λ draft. draft.changes ≡ self.changes ++ put key row ∷ []) }
    {
        let Draft {
            mut bytes,
            mut changes,
        } = self;
        put_row(alloc, &mut bytes, &key, &row)?;
        changes.push(Change {
            key,
            row: Some(row),
        })?;
        Ok(Draft { bytes, changes })
    }

    /// The row, which is there, is gone.
    pub fn remove(self, alloc: Global, key: RowKey) -> Result<Draft, OutOfMemory>
        requires { KeyFits key }
        ensures bytes { IfOk result (λ draft. draft.bytes ≡ self.bytes ++ batch_bytes (AnyOperation.Remove key ∷ [])) }
        ensures changes { IfOk result (λ draft. draft.changes ≡ self.changes ++ gone key ∷ []) }
    {
        let Draft {
            mut bytes,
            mut changes,
        } = self;
        put_removal(alloc, &mut bytes, &key)?;
        changes.push(Change { key, row: None })?;
        Ok(Draft { bytes, changes })
    }

    /// An operation that changes many rows, and all the changes that it makes.
    pub fn apply(
        self,
        alloc: Global,
        operation: &Operation,
        mut made: Vec<Change>,
    ) -> Result<Draft, OutOfMemory>
        requires { OperationFits operation.now }
        ensures bytes { IfOk result (λ draft. draft.bytes ≡ self.bytes ++ batch_bytes (operation.now ∷ [])) }
        ensures changes { IfOk result (λ draft. draft.changes ≡ self.changes ++ made.items) }
    {
        let Draft {
            mut bytes,
            mut changes,
        } = self;
        put_operation(alloc, &mut bytes, operation)?;
        changes.append(&mut made)?;
        Ok(Draft { bytes, changes })
    }

    /// The decision of these operations, with this reply. It takes no memory.
    pub fn with_reply(self, reply: Reply) -> Decision
        ensures reply { result.reply ≡ reply }
        ensures bytes { result.bytes ≡ self.bytes }
        ensures changes { result.changes ≡ self.changes }
    {
        Decision {
            reply,
            bytes: List::of(self.bytes),
            changes: List::of(self.changes),
        }
    }
}
