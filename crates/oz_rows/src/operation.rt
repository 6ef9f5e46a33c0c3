//! The operations of a body.

use crate::key::RowKey;
use crate::row::Row;
use oz_fields::{List, Name, OutOfMemory, TryClone};
use std::alloc::Global;

/// The layout of all bodies so far.
pub const LAYOUT: u8 = 1;

/// The indexes end here: each is below it.
pub const END_OF_INDEXES: u64 = 1 << 63;

/// The most bytes that an operation has.
pub const LONGEST_OPERATION: usize = 6_304;

/// How many rows may be removed at a time.
pub const MOST_REMOVALS: usize = 1_024;

/// A change of the manager's rows, as its journal keeps it.
#[derive(Debug, PartialEq, Eq)]
pub enum Operation {
    /// The row has this value.
    Put {
        key: RowKey,
        row: Row,
    },
    /// The row, which is there, is gone.
    Remove {
        key: RowKey,
    },
    /// Each key row of the bucket becomes a key row of the snapshot with this number.
    CopyKeys {
        volume: Name,
        bucket: Name,
        number: u64,
    },
    /// The bucket's deleted and renamed rows of one owner get another owner, 0 for the bucket itself.
    MoveDeleted {
        volume: Name,
        bucket: Name,
        from: u64,
        to: u64,
    },
    /// The key rows of the snapshot with this number are gone.
    DropKeys {
        volume: Name,
        bucket: Name,
        number: u64,
    },
    /// Each open row of the bucket is gone, and its blocks that no key has become deleted rows.
    DropOpen {
        volume: Name,
        bucket: Name,
    },
}

/// Who lets an operation go needn't know its kind.
impl Drop for Operation {
    fn drop(self) {
        match self {
            Operation::Put { key: _, row: _ } => (),
            Operation::Remove { key: _ } => (),
            Operation::CopyKeys {
                volume: _,
                bucket: _,
                number: _,
            } => (),
            Operation::MoveDeleted {
                volume: _,
                bucket: _,
                from: _,
                to: _,
            } => (),
            Operation::DropKeys {
                volume: _,
                bucket: _,
                number: _,
            } => (),
            Operation::DropOpen {
                volume: _,
                bucket: _,
            } => (),
        }
    }
}

/// What a body begins with: its layout, and the last transaction index that it reaches.
#[derive(Clone, Copy, Debug)]
pub struct Head {
    pub layout: u8,
    pub index: u64,
}

/// A body of the manager's journal: its layout, the last transaction index that it reaches, and the
/// operations up to there.
#[derive(Debug, Drop, PartialEq, Eq)]
pub struct Operations {
    pub layout: u8,
    pub index: u64,
    pub items: List<Operation>,
}

/// What becomes of one row: its new value, or none where the row is gone.
#[derive(Debug, Drop, PartialEq, Eq)]
pub struct Change {
    pub key: RowKey,
    pub row: Option<Row>,
}

impl TryClone for Change {
    fn try_clone(&self, alloc: Global) -> Result<Change, OutOfMemory> {
        let key = self.key.try_clone(alloc)?;
        let row = self.row.try_clone(alloc)?;
        Ok(Change { key, row })
    }
}
