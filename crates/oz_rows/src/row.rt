//! What rows hold.

use oz_fields::{Block, List, Name, OutOfMemory, Piece, TryClone};
use std::alloc::Global;

/// What a row of each kind holds.
#[derive(Debug, PartialEq, Eq)]
pub enum Row {
    Volume,
    Bucket,
    /// The number of the session that made the key, and its pieces.
    Key {
        number: u64,
        pieces: List<Piece>,
    },
    Open {
        blocks: List<Block>,
    },
    /// At least one block.
    Deleted {
        blocks: List<Block>,
    },
    /// `previous` is the number of the bucket's snapshot before it, 0 for none.
    Snapshot {
        name: Name,
        previous: u64,
        state: SnapshotState,
    },
    SnapshotKey {
        number: u64,
        pieces: List<Piece>,
    },
    /// The key's name in the snapshot before.
    Renamed {
        key: Name,
    },
    /// How many session and snapshot numbers were drawn in the stripe.
    Stripe {
        number: u64,
    },
}

/// Who lets a row go needn't know its kind.
impl Drop for Row {
    fn drop(self) {
        match self {
            Row::Volume => (),
            Row::Bucket => (),
            Row::Key {
                number: _,
                pieces: _,
            } => (),
            Row::Open { blocks: _ } => (),
            Row::Deleted { blocks: _ } => (),
            Row::Snapshot {
                name: _,
                previous: _,
                state: _,
            } => (),
            Row::SnapshotKey {
                number: _,
                pieces: _,
            } => (),
            Row::Renamed { key: _ } => (),
            Row::Stripe { number: _ } => (),
        }
    }
}

impl TryClone for Row {
    fn try_clone(&self, alloc: Global) -> Result<Row, OutOfMemory> {
        Ok(match self {
            Row::Volume => Row::Volume,
            Row::Bucket => Row::Bucket,
            Row::Key { number, pieces } => Row::Key {
                number: *number,
                pieces: pieces.try_clone(alloc)?,
            },
            Row::Open { blocks } => Row::Open {
                blocks: blocks.try_clone(alloc)?,
            },
            Row::Deleted { blocks } => Row::Deleted {
                blocks: blocks.try_clone(alloc)?,
            },
            Row::Snapshot {
                name,
                previous,
                state,
            } => Row::Snapshot {
                name: name.try_clone(alloc)?,
                previous: *previous,
                state: *state,
            },
            Row::SnapshotKey { number, pieces } => Row::SnapshotKey {
                number: *number,
                pieces: pieces.try_clone(alloc)?,
            },
            Row::Renamed { key } => Row::Renamed {
                key: key.try_clone(alloc)?,
            },
            Row::Stripe { number } => Row::Stripe { number: *number },
        })
    }
}

/// Whether a snapshot is there, or was deleted and waits to be worked off.
#[derive(Clone, Copy, Debug, PartialEq, Eq)]
pub enum SnapshotState {
    Live = 1,
    Marked = 2,
}
