//! Rows as lines. Each function adds to a text.

use crate::said::{add_blocks, add_name, add_pieces};
use oz_cache::Cached;
use oz_fields::{Block, Name, Piece};
use oz_rows::{Row, RowKey, SnapshotState};
use std::alloc::{AllocError, Global};

/// A bucket by its volume's name and its own, and the lines of what it has.
#[derive(Clone, Copy)]
pub struct Place<'a> {
    pub volume: &'a Name,
    pub bucket: &'a Name,
}

impl Place<'_> {
    /// The names of the volume and of the bucket.
    pub fn add(&self, alloc: Global, text: &mut String) -> Result<(), AllocError> {
        add_name(alloc, text, self.volume)?;
        text.push(' ')?;
        add_name(alloc, text, self.bucket)
    }

    fn add_kind(&self, alloc: Global, text: &mut String, kind: &str) -> Result<(), AllocError> {
        text.push_str(kind)?;
        text.push(' ')?;
        self.add(alloc, text)
    }

    /// What a line begins with that has a name.
    fn add_named(
        &self,
        alloc: Global,
        text: &mut String,
        kind: &str,
        name: &Name,
    ) -> Result<(), AllocError> {
        self.add_kind(alloc, text, kind)?;
        text.push(' ')?;
        add_name(alloc, text, name)?;
        text.push(' ')
    }

    pub fn add_bucket(&self, alloc: Global, text: &mut String) -> Result<(), AllocError> {
        self.add_kind(alloc, text, "bucket")
    }

    pub fn add_key(
        &self,
        alloc: Global,
        text: &mut String,
        key: &Name,
        pieces: &[Piece],
    ) -> Result<(), AllocError> {
        self.add_named(alloc, text, "key", key)?;
        add_pieces(text, pieces)
    }

    /// A deleted row, with its owner where that is a snapshot.
    fn add_deleted(
        &self,
        alloc: Global,
        text: &mut String,
        owner: u64,
        key: &Name,
        blocks: &[Block],
    ) -> Result<(), AllocError> {
        self.add_named(alloc, text, "deleted", key)?;
        add_blocks(text, blocks)?;
        if owner == 0 {
            return Ok(());
        }
        write!(text, " {owner}")
    }

    /// A key that a live snapshot of this name keeps.
    pub fn add_kept(
        &self,
        alloc: Global,
        text: &mut String,
        snapshot: &Name,
        key: &Name,
        pieces: &[Piece],
    ) -> Result<(), AllocError> {
        self.add_named(alloc, text, "snapshot-key", snapshot)?;
        add_name(alloc, text, key)?;
        text.push(' ')?;
        add_pieces(text, pieces)
    }

    pub fn add_session(
        &self,
        alloc: Global,
        text: &mut String,
        number: u64,
        key: &Name,
        blocks: &[Block],
    ) -> Result<(), AllocError> {
        self.add_named(alloc, text, "session", key)?;
        write!(text, "{number} ")?;
        add_blocks(text, blocks)
    }

    pub fn add_snapshot(
        &self,
        alloc: Global,
        text: &mut String,
        name: &Name,
        state: SnapshotState,
    ) -> Result<(), AllocError> {
        let (kind, state) = match state {
            SnapshotState::Live => ("snapshot", "live"),
            SnapshotState::Marked => ("deleted-snapshot", "marked"),
        };
        self.add_named(alloc, text, kind, name)?;
        text.push_str(state)
    }
}

pub fn add_volume(alloc: Global, text: &mut String, volume: &Name) -> Result<(), AllocError> {
    text.push_str("volume ")?;
    add_name(alloc, text, volume)
}

pub fn add_stripe(text: &mut String, stripe: usize, number: u64) -> Result<(), AllocError> {
    write!(text, "stripe {stripe} {number}")
}

/// The name and the state of the snapshot whose row this is.
fn snapshot_of(row: Option<&Row>) -> Option<(&Name, SnapshotState)> {
    match row {
        Some(Row::Snapshot { name, state, .. }) => Some((name, *state)),
        _ => None,
    }
}

/// The row of the snapshot whose number a key of a snapshot's key has.
fn row_of_snapshot<'a>(
    alloc: Global,
    cached: &'a Cached,
    place: Place<'_>,
    snapshot: u64,
) -> Result<Option<&'a Row>, AllocError> {
    let key = RowKey::of_snapshot(alloc, place.volume, place.bucket, snapshot)?;
    Ok(cached.get(&key))
}

/// A key that a snapshot keeps, whose row has the name of the snapshot's row.
fn add_snapshot_key(
    alloc: Global,
    cached: &Cached,
    text: &mut String,
    key: &RowKey,
    pieces: &[Piece],
) -> Result<(), AllocError> {
    let RowKey::SnapshotKey {
        volume,
        bucket,
        snapshot,
        key,
    } = key
    else {
        return write!(text, "{key:?}");
    };
    let place = Place { volume, bucket };
    let row = row_of_snapshot(alloc, cached, place, *snapshot)?;
    match snapshot_of(row) {
        Some((name, SnapshotState::Live)) => place.add_kept(alloc, text, name, key, pieces),
        Some((_, SnapshotState::Marked)) => {
            place.add_named(alloc, text, "deleted-snapshot-key", key)?;
            add_pieces(text, pieces)
        }
        None => place.add_named(alloc, text, "stray-snapshot-key", key),
    }
}

/// A row that isn't of its key's kind.
fn add_other(text: &mut String, key: &RowKey, row: &Row) -> Result<(), AllocError> {
    write!(text, "{key:?} {row:?}")
}

/// A row of a bucket's, or of a volume or a stripe.
fn add_top_line(
    alloc: Global,
    text: &mut String,
    key: &RowKey,
    row: &Row,
) -> Result<(), AllocError> {
    match (key, row) {
        (RowKey::Volume { volume }, Row::Volume) => add_volume(alloc, text, volume),
        (RowKey::Bucket { volume, bucket }, Row::Bucket) => {
            Place { volume, bucket }.add_bucket(alloc, text)
        }
        (RowKey::Stripe { stripe }, Row::Stripe { number }) => {
            add_stripe(text, usize::from(*stripe), *number)
        }
        _ => add_other(text, key, row),
    }
}

/// A row of a key, of a session or of what left reach.
fn add_key_line(
    alloc: Global,
    text: &mut String,
    key: &RowKey,
    row: &Row,
) -> Result<(), AllocError> {
    match (key, row) {
        (
            RowKey::Key {
                volume,
                bucket,
                key,
            },
            Row::Key { pieces, .. },
        ) => Place { volume, bucket }.add_key(alloc, text, key, pieces.items()),
        (
            RowKey::Open {
                volume,
                bucket,
                key,
                number,
            },
            Row::Open { blocks },
        ) => Place { volume, bucket }.add_session(alloc, text, *number, key, blocks.items()),
        (
            RowKey::Deleted {
                volume,
                bucket,
                owner,
                key,
                ..
            },
            Row::Deleted { blocks },
        ) => Place { volume, bucket }.add_deleted(alloc, text, *owner, key, blocks.items()),
        _ => add_top_line(alloc, text, key, row),
    }
}

/// A row as a line. A key of a snapshot has the name of the snapshot's row.
pub fn add_row_line(
    alloc: Global,
    cached: &Cached,
    text: &mut String,
    key: &RowKey,
    row: &Row,
) -> Result<(), AllocError> {
    match (key, row) {
        (RowKey::SnapshotKey { .. }, Row::SnapshotKey { pieces, .. }) => {
            add_snapshot_key(alloc, cached, text, key, pieces.items())
        }
        (
            RowKey::Renamed {
                volume,
                bucket,
                owner,
                local,
            },
            Row::Renamed { key },
        ) => {
            Place { volume, bucket }.add_named(alloc, text, "renamed", key)?;
            write!(text, "{owner} {local}")
        }
        (RowKey::Snapshot { volume, bucket, .. }, Row::Snapshot { name, state, .. }) => {
            Place { volume, bucket }.add_snapshot(alloc, text, name, *state)
        }
        _ => add_key_line(alloc, text, key, row),
    }
}

/// A deleted row as a Purge names it, behind its bucket: `VOLUME BUCKET:OWNER:KEY:LOCAL`. Of others nothing.
pub fn add_deleted_name(alloc: Global, text: &mut String, key: &RowKey) -> Result<(), AllocError> {
    let RowKey::Deleted {
        volume,
        bucket,
        owner,
        key,
        local,
    } = key
    else {
        return Ok(());
    };
    Place { volume, bucket }.add(alloc, text)?;
    write!(text, ":{owner}:")?;
    add_name(alloc, text, key)?;
    write!(text, ":{local}")
}

/// The key of a deleted row as a line: `VOLUME BUCKET OWNER KEY LOCAL`.
pub fn add_deleted_key(alloc: Global, text: &mut String, key: &RowKey) -> Result<(), AllocError> {
    match key {
        RowKey::Deleted {
            volume,
            bucket,
            owner,
            key,
            local,
        } => {
            Place { volume, bucket }.add(alloc, text)?;
            write!(text, " {owner} ")?;
            add_name(alloc, text, key)?;
            write!(text, " {local}")
        }
        _ => write!(text, "{key:?}"),
    }
}
