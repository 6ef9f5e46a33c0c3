//! What names rows.

ghost use Rattle.std.specs.Prelude.{◌≡◌};

use oz_fields::Name;

/// What names a row: its kind, and the key fields of that kind. The number of a kind stands first in
/// its bytes; the kinds are in the order of their numbers, from 1 on.
#[derive(Debug, PartialEq, Eq, PartialOrd, Ord)]
pub enum RowKey {
    Volume {
        volume: Name,
    },
    Bucket {
        volume: Name,
        bucket: Name,
    },
    Key {
        volume: Name,
        bucket: Name,
        key: Name,
    },
    /// A session that writes a key, with the number drawn for it.
    Open {
        volume: Name,
        bucket: Name,
        key: Name,
        number: u64,
    },
    /// Blocks that a key has left. The owner is a snapshot's number, or 0 for the bucket itself, and
    /// `local` the local id of the first block.
    Deleted {
        volume: Name,
        bucket: Name,
        owner: u64,
        key: Name,
        local: u64,
    },
    Snapshot {
        volume: Name,
        bucket: Name,
        number: u64,
    },
    /// A key as a snapshot keeps it.
    SnapshotKey {
        volume: Name,
        bucket: Name,
        snapshot: u64,
        key: Name,
    },
    /// The block with this local id had another key name in the snapshot before.
    Renamed {
        volume: Name,
        bucket: Name,
        owner: u64,
        local: u64,
    },
    Stripe {
        stripe: u8,
    },
}

/// Who lets a row's key go needn't know its kind.
impl Drop for RowKey {
    fn drop(self) {
        match self {
            RowKey::Volume { volume: _ } => (),
            RowKey::Bucket {
                volume: _,
                bucket: _,
            } => (),
            RowKey::Key {
                volume: _,
                bucket: _,
                key: _,
            } => (),
            RowKey::Open {
                volume: _,
                bucket: _,
                key: _,
                number: _,
            } => (),
            RowKey::Deleted {
                volume: _,
                bucket: _,
                owner: _,
                key: _,
                local: _,
            } => (),
            RowKey::Snapshot {
                volume: _,
                bucket: _,
                number: _,
            } => (),
            RowKey::SnapshotKey {
                volume: _,
                bucket: _,
                snapshot: _,
                key: _,
            } => (),
            RowKey::Renamed {
                volume: _,
                bucket: _,
                owner: _,
                local: _,
            } => (),
            RowKey::Stripe { stripe: _ } => (),
        }
    }
}

impl RowKey {
    ghost use Rattle.oz_rows.specs.Rows.{kind_of};

    /// The number of the kind.
    pub fn kind(&self) -> u8
        ensures { result ≡ kind_of self.now }
    {
        match self {
            RowKey::Volume { .. } => 1,
            RowKey::Bucket { .. } => 2,
            RowKey::Key { .. } => 3,
            RowKey::Open { .. } => 4,
            RowKey::Deleted { .. } => 5,
            RowKey::Snapshot { .. } => 6,
            RowKey::SnapshotKey { .. } => 7,
            RowKey::Renamed { .. } => 8,
            RowKey::Stripe { .. } => 9,
        }
    }
}
