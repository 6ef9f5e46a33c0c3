//! Where the keys stand that are asked for.

ghost use Rattle.std.specs.Prelude.{◌≡◌, IfOk, IfSome, IfNone, List, ℕ};
ghost use Rattle.oz_om_key.specs.Places.{place_of};

use oz_fields::{Name, OutOfMemory};
use oz_rows::RowKey;
use std::alloc::Global;

/// Whose keys are asked for: those of the bucket itself, or of its snapshot with this number.
#[derive(Clone, Copy, Debug)]
pub(crate) enum Source {
    Bucket,
    Snapshot(u64),
}

/// The rows of the keys that are asked for.
#[derive(Clone, Copy)]
pub(crate) struct Place<'n> {
    pub volume: &'n Name,
    pub bucket: &'n Name,
    pub source: Source,
}

impl Place<'_> {
    /// What names the row of a key.
    pub(crate) fn row_key(&self, alloc: Global, key: &Name) -> Result<RowKey, OutOfMemory>
        ensures { IfOk result (λ made. made ≡ place_of self.now.volume.now self.now.bucket.now self.now.source key.now) }
    {
        match self.source {
            Source::Bucket => RowKey::of_key(alloc, self.volume, self.bucket, key),
            Source::Snapshot(number) => {
                RowKey::of_snapshot_key(alloc, self.volume, self.bucket, number, key)
            }
        }
    }

    /// The name of the key whose row this is, where the row is one of these.
    pub(crate) fn name_in<'k>(&self, row: &'k RowKey) -> Option<&'k Name>
        ensures some { IfSome result (λ name. row.now ≡ place_of self.now.volume.now self.now.bucket.now self.now.source name.now) }
        ensures none { IfNone result ((name : List ℕ) → row.now ≡ place_of self.now.volume.now self.now.bucket.now self.now.source name → ⊥) }
    {
        match self.source {
            Source::Bucket => name_in_bucket(self.volume, self.bucket, row),
            Source::Snapshot(number) => name_in_snapshot(self.volume, self.bucket, number, row),
        }
    }
}

fn name_in_bucket<'k>(volume: &Name, bucket: &Name, row: &'k RowKey) -> Option<&'k Name>
    ensures some { IfSome result (λ name. row.now ≡ RowKey.Key volume.now bucket.now name.now) }
    ensures none { IfNone result ((name : List ℕ) → row.now ≡ RowKey.Key volume.now bucket.now name → ⊥) }
{
    match row {
        RowKey::Key {
            volume: of_volume,
            bucket: of_bucket,
            key,
        } => {
            if *of_volume == *volume && *of_bucket == *bucket {
                Some(key)
            } else {
                None
            }
        }
        _ => None,
    }
}

fn name_in_snapshot<'k>(
    volume: &Name,
    bucket: &Name,
    number: u64,
    row: &'k RowKey,
) -> Option<&'k Name>
    ensures some { IfSome result (λ name. row.now ≡ RowKey.SnapshotKey volume.now bucket.now number name.now) }
    ensures none { IfNone result ((name : List ℕ) → row.now ≡ RowKey.SnapshotKey volume.now bucket.now number name → ⊥) }
{
    match row {
        RowKey::SnapshotKey {
            volume: of_volume,
            bucket: of_bucket,
            snapshot,
            key,
        } => {
            if *of_volume == *volume && *of_bucket == *bucket && *snapshot == number {
                Some(key)
            } else {
                None
            }
        }
        _ => None,
    }
}
