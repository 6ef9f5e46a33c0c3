//! Row keys made of names that are lent.

ghost use Rattle.std.specs.Prelude.{◌≡◌, IfOk};
ghost use Rattle.oz_rows.specs.declared.key.RowKey.{RowKey as AnyKey};

use crate::key::RowKey;
use oz_fields::{Name, OutOfMemory, TryClone};
use std::alloc::Global;

impl RowKey {
    pub fn of_volume(alloc: Global, volume: &Name) -> Result<RowKey, OutOfMemory>
        ensures { IfOk result (λ made. made ≡ AnyKey.Volume volume.now) }
    {
        Ok(RowKey::Volume {
            volume: volume.try_clone(alloc)?,
        })
    }

    pub fn of_bucket(alloc: Global, volume: &Name, bucket: &Name) -> Result<RowKey, OutOfMemory>
        ensures { IfOk result (λ made. made ≡ AnyKey.Bucket volume.now bucket.now) }
    {
        Ok(RowKey::Bucket {
            volume: volume.try_clone(alloc)?,
            bucket: bucket.try_clone(alloc)?,
        })
    }

    pub fn of_key(
        alloc: Global,
        volume: &Name,
        bucket: &Name,
        key: &Name,
    ) -> Result<RowKey, OutOfMemory>
        ensures { IfOk result (λ made. made ≡ AnyKey.Key volume.now bucket.now key.now) }
    {
        Ok(RowKey::Key {
            volume: volume.try_clone(alloc)?,
            bucket: bucket.try_clone(alloc)?,
            key: key.try_clone(alloc)?,
        })
    }

    pub fn of_session(
        alloc: Global,
        volume: &Name,
        bucket: &Name,
        key: &Name,
        number: u64,
    ) -> Result<RowKey, OutOfMemory>
        ensures { IfOk result (λ made. made ≡ AnyKey.Open volume.now bucket.now key.now number) }
    {
        Ok(RowKey::Open {
            volume: volume.try_clone(alloc)?,
            bucket: bucket.try_clone(alloc)?,
            key: key.try_clone(alloc)?,
            number,
        })
    }

    pub fn of_deleted(
        alloc: Global,
        volume: &Name,
        bucket: &Name,
        owner: u64,
        key: &Name,
        local: u64,
    ) -> Result<RowKey, OutOfMemory>
        ensures { IfOk result (λ made. made ≡ AnyKey.Deleted volume.now bucket.now owner key.now local) }
    {
        Ok(RowKey::Deleted {
            volume: volume.try_clone(alloc)?,
            bucket: bucket.try_clone(alloc)?,
            owner,
            key: key.try_clone(alloc)?,
            local,
        })
    }

    pub fn of_snapshot(
        alloc: Global,
        volume: &Name,
        bucket: &Name,
        number: u64,
    ) -> Result<RowKey, OutOfMemory>
        ensures { IfOk result (λ made. made ≡ AnyKey.Snapshot volume.now bucket.now number) }
    {
        Ok(RowKey::Snapshot {
            volume: volume.try_clone(alloc)?,
            bucket: bucket.try_clone(alloc)?,
            number,
        })
    }

    pub fn of_snapshot_key(
        alloc: Global,
        volume: &Name,
        bucket: &Name,
        snapshot: u64,
        key: &Name,
    ) -> Result<RowKey, OutOfMemory>
        ensures { IfOk result (λ made. made ≡ AnyKey.SnapshotKey volume.now bucket.now snapshot key.now) }
    {
        Ok(RowKey::SnapshotKey {
            volume: volume.try_clone(alloc)?,
            bucket: bucket.try_clone(alloc)?,
            snapshot,
            key: key.try_clone(alloc)?,
        })
    }

    pub fn of_renamed(
        alloc: Global,
        volume: &Name,
        bucket: &Name,
        owner: u64,
        local: u64,
    ) -> Result<RowKey, OutOfMemory>
        ensures { IfOk result (λ made. made ≡ AnyKey.Renamed volume.now bucket.now owner local) }
    {
        Ok(RowKey::Renamed {
            volume: volume.try_clone(alloc)?,
            bucket: bucket.try_clone(alloc)?,
            owner,
            local,
        })
    }
}

impl TryClone for RowKey {
    fn try_clone(&self, alloc: Global) -> Result<RowKey, OutOfMemory> {
        match self {
            RowKey::Volume { volume } => RowKey::of_volume(alloc, volume),
            RowKey::Bucket { volume, bucket } => RowKey::of_bucket(alloc, volume, bucket),
            RowKey::Key {
                volume,
                bucket,
                key,
            } => RowKey::of_key(alloc, volume, bucket, key),
            RowKey::Open {
                volume,
                bucket,
                key,
                number,
            } => RowKey::of_session(alloc, volume, bucket, key, *number),
            RowKey::Deleted {
                volume,
                bucket,
                owner,
                key,
                local,
            } => RowKey::of_deleted(alloc, volume, bucket, *owner, key, *local),
            RowKey::Snapshot {
                volume,
                bucket,
                number,
            } => RowKey::of_snapshot(alloc, volume, bucket, *number),
            RowKey::SnapshotKey {
                volume,
                bucket,
                snapshot,
                key,
            } => RowKey::of_snapshot_key(alloc, volume, bucket, *snapshot, key),
            RowKey::Renamed {
                volume,
                bucket,
                owner,
                local,
            } => RowKey::of_renamed(alloc, volume, bucket, *owner, *local),
            RowKey::Stripe { stripe } => Ok(RowKey::Stripe { stripe: *stripe }),
        }
    }
}
