//! The commands that ask once.

ghost use Rattle.std.specs.Prelude.{◌≡◌, IfOk, true};
ghost use Rattle.oz_steps.specs.Single.{asks_once, is_on_bucket, is_on_key, is_on_snapshot, is_on_volume, single_of};

use oz_command::Command;
use oz_fields::{Name, OutOfMemory, TryClone};
use oz_requests::Request;
use std::alloc::Global;

fn create_volume(alloc: Global, volume: &Name) -> Result<Request, OutOfMemory>
    ensures { IfOk result (λ request. request ≡ Request.CreateVolume volume.now) }
{
    Ok(Request::CreateVolume {
        volume: volume.try_clone(alloc)?,
    })
}

fn delete_volume(alloc: Global, volume: &Name) -> Result<Request, OutOfMemory>
    ensures { IfOk result (λ request. request ≡ Request.DeleteVolume volume.now) }
{
    Ok(Request::DeleteVolume {
        volume: volume.try_clone(alloc)?,
    })
}

fn info_volume(alloc: Global, volume: &Name) -> Result<Request, OutOfMemory>
    ensures { IfOk result (λ request. request ≡ Request.InfoVolume volume.now) }
{
    Ok(Request::InfoVolume {
        volume: volume.try_clone(alloc)?,
    })
}

fn list_buckets(alloc: Global, volume: &Name) -> Result<Request, OutOfMemory>
    ensures { IfOk result (λ request. request ≡ Request.ListBuckets volume.now) }
{
    Ok(Request::ListBuckets {
        volume: volume.try_clone(alloc)?,
    })
}

fn create_bucket(alloc: Global, volume: &Name, bucket: &Name) -> Result<Request, OutOfMemory>
    ensures { IfOk result (λ request. request ≡ Request.CreateBucket volume.now bucket.now) }
{
    Ok(Request::CreateBucket {
        volume: volume.try_clone(alloc)?,
        bucket: bucket.try_clone(alloc)?,
    })
}

fn delete_bucket(alloc: Global, volume: &Name, bucket: &Name) -> Result<Request, OutOfMemory>
    ensures { IfOk result (λ request. request ≡ Request.DeleteBucket volume.now bucket.now) }
{
    Ok(Request::DeleteBucket {
        volume: volume.try_clone(alloc)?,
        bucket: bucket.try_clone(alloc)?,
    })
}

fn info_bucket(alloc: Global, volume: &Name, bucket: &Name) -> Result<Request, OutOfMemory>
    ensures { IfOk result (λ request. request ≡ Request.InfoBucket volume.now bucket.now) }
{
    Ok(Request::InfoBucket {
        volume: volume.try_clone(alloc)?,
        bucket: bucket.try_clone(alloc)?,
    })
}

fn expire_open(alloc: Global, volume: &Name, bucket: &Name) -> Result<Request, OutOfMemory>
    ensures { IfOk result (λ request. request ≡ Request.ExpireOpen volume.now bucket.now) }
{
    Ok(Request::ExpireOpen {
        volume: volume.try_clone(alloc)?,
        bucket: bucket.try_clone(alloc)?,
    })
}

fn list_snapshots(alloc: Global, volume: &Name, bucket: &Name) -> Result<Request, OutOfMemory>
    ensures { IfOk result (λ request. request ≡ Request.ListSnapshots volume.now bucket.now) }
{
    Ok(Request::ListSnapshots {
        volume: volume.try_clone(alloc)?,
        bucket: bucket.try_clone(alloc)?,
    })
}

fn create_snapshot(
    alloc: Global,
    volume: &Name,
    bucket: &Name,
    snapshot: &Name,
) -> Result<Request, OutOfMemory>
    ensures { IfOk result (λ request. request ≡ Request.CreateSnapshot volume.now bucket.now snapshot.now) }
{
    Ok(Request::CreateSnapshot {
        volume: volume.try_clone(alloc)?,
        bucket: bucket.try_clone(alloc)?,
        snapshot: snapshot.try_clone(alloc)?,
    })
}

fn delete_snapshot(
    alloc: Global,
    volume: &Name,
    bucket: &Name,
    snapshot: &Name,
) -> Result<Request, OutOfMemory>
    ensures { IfOk result (λ request. request ≡ Request.DeleteSnapshot volume.now bucket.now snapshot.now) }
{
    Ok(Request::DeleteSnapshot {
        volume: volume.try_clone(alloc)?,
        bucket: bucket.try_clone(alloc)?,
        snapshot: snapshot.try_clone(alloc)?,
    })
}

fn info_snapshot(
    alloc: Global,
    volume: &Name,
    bucket: &Name,
    snapshot: &Name,
) -> Result<Request, OutOfMemory>
    ensures { IfOk result (λ request. request ≡ Request.InfoSnapshot volume.now bucket.now snapshot.now) }
{
    Ok(Request::InfoSnapshot {
        volume: volume.try_clone(alloc)?,
        bucket: bucket.try_clone(alloc)?,
        snapshot: snapshot.try_clone(alloc)?,
    })
}

fn lookup_key(
    alloc: Global,
    volume: &Name,
    bucket: &Name,
    snapshot: &Option<Name>,
    key: &Name,
) -> Result<Request, OutOfMemory>
    ensures { IfOk result (λ request. request ≡ Request.LookupKey volume.now bucket.now snapshot.now key.now) }
{
    Ok(Request::LookupKey {
        volume: volume.try_clone(alloc)?,
        bucket: bucket.try_clone(alloc)?,
        snapshot: snapshot.try_clone(alloc)?,
        key: key.try_clone(alloc)?,
    })
}

fn delete_key(
    alloc: Global,
    volume: &Name,
    bucket: &Name,
    key: &Name,
) -> Result<Request, OutOfMemory>
    ensures { IfOk result (λ request. request ≡ Request.DeleteKey volume.now bucket.now key.now) }
{
    Ok(Request::DeleteKey {
        volume: volume.try_clone(alloc)?,
        bucket: bucket.try_clone(alloc)?,
        key: key.try_clone(alloc)?,
    })
}

fn rename_key(
    alloc: Global,
    volume: &Name,
    bucket: &Name,
    key: &Name,
    to: &Name,
) -> Result<Request, OutOfMemory>
    ensures { IfOk result (λ request. request ≡ Request.RenameKey volume.now bucket.now key.now to.now) }
{
    Ok(Request::RenameKey {
        volume: volume.try_clone(alloc)?,
        bucket: bucket.try_clone(alloc)?,
        key: key.try_clone(alloc)?,
        to: to.try_clone(alloc)?,
    })
}

fn list_keys(
    alloc: Global,
    volume: &Name,
    bucket: &Name,
    snapshot: &Option<Name>,
    prefix: &Name,
    start: &Name,
    count: u16,
) -> Result<Request, OutOfMemory>
    ensures { IfOk result (λ request. request ≡ Request.ListKeys volume.now bucket.now snapshot.now prefix.now start.now count) }
{
    Ok(Request::ListKeys {
        volume: volume.try_clone(alloc)?,
        bucket: bucket.try_clone(alloc)?,
        snapshot: snapshot.try_clone(alloc)?,
        prefix: prefix.try_clone(alloc)?,
        start: start.try_clone(alloc)?,
        count,
    })
}

fn on_volume(alloc: Global, command: &Command) -> Result<Request, OutOfMemory>
    requires { is_on_volume command.now ≡ true }
    ensures { IfOk result (λ request. single_of command.now ≡ Some request) }
{
    match command {
        Command::VolumeCreate { volume } => create_volume(alloc, volume),
        Command::VolumeDelete { volume } => delete_volume(alloc, volume),
        Command::VolumeInfo { volume } => info_volume(alloc, volume),
        Command::BucketList { volume } => list_buckets(alloc, volume),
        _ => unreachable!(),
    }
}

fn on_bucket(alloc: Global, command: &Command) -> Result<Request, OutOfMemory>
    requires { is_on_bucket command.now ≡ true }
    ensures { IfOk result (λ request. single_of command.now ≡ Some request) }
{
    match command {
        Command::BucketCreate { volume, bucket } => create_bucket(alloc, volume, bucket),
        Command::BucketDelete { volume, bucket } => delete_bucket(alloc, volume, bucket),
        Command::BucketInfo { volume, bucket } => info_bucket(alloc, volume, bucket),
        Command::KeyExpire { volume, bucket } => expire_open(alloc, volume, bucket),
        Command::SnapshotList { volume, bucket } => list_snapshots(alloc, volume, bucket),
        _ => unreachable!(),
    }
}

fn on_snapshot(alloc: Global, command: &Command) -> Result<Request, OutOfMemory>
    requires { is_on_snapshot command.now ≡ true }
    ensures { IfOk result (λ request. single_of command.now ≡ Some request) }
{
    match command {
        Command::SnapshotCreate {
            volume,
            bucket,
            snapshot,
        } => create_snapshot(alloc, volume, bucket, snapshot),
        Command::SnapshotDelete {
            volume,
            bucket,
            snapshot,
        } => delete_snapshot(alloc, volume, bucket, snapshot),
        Command::SnapshotInfo {
            volume,
            bucket,
            snapshot,
        } => info_snapshot(alloc, volume, bucket, snapshot),
        _ => unreachable!(),
    }
}

fn on_key(alloc: Global, command: &Command) -> Result<Request, OutOfMemory>
    requires { is_on_key command.now ≡ true }
    ensures { IfOk result (λ request. single_of command.now ≡ Some request) }
{
    match command {
        Command::KeyGet {
            volume,
            bucket,
            snapshot,
            key,
        } => lookup_key(alloc, volume, bucket, snapshot, key),
        Command::KeyDelete {
            volume,
            bucket,
            key,
        } => delete_key(alloc, volume, bucket, key),
        Command::KeyRename {
            volume,
            bucket,
            key,
            to,
        } => rename_key(alloc, volume, bucket, key, to),
        Command::KeyList {
            volume,
            bucket,
            snapshot,
            prefix,
            start,
            count,
        } => list_keys(alloc, volume, bucket, snapshot, prefix, start, *count),
        _ => unreachable!(),
    }
}

/// What such a command asks.
pub(crate) fn request_of(alloc: Global, command: &Command) -> Result<Request, OutOfMemory>
    requires { asks_once command.now ≡ true }
    ensures { IfOk result (λ request. single_of command.now ≡ Some request) }
{
    match command {
        Command::VolumeCreate { .. }
        | Command::VolumeDelete { .. }
        | Command::VolumeInfo { .. }
        | Command::BucketList { .. } => on_volume(alloc, command),
        Command::BucketCreate { .. }
        | Command::BucketDelete { .. }
        | Command::BucketInfo { .. }
        | Command::KeyExpire { .. }
        | Command::SnapshotList { .. } => on_bucket(alloc, command),
        Command::KeyGet { .. }
        | Command::KeyDelete { .. }
        | Command::KeyRename { .. }
        | Command::KeyList { .. } => on_key(alloc, command),
        Command::SnapshotCreate { .. }
        | Command::SnapshotDelete { .. }
        | Command::SnapshotInfo { .. } => on_snapshot(alloc, command),
        Command::KeyPut { .. }
        | Command::KeyOpen { .. }
        | Command::KeyCommit { .. }
        | Command::Admin(_) => unreachable!(),
    }
}
