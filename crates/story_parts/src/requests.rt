//! Requests: the name that the report prints, and the fields.

use crate::items::list;
use crate::words::Words;
use oz_fields::{Name, OutOfMemory};
use oz_requests::{Exclude, Request};
use std::alloc::Global;

pub fn request(alloc: Global, words: &mut Words<'_>) -> Result<Request, OutOfMemory> {
    match words.word() {
        "CreateVolume" => create_volume(alloc, words),
        "InfoVolume" => info_volume(alloc, words),
        "DeleteVolume" => delete_volume(alloc, words),
        "CreateBucket" => create_bucket(alloc, words),
        "InfoBucket" => info_bucket(alloc, words),
        "DeleteBucket" => delete_bucket(alloc, words),
        "ListBuckets" => list_buckets(alloc, words),
        other => on_keys(alloc, words, other),
    }
}

fn on_keys(alloc: Global, words: &mut Words<'_>, word: &str) -> Result<Request, OutOfMemory> {
    match word {
        "CreateKey" => create_key(alloc, words),
        "AllocateBlock" => allocate_block(alloc, words),
        "CommitKey" => commit_key(alloc, words),
        "DeleteKey" => delete_key(alloc, words),
        "RenameKey" => rename_key(alloc, words),
        "LookupKey" => lookup_key(alloc, words),
        "ListKeys" => list_keys(alloc, words),
        "ExpireOpen" => expire_open(alloc, words),
        other => on_snapshots(alloc, words, other),
    }
}

fn on_snapshots(alloc: Global, words: &mut Words<'_>, word: &str) -> Result<Request, OutOfMemory> {
    match word {
        "CreateSnapshot" => create_snapshot(alloc, words),
        "DeleteSnapshot" => delete_snapshot(alloc, words),
        "ListSnapshots" => list_snapshots(alloc, words),
        "InfoSnapshot" => info_snapshot(alloc, words),
        "Purge" => purge(alloc, words),
        "MoveDeleted" => move_deleted(alloc, words),
        "PurgeSnapshot" => purge_snapshot(alloc, words),
        _ => {
            words.refuse();
            info_volume(alloc, words)
        }
    }
}

/// A bucket by its name and its volume's.
#[derive(Drop)]
struct Place {
    volume: Name,
    bucket: Name,
}

fn read_place(alloc: Global, words: &mut Words<'_>) -> Result<Place, OutOfMemory> {
    let volume = words.name(alloc)?;
    let bucket = words.name(alloc)?;
    Ok(Place { volume, bucket })
}

/// A key or a snapshot by its name and its bucket's.
#[derive(Drop)]
struct Path {
    place: Place,
    name: Name,
}

fn read_path(alloc: Global, words: &mut Words<'_>) -> Result<Path, OutOfMemory> {
    let place = read_place(alloc, words)?;
    let name = words.name(alloc)?;
    Ok(Path { place, name })
}

fn create_volume(alloc: Global, words: &mut Words<'_>) -> Result<Request, OutOfMemory> {
    let volume = words.name(alloc)?;
    Ok(Request::CreateVolume { volume })
}

fn info_volume(alloc: Global, words: &mut Words<'_>) -> Result<Request, OutOfMemory> {
    let volume = words.name(alloc)?;
    Ok(Request::InfoVolume { volume })
}

fn delete_volume(alloc: Global, words: &mut Words<'_>) -> Result<Request, OutOfMemory> {
    let volume = words.name(alloc)?;
    Ok(Request::DeleteVolume { volume })
}

fn create_bucket(alloc: Global, words: &mut Words<'_>) -> Result<Request, OutOfMemory> {
    let Place { volume, bucket } = read_place(alloc, words)?;
    Ok(Request::CreateBucket { volume, bucket })
}

fn info_bucket(alloc: Global, words: &mut Words<'_>) -> Result<Request, OutOfMemory> {
    let Place { volume, bucket } = read_place(alloc, words)?;
    Ok(Request::InfoBucket { volume, bucket })
}

fn delete_bucket(alloc: Global, words: &mut Words<'_>) -> Result<Request, OutOfMemory> {
    let Place { volume, bucket } = read_place(alloc, words)?;
    Ok(Request::DeleteBucket { volume, bucket })
}

fn list_buckets(alloc: Global, words: &mut Words<'_>) -> Result<Request, OutOfMemory> {
    let volume = words.name(alloc)?;
    Ok(Request::ListBuckets { volume })
}

fn create_key(alloc: Global, words: &mut Words<'_>) -> Result<Request, OutOfMemory> {
    let Path { place, name } = read_path(alloc, words)?;
    Ok(Request::CreateKey {
        volume: place.volume,
        bucket: place.bucket,
        key: name,
    })
}

/// What is excluded are two lists, of containers and of pipelines.
fn allocate_block(alloc: Global, words: &mut Words<'_>) -> Result<Request, OutOfMemory> {
    let Path { place, name } = read_path(alloc, words)?;
    let session = words.u64();
    let exclude = exclude(alloc, words)?;
    Ok(Request::AllocateBlock {
        volume: place.volume,
        bucket: place.bucket,
        key: name,
        session,
        exclude,
    })
}

fn exclude(alloc: Global, words: &mut Words<'_>) -> Result<Exclude, OutOfMemory> {
    let containers = list(alloc, words)?;
    let pipelines = list(alloc, words)?;
    Ok(Exclude {
        containers,
        pipelines,
    })
}

fn commit_key(alloc: Global, words: &mut Words<'_>) -> Result<Request, OutOfMemory> {
    let Path { place, name } = read_path(alloc, words)?;
    let session = words.u64();
    let pieces = list(alloc, words)?;
    Ok(Request::CommitKey {
        volume: place.volume,
        bucket: place.bucket,
        key: name,
        session,
        pieces,
    })
}

fn delete_key(alloc: Global, words: &mut Words<'_>) -> Result<Request, OutOfMemory> {
    let Path { place, name } = read_path(alloc, words)?;
    Ok(Request::DeleteKey {
        volume: place.volume,
        bucket: place.bucket,
        key: name,
    })
}

fn rename_key(alloc: Global, words: &mut Words<'_>) -> Result<Request, OutOfMemory> {
    let Path { place, name } = read_path(alloc, words)?;
    let to = words.name(alloc)?;
    Ok(Request::RenameKey {
        volume: place.volume,
        bucket: place.bucket,
        key: name,
        to,
    })
}

fn lookup_key(alloc: Global, words: &mut Words<'_>) -> Result<Request, OutOfMemory> {
    let Place { volume, bucket } = read_place(alloc, words)?;
    let snapshot = words.name_or_none(alloc)?;
    let key = words.name(alloc)?;
    Ok(Request::LookupKey {
        volume,
        bucket,
        snapshot,
        key,
    })
}

fn list_keys(alloc: Global, words: &mut Words<'_>) -> Result<Request, OutOfMemory> {
    let Place { volume, bucket } = read_place(alloc, words)?;
    let snapshot = words.name_or_none(alloc)?;
    let prefix = words.name(alloc)?;
    let start = words.name(alloc)?;
    let count = words.u16();
    Ok(Request::ListKeys {
        volume,
        bucket,
        snapshot,
        prefix,
        start,
        count,
    })
}

fn expire_open(alloc: Global, words: &mut Words<'_>) -> Result<Request, OutOfMemory> {
    let Place { volume, bucket } = read_place(alloc, words)?;
    Ok(Request::ExpireOpen { volume, bucket })
}

fn create_snapshot(alloc: Global, words: &mut Words<'_>) -> Result<Request, OutOfMemory> {
    let Path { place, name } = read_path(alloc, words)?;
    Ok(Request::CreateSnapshot {
        volume: place.volume,
        bucket: place.bucket,
        snapshot: name,
    })
}

fn delete_snapshot(alloc: Global, words: &mut Words<'_>) -> Result<Request, OutOfMemory> {
    let Path { place, name } = read_path(alloc, words)?;
    Ok(Request::DeleteSnapshot {
        volume: place.volume,
        bucket: place.bucket,
        snapshot: name,
    })
}

fn list_snapshots(alloc: Global, words: &mut Words<'_>) -> Result<Request, OutOfMemory> {
    let Place { volume, bucket } = read_place(alloc, words)?;
    Ok(Request::ListSnapshots { volume, bucket })
}

fn info_snapshot(alloc: Global, words: &mut Words<'_>) -> Result<Request, OutOfMemory> {
    let Path { place, name } = read_path(alloc, words)?;
    Ok(Request::InfoSnapshot {
        volume: place.volume,
        bucket: place.bucket,
        snapshot: name,
    })
}

fn purge(alloc: Global, words: &mut Words<'_>) -> Result<Request, OutOfMemory> {
    let volume = words.name(alloc)?;
    let rows = list(alloc, words)?;
    Ok(Request::Purge { volume, rows })
}

fn move_deleted(alloc: Global, words: &mut Words<'_>) -> Result<Request, OutOfMemory> {
    let Place { volume, bucket } = read_place(alloc, words)?;
    let number = words.u64();
    let to = words.u64();
    Ok(Request::MoveDeleted {
        volume,
        bucket,
        number,
        to,
    })
}

fn purge_snapshot(alloc: Global, words: &mut Words<'_>) -> Result<Request, OutOfMemory> {
    let Place { volume, bucket } = read_place(alloc, words)?;
    let number = words.u64();
    Ok(Request::PurgeSnapshot {
        volume,
        bucket,
        number,
    })
}
