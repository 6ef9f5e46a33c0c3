//! The paths in a line.

ghost use Rattle.std.specs.Prelude.{◌≡◌, ◌<◌, length, None, Some, IfOk, IfSome, MatchOption};
ghost use Rattle.std.specs.List.{list_any, position};
ghost use Rattle.oz_names.specs.Paths.{is_slash, front, back};
ghost use Rattle.oz_command.specs.Paths.{behind_mark, bucket_in, key_in, snapshot_alone, snapshot_key};
ghost use Rattle.oz_command.specs.Paths.{volume_in};

use oz_fields::{Name, OutOfMemory};
use oz_names::split_path;
use std::alloc::Global;

/// A bucket by its path.
#[derive(Debug, Drop)]
pub struct BucketPath {
    pub volume: Name,
    pub bucket: Name,
}

/// A key by its path.
#[derive(Debug, Drop)]
pub struct KeyPath {
    pub volume: Name,
    pub bucket: Name,
    pub key: Name,
}

/// A key of a snapshot, by the rest of its path.
#[derive(Debug, Drop)]
pub struct SnapshotKey {
    pub snapshot: Name,
    pub key: Name,
}

/// The volume that a word names, if it begins with a slash.
#[tactic(auto, unfolding(crate::specs::Paths::volume_in))]
pub fn volume_in(alloc: Global, word: &[u8]) -> Result<Option<Name>, OutOfMemory>
    ensures { IfOk result (λ volume. volume ≡ volume_in word.now) }
{
    let Some(parts) = split_path(word, 1) else {
        return Ok(None);
    };
    Ok(Some(Name::copy(alloc, parts.volume)?))
}

/// The bucket that a word names, if it begins with a slash.
#[tactic(auto, unfolding(crate::specs::Paths::bucket_in))]
pub fn bucket_in(alloc: Global, word: &[u8]) -> Result<Option<BucketPath>, OutOfMemory>
    ensures { IfOk result (λ path. path ≡ bucket_in word.now) }
{
    let Some(parts) = split_path(word, 2) else {
        return Ok(None);
    };
    let volume = Name::copy(alloc, parts.volume)?;
    let bucket = Name::copy(alloc, parts.bucket)?;
    Ok(Some(BucketPath { volume, bucket }))
}

/// The key that a word names, if it begins with a slash.
#[tactic(auto, unfolding(crate::specs::Paths::key_in))]
pub fn key_in(alloc: Global, word: &[u8]) -> Result<Option<KeyPath>, OutOfMemory>
    ensures { IfOk result (λ path. path ≡ key_in word.now) }
{
    let Some(parts) = split_path(word, 3) else {
        return Ok(None);
    };
    let volume = Name::copy(alloc, parts.volume)?;
    let bucket = Name::copy(alloc, parts.bucket)?;
    let key = Name::copy(alloc, parts.rest)?;
    Ok(Some(KeyPath {
        volume,
        bucket,
        key,
    }))
}

/// The snapshot and the key that the rest of a path names, where it is `.snapshot/NAME/KEY`.
#[tactic(auto, unfolding(crate::specs::Paths::snapshot_key))]
pub fn snapshot_key(alloc: Global, rest: &[u8]) -> Result<Option<SnapshotKey>, OutOfMemory>
    ensures { IfOk result (λ found. found ≡ snapshot_key rest.now) }
{
    let Some(behind) = behind_mark(rest) else {
        return Ok(None);
    };
    if !has_slash(behind) {
        return Ok(None);
    }
    let (name, rest) = cut(behind);
    let snapshot = Name::copy(alloc, name)?;
    let key = Name::copy(alloc, rest)?;
    Ok(Some(SnapshotKey { snapshot, key }))
}

/// The snapshot that the rest of a path names, where it is `.snapshot/NAME`.
#[tactic(auto, unfolding(crate::specs::Paths::snapshot_alone))]
pub fn snapshot_alone(alloc: Global, rest: &[u8]) -> Result<Option<Name>, OutOfMemory>
    ensures { IfOk result (λ found. found ≡ snapshot_alone rest.now) }
{
    let Some(behind) = behind_mark(rest) else {
        return Ok(None);
    };
    if has_slash(behind) {
        return Ok(None);
    }
    Ok(Some(Name::copy(alloc, behind)?))
}

/// What stands behind the `.snapshot/` that the rest of a path begins with.
#[tactic(auto, unfolding(crate::specs::Paths::behind_mark))]
fn behind_mark(rest: &[u8]) -> Option<&[u8]>
    ensures { MatchOption result (behind_mark rest.now ≡ None) (λ behind. behind_mark rest.now ≡ Some behind.now) }
{
    rest.strip_prefix(b".snapshot/")
}

fn has_slash(bytes: &[u8]) -> bool
    ensures { result ≡ list_any is_slash bytes.now }
{
    bytes.iter().any(|byte| *byte == b'/')
}

/// What stands before the first slash, and what stands behind it.
fn cut(path: &[u8]) -> (&[u8], &[u8])
    ensures front { result.0.now ≡ front path.now }
    ensures back { result.1.now ≡ back path.now }
{
    match first_slash(path) {
        Some(at) => (&path[..at], &path[at + 1..]),
        None => (path, &[]),
    }
}

fn first_slash(path: &[u8]) -> Option<usize>
    ensures place { result ≡ position is_slash path.now }
    ensures within { IfSome result (λ at. at < length path.now) }
{
    path.iter().position(|byte| *byte == b'/')
}
