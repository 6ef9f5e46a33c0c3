//! Commands on keys.

ghost use Rattle.std.specs.Prelude.{◌≡◌, IfOk};
ghost use Rattle.oz_command.specs.Commands.{key_command, key_put, key_open, key_commit, key_get, key_delete};
ghost use Rattle.oz_command.specs.Commands.{key_rename, key_list, key_expire, got, listed, listed_in, opened};
ghost use Rattle.oz_command.specs.Words.{words};

use crate::command::Command;
use crate::paths::{
    BucketPath, KeyPath, SnapshotKey, bucket_in, key_in, snapshot_alone, snapshot_key,
};
use crate::payload_words::payload_of;
use crate::ranges::{KeyRange, range_of};
use crate::words::{is_client_name, only_word, split_word};
use oz_fields::{Name, OutOfMemory};
use std::alloc::Global;

#[tactic(auto, unfolding(crate::specs::Commands::key_command))]
pub fn key_command(alloc: Global, verb: &[u8], line: &[u8]) -> Result<Option<Command>, OutOfMemory>
    ensures { IfOk result (λ command. command ≡ key_command verb.now (words line.now)) }
{
    if verb == b"put".as_slice() {
        return key_put(alloc, line);
    }
    if verb == b"open".as_slice() {
        return key_open(alloc, line);
    }
    if verb == b"commit".as_slice() {
        return key_commit(alloc, line);
    }
    if verb == b"get".as_slice() {
        return key_get(alloc, line);
    }
    if verb == b"delete".as_slice() {
        return key_delete(alloc, line);
    }
    if verb == b"rename".as_slice() {
        return key_rename(alloc, line);
    }
    if verb == b"list".as_slice() {
        return key_list(alloc, line);
    }
    if verb == b"expire".as_slice() {
        return key_expire(alloc, line);
    }
    Ok(None)
}

#[tactic(auto, unfolding(crate::specs::Commands::key_put))]
fn key_put(alloc: Global, line: &[u8]) -> Result<Option<Command>, OutOfMemory>
    ensures { IfOk result (λ command. command ≡ key_put (words line.now)) }
{
    let Some((word, rest)) = split_word(line) else {
        return Ok(None);
    };
    let Some(path) = key_in(alloc, word)? else {
        return Ok(None);
    };
    let Some(payload) = payload_of(alloc, rest)? else {
        return Ok(None);
    };
    let KeyPath {
        volume,
        bucket,
        key,
    } = path;
    Ok(Some(Command::KeyPut {
        volume,
        bucket,
        key,
        payload,
    }))
}

#[tactic(auto, unfolding(crate::specs::Commands::key_open))]
fn key_open(alloc: Global, line: &[u8]) -> Result<Option<Command>, OutOfMemory>
    ensures { IfOk result (λ command. command ≡ key_open (words line.now)) }
{
    let Some((label, rest)) = split_word(line) else {
        return Ok(None);
    };
    if !is_client_name(label) {
        return Ok(None);
    }
    opened(alloc, label, rest)
}

fn opened(alloc: Global, label: &[u8], line: &[u8]) -> Result<Option<Command>, OutOfMemory>
    ensures { IfOk result (λ command. command ≡ opened label.now (words line.now)) }
{
    let Some((word, rest)) = split_word(line) else {
        return Ok(None);
    };
    let Some(path) = key_in(alloc, word)? else {
        return Ok(None);
    };
    let Some(payload) = payload_of(alloc, rest)? else {
        return Ok(None);
    };
    let label = Name::copy(alloc, label)?;
    let KeyPath {
        volume,
        bucket,
        key,
    } = path;
    Ok(Some(Command::KeyOpen {
        label,
        volume,
        bucket,
        key,
        payload,
    }))
}

#[tactic(auto, unfolding(crate::specs::Commands::key_commit))]
fn key_commit(alloc: Global, line: &[u8]) -> Result<Option<Command>, OutOfMemory>
    ensures { IfOk result (λ command. command ≡ key_commit (words line.now)) }
{
    let Some(label) = only_word(line) else {
        return Ok(None);
    };
    if !is_client_name(label) {
        return Ok(None);
    }
    let label = Name::copy(alloc, label)?;
    Ok(Some(Command::KeyCommit { label }))
}

#[tactic(auto, unfolding(crate::specs::Commands::key_get))]
fn key_get(alloc: Global, line: &[u8]) -> Result<Option<Command>, OutOfMemory>
    ensures { IfOk result (λ command. command ≡ key_get (words line.now)) }
{
    let Some(word) = only_word(line) else {
        return Ok(None);
    };
    let Some(path) = key_in(alloc, word)? else {
        return Ok(None);
    };
    Ok(Some(got(alloc, path)?))
}

/// A key as it is, or that of a snapshot.
#[tactic(auto, unfolding(crate::specs::Commands::got))]
fn got(alloc: Global, path: KeyPath) -> Result<Command, OutOfMemory>
    ensures { IfOk result (λ command. command ≡ got path) }
{
    let found = snapshot_key(alloc, path.key.bytes())?;
    let KeyPath {
        volume,
        bucket,
        key,
    } = path;
    Ok(match found {
        Some(SnapshotKey { snapshot, key }) => Command::KeyGet {
            volume,
            bucket,
            snapshot: Some(snapshot),
            key,
        },
        None => Command::KeyGet {
            volume,
            bucket,
            snapshot: None,
            key,
        },
    })
}

#[tactic(auto, unfolding(crate::specs::Commands::key_delete))]
fn key_delete(alloc: Global, line: &[u8]) -> Result<Option<Command>, OutOfMemory>
    ensures { IfOk result (λ command. command ≡ key_delete (words line.now)) }
{
    let Some(word) = only_word(line) else {
        return Ok(None);
    };
    let Some(path) = key_in(alloc, word)? else {
        return Ok(None);
    };
    let KeyPath {
        volume,
        bucket,
        key,
    } = path;
    Ok(Some(Command::KeyDelete {
        volume,
        bucket,
        key,
    }))
}

#[tactic(auto, unfolding(crate::specs::Commands::key_rename))]
fn key_rename(alloc: Global, line: &[u8]) -> Result<Option<Command>, OutOfMemory>
    ensures { IfOk result (λ command. command ≡ key_rename (words line.now)) }
{
    let Some((word, rest)) = split_word(line) else {
        return Ok(None);
    };
    let Some(path) = key_in(alloc, word)? else {
        return Ok(None);
    };
    let Some(to) = only_word(rest) else {
        return Ok(None);
    };
    let to = Name::copy(alloc, to)?;
    let KeyPath {
        volume,
        bucket,
        key,
    } = path;
    Ok(Some(Command::KeyRename {
        volume,
        bucket,
        key,
        to,
    }))
}

#[tactic(auto, unfolding(crate::specs::Commands::key_list))]
fn key_list(alloc: Global, line: &[u8]) -> Result<Option<Command>, OutOfMemory>
    ensures { IfOk result (λ command. command ≡ key_list (words line.now)) }
{
    let Some((word, rest)) = split_word(line) else {
        return Ok(None);
    };
    let Some(range) = range_of(alloc, rest)? else {
        return Ok(None);
    };
    let Some(whole) = bucket_in(alloc, word)? else {
        return Ok(None);
    };
    let Some(path) = key_in(alloc, word)? else {
        return Ok(None);
    };
    Ok(Some(listed(alloc, whole, path, range)?))
}

/// A bucket, or its snapshot.
#[tactic(auto, unfolding(crate::specs::Commands::listed))]
fn listed(
    alloc: Global,
    whole: BucketPath,
    path: KeyPath,
    range: KeyRange,
) -> Result<Command, OutOfMemory>
    ensures { IfOk result (λ command. command ≡ listed whole path range) }
{
    let KeyPath {
        volume,
        bucket,
        key,
    } = path;
    let cut = BucketPath { volume, bucket };
    if key.bytes().is_empty() {
        return Ok(listed_in(cut, None, range));
    }
    match snapshot_alone(alloc, key.bytes())? {
        Some(snapshot) => Ok(listed_in(cut, Some(snapshot), range)),
        None => Ok(listed_in(whole, None, range)),
    }
}

fn listed_in(path: BucketPath, snapshot: Option<Name>, range: KeyRange) -> Command
    ensures { result ≡ listed_in path snapshot range }
{
    let BucketPath { volume, bucket } = path;
    let KeyRange {
        prefix,
        start,
        count,
    } = range;
    Command::KeyList {
        volume,
        bucket,
        snapshot,
        prefix,
        start,
        count,
    }
}

#[tactic(auto, unfolding(crate::specs::Commands::key_expire))]
fn key_expire(alloc: Global, line: &[u8]) -> Result<Option<Command>, OutOfMemory>
    ensures { IfOk result (λ command. command ≡ key_expire (words line.now)) }
{
    let Some(word) = only_word(line) else {
        return Ok(None);
    };
    let path = bucket_in(alloc, word)?;
    Ok(path.map(|BucketPath { volume, bucket }| Command::KeyExpire { volume, bucket }))
}
