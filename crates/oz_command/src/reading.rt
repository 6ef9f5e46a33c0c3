//! The command that the words of a line say.

ghost use Rattle.std.specs.Prelude.{◌≡◌, IfOk};
ghost use Rattle.oz_command.specs.Commands.{bucket_command, bucket_verb, command_behind, command_of};
ghost use Rattle.oz_command.specs.Commands.{volume_command, volume_verb};
ghost use Rattle.oz_command.specs.Words.{words};

use crate::admin::admin_command;
use crate::command::Command;
use crate::keys::key_command;
use crate::paths::{BucketPath, bucket_in, volume_in};
use crate::snapshots::snapshot_command;
use crate::words::{only_word, split_word};
use oz_fields::{Name, OutOfMemory};
use std::alloc::Global;

/// The command that the words of a line say, if they say one.
#[tactic(auto, unfolding(crate::specs::Commands::command_of))]
pub fn command_of(alloc: Global, line: &[u8]) -> Result<Option<Command>, OutOfMemory>
    ensures { IfOk result (λ command. command ≡ command_of (words line.now)) }
{
    let Some((kind, rest)) = split_word(line) else {
        return Ok(None);
    };
    let Some((verb, rest)) = split_word(rest) else {
        return Ok(None);
    };
    command_behind(alloc, kind, verb, rest)
}

#[tactic(auto, unfolding(crate::specs::Commands::command_behind))]
fn command_behind(
    alloc: Global,
    kind: &[u8],
    verb: &[u8],
    line: &[u8],
) -> Result<Option<Command>, OutOfMemory>
    ensures { IfOk result (λ command. command ≡ command_behind kind.now verb.now (words line.now)) }
{
    if kind == b"volume".as_slice() {
        return volume_command(alloc, verb, line);
    }
    if kind == b"bucket".as_slice() {
        return bucket_command(alloc, verb, line);
    }
    if kind == b"key".as_slice() {
        return key_command(alloc, verb, line);
    }
    if kind == b"snapshot".as_slice() {
        return snapshot_command(alloc, verb, line);
    }
    if kind == b"admin".as_slice() {
        return Ok(admin_command(verb, line).map(Command::Admin));
    }
    Ok(None)
}

#[tactic(auto, unfolding(crate::specs::Commands::volume_command))]
fn volume_command(alloc: Global, verb: &[u8], line: &[u8]) -> Result<Option<Command>, OutOfMemory>
    ensures { IfOk result (λ command. command ≡ volume_command verb.now (words line.now)) }
{
    let Some(word) = only_word(line) else {
        return Ok(None);
    };
    let Some(volume) = volume_in(alloc, word)? else {
        return Ok(None);
    };
    Ok(volume_verb(verb, volume))
}

fn volume_verb(verb: &[u8], volume: Name) -> Option<Command>
    ensures { result ≡ volume_verb verb.now volume }
{
    if verb == b"create".as_slice() {
        return Some(Command::VolumeCreate { volume });
    }
    if verb == b"delete".as_slice() {
        return Some(Command::VolumeDelete { volume });
    }
    if verb == b"info".as_slice() {
        return Some(Command::VolumeInfo { volume });
    }
    None
}

#[tactic(auto, unfolding(crate::specs::Commands::bucket_command))]
fn bucket_command(alloc: Global, verb: &[u8], line: &[u8]) -> Result<Option<Command>, OutOfMemory>
    ensures { IfOk result (λ command. command ≡ bucket_command verb.now (words line.now)) }
{
    let Some(word) = only_word(line) else {
        return Ok(None);
    };
    if verb == b"list".as_slice() {
        let volume = volume_in(alloc, word)?;
        return Ok(volume.map(|volume| Command::BucketList { volume }));
    }
    let Some(path) = bucket_in(alloc, word)? else {
        return Ok(None);
    };
    Ok(bucket_verb(verb, path))
}

fn bucket_verb(verb: &[u8], path: BucketPath) -> Option<Command>
    ensures { result ≡ bucket_verb verb.now path }
{
    let BucketPath { volume, bucket } = path;
    if verb == b"create".as_slice() {
        return Some(Command::BucketCreate { volume, bucket });
    }
    if verb == b"delete".as_slice() {
        return Some(Command::BucketDelete { volume, bucket });
    }
    if verb == b"info".as_slice() {
        return Some(Command::BucketInfo { volume, bucket });
    }
    None
}
