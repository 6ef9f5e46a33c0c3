//! Commands on snapshots.

ghost use Rattle.std.specs.Prelude.{◌≡◌, IfOk};
ghost use Rattle.oz_command.specs.Commands.{snapshot_command, snapshot_list, snapshot_named, snapshot_verb};
ghost use Rattle.oz_command.specs.Words.{words};

use crate::command::Command;
use crate::paths::{BucketPath, bucket_in};
use crate::words::{only_word, split_word};
use oz_fields::{Name, OutOfMemory};
use std::alloc::Global;

#[tactic(auto, unfolding(crate::specs::Commands::snapshot_command))]
pub fn snapshot_command(
    alloc: Global,
    verb: &[u8],
    line: &[u8],
) -> Result<Option<Command>, OutOfMemory>
    ensures { IfOk result (λ command. command ≡ snapshot_command verb.now (words line.now)) }
{
    if verb == b"list".as_slice() {
        return snapshot_list(alloc, line);
    }
    snapshot_named(alloc, verb, line)
}

#[tactic(auto, unfolding(crate::specs::Commands::snapshot_list))]
fn snapshot_list(alloc: Global, line: &[u8]) -> Result<Option<Command>, OutOfMemory>
    ensures { IfOk result (λ command. command ≡ snapshot_list (words line.now)) }
{
    let Some(word) = only_word(line) else {
        return Ok(None);
    };
    let path = bucket_in(alloc, word)?;
    Ok(path.map(|BucketPath { volume, bucket }| Command::SnapshotList { volume, bucket }))
}

#[tactic(auto, unfolding(crate::specs::Commands::snapshot_named))]
fn snapshot_named(alloc: Global, verb: &[u8], line: &[u8]) -> Result<Option<Command>, OutOfMemory>
    ensures { IfOk result (λ command. command ≡ snapshot_named verb.now (words line.now)) }
{
    let Some((word, rest)) = split_word(line) else {
        return Ok(None);
    };
    let Some(path) = bucket_in(alloc, word)? else {
        return Ok(None);
    };
    let Some(snapshot) = only_word(rest) else {
        return Ok(None);
    };
    let snapshot = Name::copy(alloc, snapshot)?;
    Ok(snapshot_verb(verb, path, snapshot))
}

fn snapshot_verb(verb: &[u8], path: BucketPath, snapshot: Name) -> Option<Command>
    ensures { result ≡ snapshot_verb verb.now path snapshot }
{
    let BucketPath { volume, bucket } = path;
    if verb == b"create".as_slice() {
        return Some(Command::SnapshotCreate {
            volume,
            bucket,
            snapshot,
        });
    }
    if verb == b"delete".as_slice() {
        return Some(Command::SnapshotDelete {
            volume,
            bucket,
            snapshot,
        });
    }
    if verb == b"info".as_slice() {
        return Some(Command::SnapshotInfo {
            volume,
            bucket,
            snapshot,
        });
    }
    None
}
