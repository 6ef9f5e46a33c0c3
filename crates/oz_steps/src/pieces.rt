//! The pieces of what a line writes.

ghost use Rattle.std.specs.Prelude.{◌≡◌, IfOk};
ghost use Rattle.oz_command.specs.Payload.{bytes_of, data_length};
ghost use Rattle.std.specs.Prelude.{length as length_of};
ghost use Rattle.oz_core.specs.Steps.{pieces_from, pieces_needed};

use oz_command::{Command, Data};
use oz_fields::{Block, LONGEST_PIECE, List, OutOfMemory, Piece};
use std::alloc::Global;

fn length_of(payload: &Data) -> u64
    ensures { result ≡ length_of (bytes_of payload.now) }
{
    match payload {
        Data::Text(text) => text.bytes().len() as u64,
        Data::Fill { length, .. } => u64::from(*length),
    }
}

/// How many bytes a command puts.
pub fn data_length(command: &Command) -> u64
    ensures { result ≡ data_length command.now }
{
    match command {
        Command::KeyPut { payload, .. } | Command::KeyOpen { payload, .. } => length_of(payload),
        Command::VolumeCreate { .. }
        | Command::VolumeDelete { .. }
        | Command::VolumeInfo { .. }
        | Command::BucketCreate { .. }
        | Command::BucketDelete { .. }
        | Command::BucketInfo { .. }
        | Command::BucketList { .. }
        | Command::KeyCommit { .. }
        | Command::KeyGet { .. }
        | Command::KeyDelete { .. }
        | Command::KeyRename { .. }
        | Command::KeyList { .. }
        | Command::KeyExpire { .. }
        | Command::SnapshotCreate { .. }
        | Command::SnapshotDelete { .. }
        | Command::SnapshotInfo { .. }
        | Command::SnapshotList { .. }
        | Command::Admin(_) => 0,
    }
}

/// How many pieces its data has.
pub fn pieces_needed(command: &Command) -> u64
    ensures { result ≡ pieces_needed command.now }
{
    data_length(command).div_ceil(u64::from(LONGEST_PIECE))
}

/// The blocks as the pieces of the data, in the order of its bytes.
pub fn pieces_of(
    alloc: Global,
    command: &Command,
    blocks: &[Block],
) -> Result<List<Piece>, OutOfMemory>
    ensures { IfOk result (λ pieces. pieces ≡ pieces_from 0 command.now blocks.now) }
{
    let mut left = data_length(command);
    let mut pieces = Vec::with_capacity(alloc, blocks.len())?;
    for block in blocks {
        let length = left.min(u64::from(LONGEST_PIECE)) as u32;
        pieces.push(Piece {
            block: *block,
            length,
        })?;
        left -= u64::from(length);
    }
    Ok(List::of(pieces))
}
