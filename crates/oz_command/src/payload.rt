//! The data that a command puts.

ghost use Rattle.std.specs.Prelude.{◌≡◌, ◌+◌, ◌≤◌, ◌<◌, ◌^◌, [], IfOk, MatchOption, map, take, drop};
ghost use Rattle.std.specs.Prelude.{length as length_of};
ghost use Rattle.std.specs.List.{range_with_len};
ghost use Rattle.oz_command.specs.Payload.{bytes_from, bytes_of, data_of, data_length, fill_byte};

use crate::command::{Command, Data};
use oz_fields::OutOfMemory;
use std::alloc::Global;

/// Most bytes of a text that a line puts.
pub const LONGEST_TEXT: usize = 1_024;

/// Most bytes that are made of a number.
pub const LONGEST_FILL: u32 = 1_048_576;

/// Data is cut into pieces of so many bytes, the last shorter.
pub const PIECE_BYTES: u32 = 65_536;

/// The bytes of a command's data from a place on, counted from 0.
pub fn piece_of(
    alloc: Global,
    command: &Command,
    first: u64,
    length: u32,
) -> Result<Vec<u8>, OutOfMemory>
    requires { first + length ≤ data_length command.now }
    ensures { IfOk result (λ piece. piece.items ≡ bytes_from command.now first length) }
{
    match payload_in(command) {
        Some(Data::Text(text)) => {
            let start = first as usize;
            Vec::from_slice(alloc, &text.bytes()[start..start + length as usize])
        }
        Some(
            Data::Fill {
                number,
                length: whole,
            },
        ) => {
            let _whole = *whole;
            filled(alloc, *number, first, length)
        }
        None => Ok(Vec::new(alloc)),
    }
}

fn payload_in(command: &Command) -> Option<&Data>
    ensures { MatchOption result (data_of command.now ≡ []) (λ payload. data_of command.now ≡ bytes_of payload.now) }
{
    match command {
        Command::KeyPut { payload, .. } | Command::KeyOpen { payload, .. } => Some(payload),
        Command::VolumeCreate { .. }
        | Command::VolumeDelete { .. }
        | Command::VolumeInfo { .. }
        | Command::BucketCreate { .. }
        | Command::BucketDelete { .. }
        | Command::BucketInfo { .. }
        | Command::BucketList { .. }
        | Command::KeyCommit { .. }
        | Command::KeyGet { .. }
        | Command::KeyDelete { .. }
        | Command::KeyRename { .. }
        | Command::KeyList { .. }
        | Command::KeyExpire { .. }
        | Command::SnapshotCreate { .. }
        | Command::SnapshotDelete { .. }
        | Command::SnapshotInfo { .. }
        | Command::SnapshotList { .. }
        | Command::Admin(_) => None,
    }
}

fn filled(alloc: Global, number: u64, first: u64, length: u32) -> Result<Vec<u8>, OutOfMemory>
    requires { first + length < 2 ^ 32 }
    ensures { IfOk result (λ bytes. bytes.items ≡ map (fill_byte number) (range_with_len first length)) }
{
    let mut bytes = Vec::with_capacity(alloc, length as usize)?;
    for i in first..first + u64::from(length) {
        bytes.push(fill_byte(number, i))?;
    }
    Ok(bytes)
}

fn fill_byte(number: u64, i: u64) -> u8
    ensures { result ≡ fill_byte number i }
{
    ((number % 256 + i % 256 + i / 256 % 256) % 256) as u8
}
