//! Single fields, read from the front of bytes. Each call gives what it read and the bytes behind it.

ghost use Rattle.std.specs.Prelude.{◌≡◌, ◌≤◌, IfOk};
ghost use Rattle.oz_names.specs.Names.{is_volume_name as passes_as_volume, is_key_name as passes_as_key};
ghost use Rattle.oz_rows.specs.Reading.{ReadGives, volume_name_at, key_name_at, owner_at, number_at, block_number_at};
ghost use Rattle.oz_rows.specs.Reading.{same_local_at, drawn_at, length_at, stripe_at, state_at, count_at, block_at};
ghost use Rattle.oz_rows.specs.Reading.{piece_at};

use crate::fault::ReadFault;
use crate::row::SnapshotState;
use oz_fields::{Block, GREATEST_BLOCK_NUMBER, LONGEST_PIECE, Name, Piece, Reader};
use oz_names::{MOST_BLOCKS, MOST_NUMBERS, STRIPES, key_name, volume_name};
use std::alloc::Global;

/// The name of a volume. Buckets and snapshots are named by the same rules.
pub(crate) fn volume_name_of(alloc: Global, bytes: &[u8]) -> Result<(Name, &[u8]), ReadFault>
    ensures { ReadGives (λ x. (x.0, x.1.now)) result (volume_name_at bytes.now) }
{
    let (name, rest) = volume_text_of(bytes)?;
    Ok((Name::copy(alloc, name)?, rest))
}

/// The name of a key.
pub(crate) fn key_name_of(alloc: Global, bytes: &[u8]) -> Result<(Name, &[u8]), ReadFault>
    ensures { ReadGives (λ x. (x.0, x.1.now)) result (key_name_at bytes.now) }
{
    let (name, rest) = key_text_of(bytes)?;
    Ok((Name::copy(alloc, name)?, rest))
}

#[tactic(auto, unfolding(crate::specs::Reading::volume_name_at))]
fn volume_text_of(bytes: &[u8]) -> Result<(&[u8], &[u8]), ReadFault>
    ensures { ReadGives (λ x. (x.0.now, x.1.now)) result (volume_name_at bytes.now) }
{
    let mut reader = Reader::new(bytes);
    match reader.text() {
        Some(name) if is_volume_name(name) => Ok((name, &bytes[reader.at()..])),
        _ => Err(ReadFault::Left(bytes.len())),
    }
}

#[tactic(auto, unfolding(crate::specs::Reading::key_name_at))]
fn key_text_of(bytes: &[u8]) -> Result<(&[u8], &[u8]), ReadFault>
    ensures { ReadGives (λ x. (x.0.now, x.1.now)) result (key_name_at bytes.now) }
{
    let mut reader = Reader::new(bytes);
    match reader.text() {
        Some(name) if is_key_name(name) => Ok((name, &bytes[reader.at()..])),
        _ => Err(ReadFault::Left(bytes.len())),
    }
}

fn is_volume_name(name: &[u8]) -> bool
    ensures { result ≡ passes_as_volume name.now }
{
    volume_name(name).is_ok()
}

fn is_key_name(name: &[u8]) -> bool
    ensures { result ≡ passes_as_key name.now }
{
    key_name(name).is_ok()
}

#[tactic(auto, unfolding(crate::specs::Reading::owner_at))]
pub(crate) fn owner_of(bytes: &[u8]) -> Result<(u64, &[u8]), ReadFault>
    ensures { ReadGives (λ x. (x.0, x.1.now)) result (owner_at bytes.now) }
{
    let mut reader = Reader::new(bytes);
    match reader.u64() {
        Some(owner) => Ok((owner, &bytes[reader.at()..])),
        None => Err(ReadFault::Left(bytes.len())),
    }
}

#[tactic(auto, unfolding(crate::specs::Reading::number_at))]
pub(crate) fn number_of(bytes: &[u8]) -> Result<(u64, &[u8]), ReadFault>
    ensures { ReadGives (λ x. (x.0, x.1.now)) result (number_at bytes.now) }
{
    let mut reader = Reader::new(bytes);
    match reader.u64() {
        Some(number) if number >= 1 => Ok((number, &bytes[reader.at()..])),
        _ => Err(ReadFault::Left(bytes.len())),
    }
}

#[tactic(auto, unfolding(crate::specs::Reading::block_number_at))]
pub(crate) fn block_number_of(bytes: &[u8]) -> Result<(u64, &[u8]), ReadFault>
    ensures { ReadGives (λ x. (x.0, x.1.now)) result (block_number_at bytes.now) }
{
    let mut reader = Reader::new(bytes);
    match reader.u64() {
        Some(number) if number >= 1 && number <= GREATEST_BLOCK_NUMBER => {
            Ok((number, &bytes[reader.at()..]))
        }
        _ => Err(ReadFault::Left(bytes.len())),
    }
}

/// A local id that has to be the one that was read before.
#[tactic(auto, unfolding(crate::specs::Reading::same_local_at))]
pub(crate) fn same_local_of(local: u64, bytes: &[u8]) -> Result<(u64, &[u8]), ReadFault>
    ensures { ReadGives (λ x. (x.0, x.1.now)) result (same_local_at local bytes.now) }
{
    let mut reader = Reader::new(bytes);
    match reader.u64() {
        Some(number) if number >= 1 && number <= GREATEST_BLOCK_NUMBER && number == local => {
            Ok((number, &bytes[reader.at()..]))
        }
        _ => Err(ReadFault::Left(bytes.len())),
    }
}

#[tactic(auto, unfolding(crate::specs::Reading::drawn_at))]
pub(crate) fn drawn_of(bytes: &[u8]) -> Result<(u64, &[u8]), ReadFault>
    ensures { ReadGives (λ x. (x.0, x.1.now)) result (drawn_at bytes.now) }
{
    let mut reader = Reader::new(bytes);
    match reader.u64() {
        Some(number) if number <= MOST_NUMBERS => Ok((number, &bytes[reader.at()..])),
        _ => Err(ReadFault::Left(bytes.len())),
    }
}

#[tactic(auto, unfolding(crate::specs::Reading::length_at))]
pub(crate) fn length_of(bytes: &[u8]) -> Result<(u32, &[u8]), ReadFault>
    ensures { ReadGives (λ x. (x.0, x.1.now)) result (length_at bytes.now) }
{
    let mut reader = Reader::new(bytes);
    match reader.u32() {
        Some(length) if length >= 1 && length <= LONGEST_PIECE => {
            Ok((length, &bytes[reader.at()..]))
        }
        _ => Err(ReadFault::Left(bytes.len())),
    }
}

#[tactic(auto, unfolding(crate::specs::Reading::stripe_at))]
pub(crate) fn stripe_number_of(bytes: &[u8]) -> Result<(u8, &[u8]), ReadFault>
    ensures { ReadGives (λ x. (x.0, x.1.now)) result (stripe_at bytes.now) }
{
    let mut reader = Reader::new(bytes);
    match reader.u8() {
        Some(stripe) if stripe < STRIPES => Ok((stripe, &bytes[reader.at()..])),
        _ => Err(ReadFault::Left(bytes.len())),
    }
}

#[tactic(auto, unfolding(crate::specs::Reading::state_at))]
pub(crate) fn state_of(bytes: &[u8]) -> Result<(SnapshotState, &[u8]), ReadFault>
    ensures { ReadGives (λ x. (x.0, x.1.now)) result (state_at bytes.now) }
{
    match bytes {
        [1, rest @ ..] => Ok((SnapshotState::Live, rest)),
        [2, rest @ ..] => Ok((SnapshotState::Marked, rest)),
        _ => Err(ReadFault::Left(bytes.len())),
    }
}

/// How many items a list has: at least so many, and at most `MOST_BLOCKS`.
#[tactic(auto, unfolding(crate::specs::Reading::count_at))]
pub(crate) fn count_of(least: u16, bytes: &[u8]) -> Result<(u16, &[u8]), ReadFault>
    ensures read { ReadGives (λ x. (x.0, x.1.now)) result (count_at least bytes.now) }
    ensures enough { IfOk result (λ x. least ≤ x.0) }
{
    let mut reader = Reader::new(bytes);
    match reader.u16() {
        Some(count) if count >= least && count <= MOST_BLOCKS => {
            Ok((count, &bytes[reader.at()..]))
        }
        _ => Err(ReadFault::Left(bytes.len())),
    }
}

#[tactic(auto, unfolding(crate::specs::Reading::block_at))]
pub(crate) fn block_of(bytes: &[u8]) -> Result<(Block, &[u8]), ReadFault>
    ensures { ReadGives (λ x. (x.0, x.1.now)) result (block_at bytes.now) }
{
    let (container, rest) = block_number_of(bytes)?;
    let (local, rest) = block_number_of(rest)?;
    Ok((Block { container, local }, rest))
}

#[tactic(auto, unfolding(crate::specs::Reading::piece_at))]
pub(crate) fn piece_of(bytes: &[u8]) -> Result<(Piece, &[u8]), ReadFault>
    ensures { ReadGives (λ x. (x.0, x.1.now)) result (piece_at bytes.now) }
{
    let (block, rest) = block_of(bytes)?;
    let (length, rest) = length_of(rest)?;
    Ok((Piece { block, length }, rest))
}
