//! Bodies, read operation after operation.

ghost use Rattle.std.specs.Prelude.{◌≡◌, IfOk, IfErr, MatchResult};
ghost use Rattle.oz_rows.specs.Reading.{ReadGives, put_at, remove_at, copy_keys_at, move_deleted_at, drop_keys_at};
ghost use Rattle.oz_rows.specs.Reading.{drop_open_at, operation_at, index_at, head_at};

use crate::decoding::{key_of, row_of};
use crate::fault::ReadFault;
use crate::operation::{END_OF_INDEXES, Head, LAYOUT, Operation};
use crate::reading::{number_of, owner_of, volume_name_of};
use oz_fields::Reader;
use std::alloc::Global;

/// The operation that the front of the bytes spells, and the bytes behind it.
#[tactic(auto, unfolding(crate::specs::Reading::operation_at))]
pub fn operation_of(alloc: Global, bytes: &[u8]) -> Result<(Operation, &[u8]), ReadFault>
    ensures { ReadGives (λ x. (x.0, x.1.now)) result (operation_at bytes.now) }
{
    let [tag, rest @ ..] = bytes else {
        return Err(ReadFault::Left(0));
    };
    match *tag {
        1 => put_of(alloc, rest),
        2 => remove_of(alloc, rest),
        3 => copy_keys_of(alloc, rest),
        4 => move_deleted_of(alloc, rest),
        5 => drop_keys_of(alloc, rest),
        6 => drop_open_of(alloc, rest),
        _ => Err(ReadFault::Left(bytes.len())),
    }
}

#[tactic(auto, unfolding(crate::specs::Reading::put_at))]
fn put_of(alloc: Global, bytes: &[u8]) -> Result<(Operation, &[u8]), ReadFault>
    ensures { ReadGives (λ x. (x.0, x.1.now)) result (put_at bytes.now) }
{
    let ((key, row), rest) = row_of(alloc, bytes)?;
    Ok((Operation::Put { key, row }, rest))
}

#[tactic(auto, unfolding(crate::specs::Reading::remove_at))]
fn remove_of(alloc: Global, bytes: &[u8]) -> Result<(Operation, &[u8]), ReadFault>
    ensures { ReadGives (λ x. (x.0, x.1.now)) result (remove_at bytes.now) }
{
    let (key, rest) = key_of(alloc, bytes)?;
    Ok((Operation::Remove { key }, rest))
}

#[tactic(auto, unfolding(crate::specs::Reading::copy_keys_at))]
fn copy_keys_of(alloc: Global, bytes: &[u8]) -> Result<(Operation, &[u8]), ReadFault>
    ensures { ReadGives (λ x. (x.0, x.1.now)) result (copy_keys_at bytes.now) }
{
    let (volume, rest) = volume_name_of(alloc, bytes)?;
    let (bucket, rest) = volume_name_of(alloc, rest)?;
    let (number, rest) = number_of(rest)?;
    Ok((
        Operation::CopyKeys {
            volume,
            bucket,
            number,
        },
        rest,
    ))
}

#[tactic(auto, unfolding(crate::specs::Reading::move_deleted_at))]
fn move_deleted_of(alloc: Global, bytes: &[u8]) -> Result<(Operation, &[u8]), ReadFault>
    ensures { ReadGives (λ x. (x.0, x.1.now)) result (move_deleted_at bytes.now) }
{
    let (volume, rest) = volume_name_of(alloc, bytes)?;
    let (bucket, rest) = volume_name_of(alloc, rest)?;
    let (from, rest) = owner_of(rest)?;
    let (to, rest) = owner_of(rest)?;
    Ok((
        Operation::MoveDeleted {
            volume,
            bucket,
            from,
            to,
        },
        rest,
    ))
}

#[tactic(auto, unfolding(crate::specs::Reading::drop_keys_at))]
fn drop_keys_of(alloc: Global, bytes: &[u8]) -> Result<(Operation, &[u8]), ReadFault>
    ensures { ReadGives (λ x. (x.0, x.1.now)) result (drop_keys_at bytes.now) }
{
    let (volume, rest) = volume_name_of(alloc, bytes)?;
    let (bucket, rest) = volume_name_of(alloc, rest)?;
    let (number, rest) = number_of(rest)?;
    Ok((
        Operation::DropKeys {
            volume,
            bucket,
            number,
        },
        rest,
    ))
}

#[tactic(auto, unfolding(crate::specs::Reading::drop_open_at))]
fn drop_open_of(alloc: Global, bytes: &[u8]) -> Result<(Operation, &[u8]), ReadFault>
    ensures { ReadGives (λ x. (x.0, x.1.now)) result (drop_open_at bytes.now) }
{
    let (volume, rest) = volume_name_of(alloc, bytes)?;
    let (bucket, rest) = volume_name_of(alloc, rest)?;
    Ok((Operation::DropOpen { volume, bucket }, rest))
}

/// The head of a body, and the bytes behind it.
#[tactic(auto, unfolding(crate::specs::Reading::head_at))]
pub fn head_of(bytes: &[u8]) -> Result<(Head, &[u8]), ReadFault>
    ensures { ReadGives (λ x. (x.0, x.1.now)) result (head_at bytes.now) }
{
    match bytes {
        [LAYOUT, rest @ ..] => {
            let (index, rest) = index_of(rest)?;
            let head = Head {
                layout: LAYOUT,
                index,
            };
            Ok((head, rest))
        }
        _ => Err(ReadFault::Left(bytes.len())),
    }
}

#[tactic(auto, unfolding(crate::specs::Reading::index_at))]
fn index_of(bytes: &[u8]) -> Result<(u64, &[u8]), ReadFault>
    ensures { ReadGives (λ x. (x.0, x.1.now)) result (index_at bytes.now) }
{
    let mut reader = Reader::new(bytes);
    match reader.u64() {
        Some(index) if index >= 1 && index < END_OF_INDEXES => Ok((index, &bytes[reader.at()..])),
        _ => Err(ReadFault::Left(bytes.len())),
    }
}
