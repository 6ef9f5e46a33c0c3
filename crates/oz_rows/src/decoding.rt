//! Rows, read field after field.

ghost use Rattle.std.specs.Prelude.{◌≡◌, ◌++◌, IfOk, Ok};
ghost use Rattle.oz_rows.specs.Reading.{ReadGives, with_front, items_at, list_at, block_at, piece_at};
ghost use Rattle.oz_rows.specs.Reading.{deleted_blocks_at, volume_key_at, bucket_key_at, key_key_at, open_key_at};
ghost use Rattle.oz_rows.specs.Reading.{deleted_key_at, snapshot_at, snapshot_key_at, renamed_key_at, stripe_key_at};
ghost use Rattle.oz_rows.specs.Reading.{key_at, key_value_at, open_value_at, deleted_value_at, snapshot_value_at};
ghost use Rattle.oz_rows.specs.Reading.{snapshot_key_value_at, renamed_value_at, stripe_value_at, value_at, row_at};

use crate::fault::ReadFault;
use crate::key::RowKey;
use crate::reading::{
    block_number_of, block_of, count_of, drawn_of, key_name_of, number_of, owner_of, piece_of,
    same_local_of, state_of, stripe_number_of, volume_name_of,
};
use crate::row::Row;
use oz_fields::{Block, List, Piece};
use std::alloc::Global;

/// The row that the front of the bytes spells, and the bytes behind it.
#[tactic(auto, unfolding(crate::specs::Reading::row_at))]
pub(crate) fn row_of(alloc: Global, bytes: &[u8]) -> Result<((RowKey, Row), &[u8]), ReadFault>
    ensures { ReadGives (λ x. ((x.0.0, x.0.1), x.1.now)) result (row_at bytes.now) }
{
    let (key, rest) = key_of(alloc, bytes)?;
    let (row, rest) = value_of(alloc, &key, rest)?;
    Ok(((key, row), rest))
}

/// A kind and its key fields.
#[tactic(auto, unfolding(crate::specs::Reading::key_at))]
pub(crate) fn key_of(alloc: Global, bytes: &[u8]) -> Result<(RowKey, &[u8]), ReadFault>
    ensures { ReadGives (λ x. (x.0, x.1.now)) result (key_at bytes.now) }
{
    let [kind, rest @ ..] = bytes else {
        return Err(ReadFault::Left(0));
    };
    match *kind {
        1 => volume_key_of(alloc, rest),
        2 => bucket_key_of(alloc, rest),
        3 => key_key_of(alloc, rest),
        4 => open_key_of(alloc, rest),
        5 => deleted_key_of(alloc, rest),
        6 => snapshot_of(alloc, rest),
        7 => snapshot_key_of(alloc, rest),
        8 => renamed_key_of(alloc, rest),
        9 => stripe_key_of(rest),
        _ => Err(ReadFault::Left(bytes.len())),
    }
}

#[tactic(auto, unfolding(crate::specs::Reading::volume_key_at))]
fn volume_key_of(alloc: Global, bytes: &[u8]) -> Result<(RowKey, &[u8]), ReadFault>
    ensures { ReadGives (λ x. (x.0, x.1.now)) result (volume_key_at bytes.now) }
{
    let (volume, rest) = volume_name_of(alloc, bytes)?;
    Ok((RowKey::Volume { volume }, rest))
}

#[tactic(auto, unfolding(crate::specs::Reading::bucket_key_at))]
fn bucket_key_of(alloc: Global, bytes: &[u8]) -> Result<(RowKey, &[u8]), ReadFault>
    ensures { ReadGives (λ x. (x.0, x.1.now)) result (bucket_key_at bytes.now) }
{
    let (volume, rest) = volume_name_of(alloc, bytes)?;
    let (bucket, rest) = volume_name_of(alloc, rest)?;
    Ok((RowKey::Bucket { volume, bucket }, rest))
}

#[tactic(auto, unfolding(crate::specs::Reading::key_key_at))]
fn key_key_of(alloc: Global, bytes: &[u8]) -> Result<(RowKey, &[u8]), ReadFault>
    ensures { ReadGives (λ x. (x.0, x.1.now)) result (key_key_at bytes.now) }
{
    let (volume, rest) = volume_name_of(alloc, bytes)?;
    let (bucket, rest) = volume_name_of(alloc, rest)?;
    let (key, rest) = key_name_of(alloc, rest)?;
    Ok((
        RowKey::Key {
            volume,
            bucket,
            key,
        },
        rest,
    ))
}

#[tactic(auto, unfolding(crate::specs::Reading::open_key_at))]
fn open_key_of(alloc: Global, bytes: &[u8]) -> Result<(RowKey, &[u8]), ReadFault>
    ensures { ReadGives (λ x. (x.0, x.1.now)) result (open_key_at bytes.now) }
{
    let (volume, rest) = volume_name_of(alloc, bytes)?;
    let (bucket, rest) = volume_name_of(alloc, rest)?;
    let (key, rest) = key_name_of(alloc, rest)?;
    let (number, rest) = number_of(rest)?;
    Ok((
        RowKey::Open {
            volume,
            bucket,
            key,
            number,
        },
        rest,
    ))
}

#[tactic(auto, unfolding(crate::specs::Reading::deleted_key_at))]
fn deleted_key_of(alloc: Global, bytes: &[u8]) -> Result<(RowKey, &[u8]), ReadFault>
    ensures { ReadGives (λ x. (x.0, x.1.now)) result (deleted_key_at bytes.now) }
{
    let (volume, rest) = volume_name_of(alloc, bytes)?;
    let (bucket, rest) = volume_name_of(alloc, rest)?;
    let (owner, rest) = owner_of(rest)?;
    let (key, rest) = key_name_of(alloc, rest)?;
    let (local, rest) = block_number_of(rest)?;
    Ok((
        RowKey::Deleted {
            volume,
            bucket,
            owner,
            key,
            local,
        },
        rest,
    ))
}

#[tactic(auto, unfolding(crate::specs::Reading::snapshot_at))]
fn snapshot_of(alloc: Global, bytes: &[u8]) -> Result<(RowKey, &[u8]), ReadFault>
    ensures { ReadGives (λ x. (x.0, x.1.now)) result (snapshot_at bytes.now) }
{
    let (volume, rest) = volume_name_of(alloc, bytes)?;
    let (bucket, rest) = volume_name_of(alloc, rest)?;
    let (number, rest) = number_of(rest)?;
    Ok((
        RowKey::Snapshot {
            volume,
            bucket,
            number,
        },
        rest,
    ))
}

#[tactic(auto, unfolding(crate::specs::Reading::snapshot_key_at))]
fn snapshot_key_of(alloc: Global, bytes: &[u8]) -> Result<(RowKey, &[u8]), ReadFault>
    ensures { ReadGives (λ x. (x.0, x.1.now)) result (snapshot_key_at bytes.now) }
{
    let (volume, rest) = volume_name_of(alloc, bytes)?;
    let (bucket, rest) = volume_name_of(alloc, rest)?;
    let (snapshot, rest) = number_of(rest)?;
    let (key, rest) = key_name_of(alloc, rest)?;
    Ok((
        RowKey::SnapshotKey {
            volume,
            bucket,
            snapshot,
            key,
        },
        rest,
    ))
}

#[tactic(auto, unfolding(crate::specs::Reading::renamed_key_at))]
fn renamed_key_of(alloc: Global, bytes: &[u8]) -> Result<(RowKey, &[u8]), ReadFault>
    ensures { ReadGives (λ x. (x.0, x.1.now)) result (renamed_key_at bytes.now) }
{
    let (volume, rest) = volume_name_of(alloc, bytes)?;
    let (bucket, rest) = volume_name_of(alloc, rest)?;
    let (owner, rest) = owner_of(rest)?;
    let (local, rest) = block_number_of(rest)?;
    Ok((
        RowKey::Renamed {
            volume,
            bucket,
            owner,
            local,
        },
        rest,
    ))
}

#[tactic(auto, unfolding(crate::specs::Reading::stripe_key_at))]
fn stripe_key_of(bytes: &[u8]) -> Result<(RowKey, &[u8]), ReadFault>
    ensures { ReadGives (λ x. (x.0, x.1.now)) result (stripe_key_at bytes.now) }
{
    let (stripe, rest) = stripe_number_of(bytes)?;
    Ok((RowKey::Stripe { stripe }, rest))
}

/// The value fields of the kind that the key has.
#[tactic(auto, unfolding(crate::specs::Reading::value_at))]
fn value_of<'a>(alloc: Global, key: &RowKey, bytes: &'a [u8]) -> Result<(Row, &'a [u8]), ReadFault>
    ensures { ReadGives (λ x. (x.0, x.1.now)) result (value_at key.now bytes.now) }
{
    match key {
        RowKey::Volume { .. } => Ok((Row::Volume, bytes)),
        RowKey::Bucket { .. } => Ok((Row::Bucket, bytes)),
        RowKey::Key { .. } => key_value_of(alloc, bytes),
        RowKey::Open { .. } => open_value_of(alloc, bytes),
        RowKey::Deleted { local, .. } => deleted_value_of(alloc, *local, bytes),
        RowKey::Snapshot { .. } => snapshot_value_of(alloc, bytes),
        RowKey::SnapshotKey { .. } => snapshot_key_value_of(alloc, bytes),
        RowKey::Renamed { .. } => renamed_value_of(alloc, bytes),
        RowKey::Stripe { .. } => stripe_value_of(bytes),
    }
}

#[tactic(auto, unfolding(crate::specs::Reading::key_value_at))]
fn key_value_of(alloc: Global, bytes: &[u8]) -> Result<(Row, &[u8]), ReadFault>
    ensures { ReadGives (λ x. (x.0, x.1.now)) result (key_value_at bytes.now) }
{
    let (number, rest) = number_of(bytes)?;
    let (pieces, rest) = pieces_of(alloc, rest)?;
    Ok((Row::Key { number, pieces }, rest))
}

#[tactic(auto, unfolding(crate::specs::Reading::open_value_at))]
fn open_value_of(alloc: Global, bytes: &[u8]) -> Result<(Row, &[u8]), ReadFault>
    ensures { ReadGives (λ x. (x.0, x.1.now)) result (open_value_at bytes.now) }
{
    let (blocks, rest) = blocks_of(alloc, bytes)?;
    Ok((Row::Open { blocks }, rest))
}

#[tactic(auto, unfolding(crate::specs::Reading::snapshot_value_at))]
fn snapshot_value_of(alloc: Global, bytes: &[u8]) -> Result<(Row, &[u8]), ReadFault>
    ensures { ReadGives (λ x. (x.0, x.1.now)) result (snapshot_value_at bytes.now) }
{
    let (name, rest) = volume_name_of(alloc, bytes)?;
    let (previous, rest) = owner_of(rest)?;
    let (state, rest) = state_of(rest)?;
    Ok((
        Row::Snapshot {
            name,
            previous,
            state,
        },
        rest,
    ))
}

#[tactic(auto, unfolding(crate::specs::Reading::snapshot_key_value_at))]
fn snapshot_key_value_of(alloc: Global, bytes: &[u8]) -> Result<(Row, &[u8]), ReadFault>
    ensures { ReadGives (λ x. (x.0, x.1.now)) result (snapshot_key_value_at bytes.now) }
{
    let (number, rest) = number_of(bytes)?;
    let (pieces, rest) = pieces_of(alloc, rest)?;
    Ok((Row::SnapshotKey { number, pieces }, rest))
}

#[tactic(auto, unfolding(crate::specs::Reading::renamed_value_at))]
fn renamed_value_of(alloc: Global, bytes: &[u8]) -> Result<(Row, &[u8]), ReadFault>
    ensures { ReadGives (λ x. (x.0, x.1.now)) result (renamed_value_at bytes.now) }
{
    let (key, rest) = key_name_of(alloc, bytes)?;
    Ok((Row::Renamed { key }, rest))
}

#[tactic(auto, unfolding(crate::specs::Reading::stripe_value_at))]
fn stripe_value_of(bytes: &[u8]) -> Result<(Row, &[u8]), ReadFault>
    ensures { ReadGives (λ x. (x.0, x.1.now)) result (stripe_value_at bytes.now) }
{
    let (number, rest) = drawn_of(bytes)?;
    Ok((Row::Stripe { number }, rest))
}

#[tactic(auto, unfolding(crate::specs::Reading::deleted_value_at))]
fn deleted_value_of(alloc: Global, local: u64, bytes: &[u8]) -> Result<(Row, &[u8]), ReadFault>
    ensures { ReadGives (λ x. (x.0, x.1.now)) result (deleted_value_at local bytes.now) }
{
    let (blocks, rest) = deleted_blocks_of(alloc, local, bytes)?;
    Ok((Row::Deleted { blocks }, rest))
}

#[tactic(auto, unfolding(crate::specs::Reading::list_at))]
fn pieces_of(alloc: Global, bytes: &[u8]) -> Result<(List<Piece>, &[u8]), ReadFault>
    ensures { ReadGives (λ x. (x.0, x.1.now)) result (list_at piece_at bytes.now) }
{
    let (count, rest) = count_of(0, bytes)?;
    let (pieces, rest) = more_pieces(alloc, count, rest)?;
    Ok((List::of(pieces), rest))
}

fn more_pieces(alloc: Global, count: u16, bytes: &[u8]) -> Result<(Vec<Piece>, &[u8]), ReadFault>
    ensures { ReadGives (λ x. (x.0.items, x.1.now)) result (items_at piece_at count bytes.now) }
{
    let mut pieces = Vec::new(alloc);
    let mut rest = bytes;
    for _ in 0..count {
        let (piece, after) = piece_of(rest)?;
        pieces.push(piece)?;
        rest = after;
    }
    Ok((pieces, rest))
}

#[tactic(auto, unfolding(crate::specs::Reading::list_at))]
fn blocks_of(alloc: Global, bytes: &[u8]) -> Result<(List<Block>, &[u8]), ReadFault>
    ensures { ReadGives (λ x. (x.0, x.1.now)) result (list_at block_at bytes.now) }
{
    let (count, rest) = count_of(0, bytes)?;
    let (blocks, rest) = more_blocks(Vec::new(alloc), count, rest)?;
    Ok((List::of(blocks), rest))
}

/// At least one block, and the first has this local id.
#[tactic(auto, unfolding(crate::specs::Reading::deleted_blocks_at))]
fn deleted_blocks_of(
    alloc: Global,
    local: u64,
    bytes: &[u8],
) -> Result<(List<Block>, &[u8]), ReadFault>
    ensures { ReadGives (λ x. (x.0, x.1.now)) result (deleted_blocks_at local bytes.now) }
{
    let (count, rest) = count_of(1, bytes)?;
    let (container, rest) = block_number_of(rest)?;
    let (local, rest) = same_local_of(local, rest)?;
    let mut blocks = Vec::new(alloc);
    blocks.push(Block { container, local })?;
    let (blocks, rest) = more_blocks(blocks, count - 1, rest)?;
    Ok((List::of(blocks), rest))
}

/// So many more blocks behind those that are given.
fn more_blocks(
    before: Vec<Block>,
    count: u16,
    bytes: &[u8],
) -> Result<(Vec<Block>, &[u8]), ReadFault>
    ensures { ReadGives (λ x. (x.0.items, x.1.now)) result (with_front before.items (items_at block_at count) bytes.now) }
{
    let mut gathered = before;
    let mut rest = bytes;
    for _ in 0..count {
        let (block, after) = block_of(rest)?;
        gathered.push(block)?;
        rest = after;
    }
    Ok((gathered, rest))
}
