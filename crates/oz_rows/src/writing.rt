//! Keys, values and operations put behind the bytes that are there.

ghost use Rattle.std.specs.Prelude.{◌≡◌, ◌++◌, ◌<◌, ◌^◌, length, OnOk};
ghost use Rattle.oz_fields.specs.Text.{text_bytes};
ghost use Rattle.oz_names.specs.Names.{IsVolumeName, IsBucketName};
ghost use Rattle.oz_rows.specs.KeyParts.{place_bytes, rest_bytes};
ghost use Rattle.oz_rows.specs.Rows.{KeyFits, ValueFits, key_bytes, value_bytes, list_bytes, block_bytes, piece_bytes};

use crate::key::RowKey;
use crate::row::Row;
use oz_fields::{
    Block, List, Name, OutOfMemory, Piece, put_text, put_u8, put_u16, put_u32, put_u64,
};
use std::alloc::Global;

pub(crate) fn put_key(alloc: Global, out: &mut Vec<u8>, key: &RowKey) -> Result<(), OutOfMemory>
    requires { KeyFits key.now }
    ensures { OnOk result (out.new.items ≡ out.old.items ++ key_bytes key.now) }
{
    put_u8(alloc, out, key.kind())?;
    put_place(alloc, out, key)?;
    put_rest(alloc, out, key)
}

/// What the key stands in: a volume, one of its buckets, or a stripe.
fn put_place(alloc: Global, out: &mut Vec<u8>, key: &RowKey) -> Result<(), OutOfMemory>
    requires { KeyFits key.now }
    ensures { OnOk result (out.new.items ≡ out.old.items ++ place_bytes key.now) }
{
    match key {
        RowKey::Volume { volume } => put_text(alloc, out, volume.bytes()),
        RowKey::Bucket { volume, bucket }
        | RowKey::Key { volume, bucket, .. }
        | RowKey::Open { volume, bucket, .. }
        | RowKey::Deleted { volume, bucket, .. }
        | RowKey::Snapshot { volume, bucket, .. }
        | RowKey::SnapshotKey { volume, bucket, .. }
        | RowKey::Renamed { volume, bucket, .. } => put_path(alloc, out, volume, bucket),
        RowKey::Stripe { stripe } => put_u8(alloc, out, *stripe),
    }
}

/// The key fields after these.
fn put_rest(alloc: Global, out: &mut Vec<u8>, key: &RowKey) -> Result<(), OutOfMemory>
    requires { KeyFits key.now }
    ensures { OnOk result (out.new.items ≡ out.old.items ++ rest_bytes key.now) }
{
    match key {
        RowKey::Volume { .. } | RowKey::Bucket { .. } | RowKey::Stripe { .. } => Ok(()),
        RowKey::Key { key, .. } => put_text(alloc, out, key.bytes()),
        RowKey::Open { key, number, .. } => {
            put_text(alloc, out, key.bytes())?;
            put_u64(alloc, out, *number)
        }
        RowKey::Deleted {
            owner,
            key,
            local,
            ..
        } => {
            put_u64(alloc, out, *owner)?;
            put_text(alloc, out, key.bytes())?;
            put_u64(alloc, out, *local)
        }
        RowKey::Snapshot { number, .. } => put_u64(alloc, out, *number),
        RowKey::SnapshotKey { snapshot, key, .. } => {
            put_u64(alloc, out, *snapshot)?;
            put_text(alloc, out, key.bytes())
        }
        RowKey::Renamed { owner, local, .. } => {
            put_u64(alloc, out, *owner)?;
            put_u64(alloc, out, *local)
        }
    }
}

/// The names of a volume and of one of its buckets.
pub(crate) fn put_path(
    alloc: Global,
    out: &mut Vec<u8>,
    volume: &Name,
    bucket: &Name,
) -> Result<(), OutOfMemory>
    requires volume { IsVolumeName volume.now }
    requires bucket { IsBucketName bucket.now }
    ensures { OnOk result (out.new.items ≡ out.old.items ++ text_bytes volume.now ++ text_bytes bucket.now) }
{
    put_text(alloc, out, volume.bytes())?;
    put_text(alloc, out, bucket.bytes())
}

/// The value fields of a row of this key.
pub(crate) fn put_value(
    alloc: Global,
    out: &mut Vec<u8>,
    key: &RowKey,
    row: &Row,
) -> Result<(), OutOfMemory>
    requires { ValueFits key.now row.now }
    ensures { OnOk result (out.new.items ≡ out.old.items ++ value_bytes row.now) }
{
    match row {
        Row::Volume | Row::Bucket => Ok(()),
        Row::Key { number, pieces } | Row::SnapshotKey { number, pieces } => {
            put_u64(alloc, out, *number)?;
            put_pieces(alloc, out, pieces)
        }
        Row::Open { blocks } | Row::Deleted { blocks } => put_blocks(alloc, out, blocks),
        Row::Snapshot {
            name,
            previous,
            state,
        } => {
            put_text(alloc, out, name.bytes())?;
            put_u64(alloc, out, *previous)?;
            put_u8(alloc, out, *state as u8)
        }
        Row::Renamed { key } => put_text(alloc, out, key.bytes()),
        Row::Stripe { number } => put_u64(alloc, out, *number),
    }
}

fn put_pieces(alloc: Global, out: &mut Vec<u8>, pieces: &List<Piece>) -> Result<(), OutOfMemory>
    requires { length pieces.now < 2 ^ 16 }
    ensures { OnOk result (out.new.items ≡ out.old.items ++ list_bytes piece_bytes pieces.now) }
{
    put_u16(alloc, out, pieces.len() as u16)?;
    for piece in pieces.items() {
        put_block(alloc, out, &piece.block)?;
        put_u32(alloc, out, piece.length)?;
    }
    Ok(())
}

fn put_blocks(alloc: Global, out: &mut Vec<u8>, blocks: &List<Block>) -> Result<(), OutOfMemory>
    requires { length blocks.now < 2 ^ 16 }
    ensures { OnOk result (out.new.items ≡ out.old.items ++ list_bytes block_bytes blocks.now) }
{
    put_u16(alloc, out, blocks.len() as u16)?;
    for block in blocks.items() {
        put_block(alloc, out, block)?;
    }
    Ok(())
}

fn put_block(alloc: Global, out: &mut Vec<u8>, block: &Block) -> Result<(), OutOfMemory>
    ensures { OnOk result (out.new.items ≡ out.old.items ++ block_bytes block.now) }
{
    put_u64(alloc, out, block.container)?;
    put_u64(alloc, out, block.local)
}
