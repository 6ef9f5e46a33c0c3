//! Rows, keys and operations as text.
//!
//! A row is its kind and its key fields, and behind ` = ` what it holds: `key vol1 bk1 k = 7 1.2:65536`. A block is
//! `container.local`, a piece a block and its length behind a `:`. The items of a list stand between commas, and `-` is a list
//! of nothing, or an empty name.

use oz_fields::{Block, List, Name, OutOfMemory, Piece};
use oz_rows::{Operation, Row, RowKey, SnapshotState};
use std::str;

fn shown(name: &Name) -> &str {
    if name.bytes().is_empty() {
        return "-";
    }
    str::from_utf8(name.bytes()).unwrap_or("?")
}

/// Adds a kind and the names of a bucket.
fn push_names(
    text: &mut String,
    kind: &str,
    volume: &Name,
    bucket: &Name,
) -> Result<(), OutOfMemory> {
    write!(text, "{kind} {} {}", shown(volume), shown(bucket))
}

/// Adds a key of one of the kinds that have a number in it.
fn push_numbered(text: &mut String, key: &RowKey) -> Result<(), OutOfMemory> {
    match key {
        RowKey::Open {
            volume: _,
            bucket: _,
            key,
            number,
        } => write!(text, " {} {number}", shown(key)),
        RowKey::Deleted {
            volume: _,
            bucket: _,
            owner,
            key,
            local,
        } => write!(text, " {owner} {} {local}", shown(key)),
        RowKey::Snapshot { number, .. } => write!(text, " {number}"),
        RowKey::SnapshotKey { snapshot, key, .. } => write!(text, " {snapshot} {}", shown(key)),
        RowKey::Renamed { owner, local, .. } => write!(text, " {owner} {local}"),
        RowKey::Volume { .. }
        | RowKey::Bucket { .. }
        | RowKey::Key { .. }
        | RowKey::Stripe { .. } => Ok(()),
    }
}

/// Adds a key: its kind, and its fields.
pub fn push_key(text: &mut String, key: &RowKey) -> Result<(), OutOfMemory> {
    match key {
        RowKey::Volume { volume } => write!(text, "volume {}", shown(volume))?,
        RowKey::Bucket { volume, bucket } => push_names(text, "bucket", volume, bucket)?,
        RowKey::Key {
            volume,
            bucket,
            key,
        } => {
            push_names(text, "key", volume, bucket)?;
            write!(text, " {}", shown(key))?;
        }
        RowKey::Open { volume, bucket, .. } => push_names(text, "open", volume, bucket)?,
        RowKey::Deleted { volume, bucket, .. } => push_names(text, "deleted", volume, bucket)?,
        RowKey::Snapshot { volume, bucket, .. } => push_names(text, "snapshot", volume, bucket)?,
        RowKey::SnapshotKey { volume, bucket, .. } => {
            push_names(text, "snapshot-key", volume, bucket)?
        }
        RowKey::Renamed { volume, bucket, .. } => push_names(text, "renamed", volume, bucket)?,
        RowKey::Stripe { stripe } => write!(text, "stripe {stripe}")?,
    }
    push_numbered(text, key)
}

fn push_blocks(text: &mut String, blocks: &List<Block>) -> Result<(), OutOfMemory> {
    for (place, block) in blocks.iter().enumerate() {
        if place > 0 {
            text.push(',')?;
        }
        write!(text, "{}.{}", block.container, block.local)?;
    }
    text.push_str(if blocks.is_empty() { "-" } else { "" })
}

fn push_pieces(text: &mut String, pieces: &List<Piece>) -> Result<(), OutOfMemory> {
    for (place, piece) in pieces.iter().enumerate() {
        if place > 0 {
            text.push(',')?;
        }
        let block = piece.block;
        write!(text, "{}.{}:{}", block.container, block.local, piece.length)?;
    }
    text.push_str(if pieces.is_empty() { "-" } else { "" })
}

fn state_text(state: SnapshotState) -> &'static str {
    match state {
        SnapshotState::Live => "live",
        SnapshotState::Marked => "marked",
    }
}

/// Adds what a row holds, if anything.
pub fn push_row(text: &mut String, row: &Row) -> Result<(), OutOfMemory> {
    match row {
        Row::Volume | Row::Bucket => Ok(()),
        Row::Key { number, pieces } | Row::SnapshotKey { number, pieces } => {
            write!(text, " = {number} ")?;
            push_pieces(text, pieces)
        }
        Row::Open { blocks } | Row::Deleted { blocks } => {
            text.push_str(" = ")?;
            push_blocks(text, blocks)
        }
        Row::Snapshot {
            name,
            previous,
            state,
        } => write!(text, " = {} {previous} {}", shown(name), state_text(*state)),
        Row::Renamed { key } => write!(text, " = {}", shown(key)),
        Row::Stripe { number } => write!(text, " = {number}"),
    }
}

/// Adds a row as a line.
pub fn push_entry(text: &mut String, key: &RowKey, row: &Row) -> Result<(), OutOfMemory> {
    push_key(text, key)?;
    push_row(text, row)?;
    text.push('\n')
}

/// Adds an operation as a line.
pub fn push_operation(text: &mut String, operation: &Operation) -> Result<(), OutOfMemory> {
    match operation {
        Operation::Put { key, row } => {
            text.push_str("put ")?;
            return push_entry(text, key, row);
        }
        Operation::Remove { key } => {
            text.push_str("remove ")?;
            push_key(text, key)?;
        }
        Operation::CopyKeys {
            volume,
            bucket,
            number,
        } => {
            push_names(text, "copy-keys", volume, bucket)?;
            write!(text, " {number}")?;
        }
        Operation::MoveDeleted {
            volume,
            bucket,
            from,
            to,
        } => {
            push_names(text, "move-deleted", volume, bucket)?;
            write!(text, " {from} {to}")?;
        }
        Operation::DropKeys {
            volume,
            bucket,
            number,
        } => {
            push_names(text, "drop-keys", volume, bucket)?;
            write!(text, " {number}")?;
        }
        Operation::DropOpen { volume, bucket } => push_names(text, "drop-open", volume, bucket)?,
    }
    text.push('\n')
}
