//! Which blocks of open rows no key row has.

ghost use Rattle.std.specs.Prelude.{◌≡◌, ◌||◌, ◌&&◌, List, not, OnOk, IfOk};
ghost use Rattle.std.specs.List.{list_any};
ghost use Rattle.oz_fields.specs.declared.block.Block.{Block as AnyBlock};
ghost use Rattle.oz_rows.specs.declared.entry.RowEntry.{RowEntry as AnyEntry};
ghost use Rattle.oz_rows.specs.RowMaps.{AreRows, is_block};
ghost use Rattle.oz_effects.specs.Effects.{is_in_a_key, has_block as does_have};
ghost use Rattle.oz_effects.specs.Parts.{IsPart};
ghost use Rattle.oz_effects.specs.changes.Steps.{is_in_a_session, has_open_block, holds as does_hold};

use crate::{Part, RowRef, first_key, part_rows};
use oz_fields::{Block, Name, OutOfMemory, Piece};
use oz_rows::{Row, RowKey, RowMap};
use std::alloc::Global;
use std::collections::BTreeSet;

/// The blocks of some open rows that no key row has.
pub(crate) fn free_blocks<M: RowMap>(
    alloc: Global,
    rows: &M,
    sessions: &[RowRef],
) -> Result<BTreeSet<Block>, OutOfMemory>
    ensures { IfOk result (λ free. (all : List AnyEntry) → AreRows all (M.rows rows.now) → (block : AnyBlock)
        → does_hold free block ≡ (is_in_a_session sessions.now block && not (is_in_a_key all block))) }
{
    let mut free = session_blocks(alloc, sessions)?;
    if free.is_empty() {
        return Ok(free);
    }
    let none = Name::copy(alloc, b"")?;
    let start = first_key(alloc, Part::AllKeys, &none, &none)?;
    let keys = part_rows(alloc, rows, Part::AllKeys, &none, &none, &start)?;
    take_out(&mut free, keys.as_slice());
    Ok(free)
}

/// The blocks that open rows have.
fn session_blocks(alloc: Global, sessions: &[RowRef]) -> Result<BTreeSet<Block>, OutOfMemory>
    ensures { IfOk result (λ blocks. (block : AnyBlock) → does_hold blocks block
        ≡ is_in_a_session sessions.now block) }
{
    let mut blocks = BTreeSet::new(alloc);
    for entry in sessions {
        add_open(&mut blocks, entry.row)?;
    }
    Ok(blocks)
}

fn add_open(blocks: &mut BTreeSet<Block>, row: &Row) -> Result<(), OutOfMemory>
    ensures { OnOk result ((block : AnyBlock) → does_hold blocks.new block
        ≡ (does_hold blocks.old block || has_open_block block row.now)) }
{
    match row {
        Row::Open { blocks: others } => add_each(blocks, others.items()),
        _ => Ok(()),
    }
}

fn add_each(blocks: &mut BTreeSet<Block>, others: &[Block]) -> Result<(), OutOfMemory>
    ensures { OnOk result ((block : AnyBlock) → does_hold blocks.new block
        ≡ (does_hold blocks.old block || list_any (is_block block) others.now)) }
{
    for other in others {
        add_one(blocks, *other)?;
    }
    Ok(())
}

fn add_one(blocks: &mut BTreeSet<Block>, block: Block) -> Result<(), OutOfMemory>
    ensures { OnOk result ((other : AnyBlock) → does_hold blocks.new other
        ≡ (does_hold blocks.old other || is_block other block)) }
{
    blocks.insert(block)?;
    Ok(())
}

/// Takes those out that key rows have.
fn take_out(free: &mut BTreeSet<Block>, keys: &[RowRef])
    ensures { (block : AnyBlock) → does_hold free.new block
        ≡ (does_hold free.old block && not (is_in_a_key keys.now block)) }
{
    for entry in keys {
        take_row(free, entry.key, entry.row);
    }
}

fn take_row(free: &mut BTreeSet<Block>, key: &RowKey, row: &Row)
    ensures { (block : AnyBlock) → does_hold free.new block
        ≡ (does_hold free.old block && not (does_have block key.now row.now)) }
{
    if let (RowKey::Key { .. }, Row::Key { pieces, .. }) = (key, row) {
        take_pieces(free, pieces.items());
    }
}

fn take_pieces(free: &mut BTreeSet<Block>, pieces: &[Piece])
    ensures { (block : AnyBlock) → does_hold free.new block
        ≡ (does_hold free.old block && not (list_any (λ piece. is_block block piece.block) pieces.now)) }
{
    for piece in pieces {
        take_one(free, &piece.block);
    }
}

fn take_one(free: &mut BTreeSet<Block>, block: &Block)
    ensures { (other : AnyBlock) → does_hold free.new other
        ≡ (does_hold free.old other && not (is_block other block.now)) }
{
    free.remove(block);
}

pub(crate) fn is_held(free: &BTreeSet<Block>, block: &Block) -> bool
    ensures { result ≡ does_hold free.now block.now }
{
    free.contains(block)
}
