//! Pieces, and the blocks in which they stand.

ghost use Rattle.std.specs.Prelude.{◌≡◌, IfOk};
ghost use Rattle.oz_model.specs.Buckets.{are_pieces_of as all_pieces_of, has_block, is_piece_of as piece_of};
ghost use Rattle.oz_model.specs.Reach.{blocks_of};
ghost use Rattle.oz_om_session.specs.Records.{unused};

use oz_fields::{Block, LONGEST_PIECE, List, OutOfMemory, Piece};
use std::alloc::Global;

/// Whether each piece stands in a block of these, no two in one, with 1 to 65,536 bytes.
pub(crate) fn are_pieces_of(blocks: &[Block], pieces: &[Piece]) -> bool
    ensures { result ≡ all_pieces_of blocks.now pieces.now }
{
    for (i, piece) in pieces.iter().enumerate() {
        if !is_piece_of(blocks, piece, &pieces[i + 1..]) {
            return false;
        }
    }
    true
}

fn is_piece_of(blocks: &[Block], piece: &Piece, others: &[Piece]) -> bool
    ensures { result ≡ piece_of blocks.now piece.now others.now }
{
    blocks.contains(&piece.block)
        && !stands_in(others, piece.block)
        && piece.length > 0
        && piece.length <= LONGEST_PIECE
}

/// Whether a piece stands in the block.
fn stands_in(pieces: &[Piece], block: Block) -> bool
    ensures { result ≡ has_block (blocks_of pieces.now) block }
{
    for piece in pieces {
        if piece.block == block {
            return true;
        }
    }
    false
}

/// The blocks in which no piece stands.
pub(crate) fn unused_blocks(
    alloc: Global,
    blocks: &[Block],
    pieces: &[Piece],
) -> Result<List<Block>, OutOfMemory>
    ensures { IfOk result (λ left. left ≡ unused blocks.now pieces.now) }
{
    let mut left = Vec::new(alloc);
    for block in blocks {
        if !stands_in(pieces, *block) {
            left.push(*block)?;
        }
    }
    Ok(List::of(left))
}
