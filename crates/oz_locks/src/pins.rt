//! The blocks that lines work with.

ghost use Rattle.std.specs.Prelude.{◌≡◌, ◌+◌, ◌≤◌, ◌++◌, [], ◌∷◌, map, length, vec_capacity, IfOk};
ghost use Rattle.oz_locks.specs.Pins.{pinned_blocks as all_pinned, pins_for, untold};
ghost use Rattle.oz_model.specs.Reach.{blocks_of};

use oz_fields::{Block, OutOfMemory, Piece};
use oz_requests::{AskId, Reply};
use std::alloc::Global;

/// A block that a reply named to a line, which may still read or write it.
#[derive(Clone, Copy)]
pub struct Pin {
    pub block: Block,
    pub client: u16,
    pub line: u16,
}

/// A pin for each block that a reply names to the line of this id.
pub fn pins_for(alloc: Global, id: AskId, reply: &Reply) -> Result<Vec<Pin>, OutOfMemory>
    ensures { IfOk result (λ pins. pins.items ≡ pins_for id reply.now) }
{
    match reply {
        Reply::Granted(block, _) => one_pin(alloc, id, *block),
        Reply::Pieces(pieces) => pins_of_pieces(alloc, id, pieces.items()),
        _ => Ok(Vec::new(alloc)),
    }
}

fn one_pin(alloc: Global, id: AskId, block: Block) -> Result<Vec<Pin>, OutOfMemory>
    ensures { IfOk result (λ pins. pins.items ≡ record { block = block; client = id.client; line = id.line } ∷ []) }
{
    let mut pins = Vec::new(alloc);
    pins.push(pin_on(id, block))?;
    Ok(pins)
}

fn pins_of_pieces(alloc: Global, id: AskId, pieces: &[Piece]) -> Result<Vec<Pin>, OutOfMemory>
    ensures { IfOk result (λ pins. pins.items
        ≡ map (λ block. record { block = block; client = id.client; line = id.line }) (blocks_of pieces.now)) }
{
    let mut pins = Vec::new(alloc);
    for piece in pieces {
        pins.push(pin_on(id, piece.block))?;
    }
    Ok(pins)
}

fn pin_on(id: AskId, block: Block) -> Pin
    ensures { result ≡ record { block = block; client = id.client; line = id.line } }
{
    Pin {
        block,
        client: id.client,
        line: id.line,
    }
}

/// Puts pins behind others, which have room for them.
pub(crate) fn pin_all(pins: &mut Vec<Pin>, more: &[Pin])
    requires room { length pins.old.items + length more.now ≤ vec_capacity pins.old }
    ensures items { pins.new.items ≡ pins.old.items ++ more.now }
    ensures capacity { vec_capacity pins.old ≤ vec_capacity pins.new }
{
    pins.extend_from_slice(more).unwrap();
}

/// What tells of each line whether it was told, by a story.
pub trait ToldLines {
    ghost use Rattle.std.specs.Prelude.{◌≡◌, List};
    ghost use Rattle.oz_core.specs.Asks.{is_told};
    ghost use Rattle.oz_core.specs.declared.event.Event.{Event};

    ghost story: { Self → List Event };

    fn is_told(&self, client: u16, line: u16) -> bool
        ensures { result ≡ is_told client line (story self.now) };
}

/// The pins of lines that aren't told stay.
pub(crate) fn keep_untold<S: ToldLines>(pins: &mut Vec<Pin>, lines: &S)
    ensures items { pins.new.items ≡ untold (S.story lines.now) pins.old.items }
    ensures fewer { length pins.new.items ≤ length pins.old.items }
    ensures capacity { vec_capacity pins.new ≡ vec_capacity pins.old }
{
    pins.retain(|pin| !lines.is_told(pin.client, pin.line));
}

/// The blocks that are pinned.
pub(crate) fn pinned_blocks(alloc: Global, pins: &[Pin]) -> Result<Vec<Block>, OutOfMemory>
    ensures { IfOk result (λ blocks. blocks.items ≡ all_pinned pins.now) }
{
    let mut blocks = Vec::with_capacity(alloc, pins.len())?;
    for pin in pins {
        blocks.push(pin.block)?;
    }
    Ok(blocks)
}
