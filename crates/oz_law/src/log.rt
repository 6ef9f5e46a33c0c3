//! What a story makes of the log of deleted blocks.

ghost use Rattle.std.specs.Prelude.{◌≡◌, ◌==◌, false};
ghost use Rattle.std.specs.List.{list_any};
ghost use Rattle.std.specs.Option.{option_map_or};
ghost use Rattle.oz_core.specs.Nodes.{deletes, is_block};
ghost use Rattle.oz_core.specs.Scm.{logged, logs, names_block, is_logged, logged_number, last_txn};
ghost use Rattle.oz_law.specs.Words.{is_txn};

use oz_core::{Event, EventKind, Opening};
use oz_dellog::Txn;
use oz_fields::Block;

/// The two are one block.
pub fn is_block(block: Block, other: Block) -> bool
    ensures { result ≡ is_block block other }
{
    other.container == block.container && other.local == block.local
}

/// One of these local ids is this.
fn has_local(locals: &[u64], of: u64) -> bool
    ensures { result ≡ list_any (λ local. local == of) locals.now }
{
    locals.iter().any(|local| *local == of)
}

/// One of these blocks is this.
pub fn has_block(blocks: &[Block], of: Block) -> bool
    ensures { result ≡ list_any (is_block of) blocks.now }
{
    blocks.iter().any(|block| is_block(of, *block))
}

fn logs_txn(number: u64, of: u64, kind: &EventKind) -> bool
    ensures { result ≡ option_map_or (is_txn number of) (logged kind.now) false }
{
    match kind {
        EventKind::Log { txn, container, .. } => *txn == number && *container == of,
        _ => false,
    }
}

fn was_txn(opening: &Opening, number: u64, of: u64) -> bool
    ensures { result ≡ list_any (λ unretired. is_txn number of unretired.txn) opening.now.unretired }
{
    opening.unretired.iter().any(|unretired| unretired.txn.number == number
        && unretired.txn.container == of)
}

fn came_txn(number: u64, of: u64, story: &[Event]) -> bool
    ensures { result ≡ list_any (λ event. option_map_or (is_txn number of) (logged event.kind) false) story.now }
{
    story.iter().any(|event| logs_txn(number, of, &event.kind))
}

/// Whether the log has a transaction of this number and container.
fn has_txn(opening: &Opening, story: &[Event], number: u64, of: u64) -> bool
    ensures { result ≡ list_any (is_txn number of) (logs opening.now story.now) }
{
    let was = was_txn(opening, number, of);
    let came = came_txn(number, of, story);
    was || came
}

/// A transaction of this number is in the block's container, and the block is one of these of it.
pub fn deletes(
    opening: &Opening,
    story: &[Event],
    number: u64,
    locals: &[u64],
    block: Block,
) -> bool
    ensures { result ≡ deletes (logs opening.now story.now) number locals.now block }
{
    has_txn(opening, story, number, block.container) && has_local(locals, block.local)
}

pub fn names_block(block: Block, txn: &Txn) -> bool
    ensures { result ≡ names_block block txn.now }
{
    txn.container == block.container && has_local(txn.locals.items(), block.local)
}

fn logs_block(block: Block, kind: &EventKind) -> bool
    ensures { result ≡ option_map_or (names_block block) (logged kind.now) false }
{
    match kind {
        EventKind::Log {
            container,
            locals,
            ..
        } => *container == block.container && has_local(locals.items(), block.local),
        _ => false,
    }
}

fn was_logged(opening: &Opening, block: Block) -> bool
    ensures { result ≡ list_any (λ unretired. names_block block unretired.txn) opening.now.unretired }
{
    opening
        .unretired
        .iter()
        .any(|unretired| names_block(block, &unretired.txn))
}

pub fn came_logged(block: Block, story: &[Event]) -> bool
    ensures { result ≡ list_any (λ event. option_map_or (names_block block) (logged event.kind) false) story.now }
{
    story.iter().any(|event| logs_block(block, &event.kind))
}

/// Whether a transaction of the log names the block.
pub fn is_logged(opening: &Opening, story: &[Event], block: Block) -> bool
    ensures { result ≡ is_logged opening.now story.now block }
{
    let was = was_logged(opening, block);
    let came = came_logged(block, story);
    was || came
}

fn logged_number(kind: &EventKind) -> Option<u64>
    ensures { result ≡ logged_number kind.now }
{
    match kind {
        EventKind::Log { txn, .. } => Some(*txn),
        _ => None,
    }
}

/// The number of the last transaction, 0 for none.
pub fn last_txn(opening: &Opening, story: &[Event]) -> u64
    ensures { result ≡ last_txn opening.now story.now }
{
    let mut last = opening.last_txn;
    for event in story {
        last = logged_number(&event.kind).unwrap_or(last);
    }
    last
}
