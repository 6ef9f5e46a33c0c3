//! Blocks that are to be deleted, as transactions of the log of deleted blocks.

ghost use Rattle.std.specs.Prelude.{◌≡◌, ◌≤◌, ◌<◌, ◌+◌, ◌++◌, ◌∷◌, [], ℕ, All, IfOk, IfSome, OnOk, length};
ghost use Rattle.oz_dellog.specs.declared.txn.TheConstants.{MOST_LOCALS as MOST};
ghost use Rattle.oz_dellog.specs.declared.txn.Txn.{Txn as AnyTxn};
ghost use Rattle.oz_fields.specs.declared.block.Block.{Block as AnyBlock};
ghost use Rattle.oz_service.specs.Splitting.{AddsOf, AreInOrder, AreTransactionsOf, IsPassed, locals_in};

use oz_dellog::{MOST_LOCALS, Txn};
use oz_fields::{Block, List, OutOfMemory};
use std::alloc::{AllocError, Global};

/// The transactions for these blocks, with the numbers behind the last one: containers rising, and 1,024 ids in each but the last
/// of a container.
///
/// Errors: no memory. The same is answered where numbers don't suffice: after 2^64 - 1 transactions, and for a container of that
/// number, of which there is none.
pub fn transactions(alloc: Global, last: u64, blocks: &[Block]) -> Result<Vec<Txn>, OutOfMemory>
    ensures { IfOk result (λ txns. AreTransactionsOf last blocks.now txns.items) }
{
    let mut txns = Vec::new(alloc);
    let mut least: u64 = 0;
    while let Some(container) = next_container(blocks, least) {
        add_of(alloc, last, &mut txns, container, blocks)?;
        let Some(behind) = container.checked_add(1) else {
            return Err(AllocError);
        };
        least = behind;
    }
    Ok(txns)
}

/// The lowest container of a block from this one on.
fn next_container(blocks: &[Block], least: u64) -> Option<u64>
    ensures found { IfSome result (λ found. least ≤ found) }
    ensures passed { All (IsPassed least result) blocks.now }
{
    let mut found = None;
    for block in blocks {
        found = lower(found, least, block.container);
    }
    found
}

/// The lower one of what was found and this container, which is passed over where it is below the least.
fn lower(found: Option<u64>, least: u64, container: u64) -> Option<u64>
    ensures found { IfSome found (λ was. least ≤ was) → IfSome result (λ now. least ≤ now) }
    ensures passed { (block : AnyBlock) → IsPassed least found block → IsPassed least result block }
    ensures this { (block : AnyBlock) → block.container ≡ container → IsPassed least result block }
{
    match found {
        Some(lowest) if lowest <= container => Some(lowest),
        _ if container < least => found,
        _ => Some(container),
    }
}

/// Adds those of one container, which is above those that are there.
fn add_of(
    alloc: Global,
    last: u64,
    txns: &mut Vec<Txn>,
    container: u64,
    blocks: &[Block],
) -> Result<(), OutOfMemory>
    requires above { All (λ (txn : AnyTxn). txn.container < container) txns.old.items }
    requires in_order { AreInOrder last txns.old.items }
    ensures added { OnOk result (AddsOf container (locals_in container blocks.now) txns.old.items txns.new.items) }
    ensures in_order { OnOk result (AreInOrder last txns.new.items) }
{
    let locals = locals_of(alloc, container, blocks)?;
    let mut rest = locals.as_slice();
    while !rest.is_empty() {
        let (part, more) = rest.split_at(rest.len().min(MOST_LOCALS));
        add_one(alloc, last, txns, container, part)?;
        rest = more;
    }
    Ok(())
}

/// The local ids of the blocks in a container.
fn locals_of(alloc: Global, container: u64, blocks: &[Block]) -> Result<Vec<u64>, OutOfMemory>
    ensures { IfOk result (λ locals. locals.items ≡ locals_in container blocks.now) }
{
    let mut locals = Vec::new(alloc);
    for block in blocks {
        if container == block.container {
            locals.push(block.local)?;
        }
    }
    Ok(locals)
}

/// Adds one of these ids behind the others.
fn add_one(
    alloc: Global,
    last: u64,
    txns: &mut Vec<Txn>,
    container: u64,
    locals: &[u64],
) -> Result<(), OutOfMemory>
    ensures { OnOk result (txns.new.items ≡ txns.old.items ++ record {
      number = last + 1 + length txns.old.items;
      container = container;
      locals = locals.now;
    } ∷ []) }
{
    let Some(number) = u64::try_from(txns.len())
        .ok()
        .and_then(|count| count.checked_add(1))
        .and_then(|count| last.checked_add(count))
    else {
        return Err(AllocError);
    };
    let locals = List::of(Vec::from_slice(alloc, locals)?);
    txns.push(Txn {
        number,
        container,
        locals,
    })?;
    Ok(())
}
