//! An entry, read over what was held before it. Each call gives what it read and the bytes behind it.

ghost use Rattle.std.specs.Prelude.{◌≡◌, ◌≤◌, ◌&&◌, ◌||◌, nat_le, true, [], IfOk};
ghost use Rattle.oz_rows.specs.Reading.{ReadGives, field, owner_at, number_at, length_at};
ghost use Rattle.std.specs.List.{list_any};
ghost use Rattle.oz_fields.specs.Number.{u16_at};
ghost use Rattle.oz_entries.specs.Held.{node_of, any_in};
ghost use Rattle.oz_entries.specs.Node.{is_used, is_held, is_deleted, uses_a_slot, or_slots};
ghost use Rattle.oz_entries.specs.Reading.{digest_at, slot_at, chunk_at, each_at, next_chunk_at, count_at, row_at};
ghost use Rattle.oz_entries.specs.Reading.{container_at, local_at, new_block_at, put_at, state_at, set_state_at};
ghost use Rattle.oz_entries.specs.Reading.{locals_at, numbered_at, is_due, due_at, apply_at, emptied_at, dropped_at};
ghost use Rattle.oz_entries.specs.Reading.{entry_at};

use crate::entry::Entry;
use crate::held::Held;
use crate::row::{BlockRow, Chunk};
use oz_chunk::{SLOT_SIZE, SLOTS};
use oz_container::State;
use oz_dellog::{MOST_LOCALS, Txn};
use oz_fields::{Block, GREATEST_BLOCK_NUMBER, LONGEST_PIECE, List, Reader};
use oz_rows::ReadFault;
use std::alloc::Global;

/// The entry that the front of the bytes spells, and the bytes behind it.
#[tactic(auto, unfolding(crate::specs::Reading::entry_at))]
pub(crate) fn entry_of<'b>(
    alloc: Global,
    held: &Held,
    bytes: &'b [u8],
) -> Result<(Entry, &'b [u8]), ReadFault>
    ensures { ReadGives (λ x. (x.0, x.1.now)) result (entry_at (node_of held.now) bytes.now) }
{
    let [tag, rest @ ..] = bytes else {
        return Err(ReadFault::Left(0));
    };
    match *tag {
        1 => put_of(alloc, held, rest),
        2 => set_state_of(rest),
        3 => apply_of(alloc, held, rest),
        4 => drop_of(held, rest),
        _ => Err(ReadFault::Left(bytes.len())),
    }
}

#[tactic(auto, unfolding(crate::specs::Reading::put_at))]
fn put_of<'b>(alloc: Global, held: &Held, bytes: &'b [u8]) -> Result<(Entry, &'b [u8]), ReadFault>
    ensures { ReadGives (λ x. (x.0, x.1.now)) result (put_at (node_of held.now) bytes.now) }
{
    let (block, rest) = new_block_of(held, bytes)?;
    let (row, rest) = row_of(alloc, held, rest)?;
    Ok((Entry::Put { block, row }, rest))
}

/// A block that isn't held, in a replica that isn't deleted.
#[tactic(auto, unfolding(crate::specs::Reading::new_block_at))]
fn new_block_of<'b>(held: &Held, bytes: &'b [u8]) -> Result<(Block, &'b [u8]), ReadFault>
    ensures { ReadGives (λ x. (x.0, x.1.now)) result (new_block_at (node_of held.now) bytes.now) }
{
    let (container, rest) = container_of(held, bytes)?;
    let (local, rest) = local_of(held, container, rest)?;
    Ok((Block { container, local }, rest))
}

#[tactic(auto, unfolding(crate::specs::Reading::container_at))]
fn container_of<'b>(held: &Held, bytes: &'b [u8]) -> Result<(u64, &'b [u8]), ReadFault>
    ensures { ReadGives (λ x. (x.0, x.1.now)) result (container_at (node_of held.now) bytes.now) }
{
    let mut reader = Reader::new(bytes);
    match reader.u64() {
        Some(n) if n >= 1 && n <= GREATEST_BLOCK_NUMBER && !is_gone(held.state(n)) => {
            Ok((n, &bytes[reader.at()..]))
        }
        _ => Err(ReadFault::Left(bytes.len())),
    }
}

fn is_gone(state: State) -> bool
    ensures { result ≡ is_deleted state }
{
    match state {
        State::Deleted => true,
        State::Open | State::Closing | State::QuasiClosed | State::Closed | State::Deleting =>
            false,
    }
}

#[tactic(auto, unfolding(crate::specs::Reading::local_at))]
fn local_of<'b>(held: &Held, container: u64, bytes: &'b [u8]) -> Result<(u64, &'b [u8]), ReadFault>
    ensures { ReadGives (λ x. (x.0, x.1.now)) result (local_at (node_of held.now) container bytes.now) }
{
    let mut reader = Reader::new(bytes);
    match reader.u64() {
        Some(local)
            if local >= 1
                && local <= GREATEST_BLOCK_NUMBER
                && !holds(held, Block { container, local }) => {
            Ok((local, &bytes[reader.at()..]))
        }
        _ => Err(ReadFault::Left(bytes.len())),
    }
}

fn holds(held: &Held, block: Block) -> bool
    ensures { result ≡ is_held (node_of held.now) block }
{
    held.get(&block).is_some()
}

#[tactic(auto, unfolding(crate::specs::Reading::row_at))]
fn row_of<'b>(
    alloc: Global,
    held: &Held,
    bytes: &'b [u8],
) -> Result<(BlockRow, &'b [u8]), ReadFault>
    ensures { ReadGives (λ x. (x.0, x.1.now)) result (row_at (is_used (node_of held.now)) bytes.now) }
{
    let (length, rest) = length_of(bytes)?;
    let (count, rest) = count_of(length, rest)?;
    let (chunks, rest) = chunks_of(alloc, held, count, rest)?;
    let chunks = List::of(chunks);
    Ok((BlockRow { length, chunks }, rest))
}

#[tactic(auto, unfolding(oz_rows::specs::Reading::length_at))]
fn length_of(bytes: &[u8]) -> Result<(u32, &[u8]), ReadFault>
    ensures read { ReadGives (λ x. (x.0, x.1.now)) result (length_at bytes.now) }
    ensures most { IfOk result (λ x. x.0 ≤ LONGEST_PIECE) }
{
    let mut reader = Reader::new(bytes);
    match reader.u32() {
        Some(length) if length >= 1 && length <= LONGEST_PIECE => {
            Ok((length, &bytes[reader.at()..]))
        }
        _ => Err(ReadFault::Left(bytes.len())),
    }
}

/// How many chunks a block of this length has.
#[tactic(auto, unfolding(crate::specs::Reading::count_at))]
fn count_of(length: u32, bytes: &[u8]) -> Result<(u8, &[u8]), ReadFault>
    ensures { ReadGives (λ x. (x.0, x.1.now)) result (count_at length bytes.now) }
{
    let mut reader = Reader::new(bytes);
    match reader.u8() {
        Some(count) if count as u64 == (length as u64 + (SLOT_SIZE - 1)) / SLOT_SIZE => {
            Ok((count, &bytes[reader.at()..]))
        }
        _ => Err(ReadFault::Left(bytes.len())),
    }
}

fn chunks_of<'b>(
    alloc: Global,
    held: &Held,
    count: u8,
    bytes: &'b [u8],
) -> Result<(Vec<Chunk>, &'b [u8]), ReadFault>
    ensures { ReadGives (λ x. (x.0.items, x.1.now)) result
        (each_at (next_chunk_at (is_used (node_of held.now))) [] count bytes.now) }
{
    let mut chunks = Vec::new(alloc);
    let mut rest = bytes;
    for _ in 0..count {
        let (chunk, after) = chunk_of(held, &chunks, rest)?;
        chunks.push(chunk)?;
        rest = after;
    }
    Ok((chunks, rest))
}

/// A chunk, in a slot that isn't in use and that none of the chunks before it has.
#[tactic(auto, unfolding(crate::specs::Reading::chunk_at))]
fn chunk_of<'b>(
    held: &Held,
    before: &[Chunk],
    bytes: &'b [u8],
) -> Result<(Chunk, &'b [u8]), ReadFault>
    ensures { ReadGives (λ x. (x.0, x.1.now)) result
        (chunk_at (or_slots (is_used (node_of held.now)) before.now) bytes.now) }
{
    let (slot, rest) = slot_of(held, before, bytes)?;
    let (digest, rest) = digest_of(rest)?;
    Ok((Chunk { slot, digest }, rest))
}

fn slot_of<'b>(held: &Held, before: &[Chunk], bytes: &'b [u8]) -> Result<(u32, &'b [u8]), ReadFault>
    ensures { ReadGives (λ x. (x.0, x.1.now)) result
        (slot_at (or_slots (is_used (node_of held.now)) before.now) bytes.now) }
{
    let mut reader = Reader::new(bytes);
    match reader.u32() {
        Some(slot) if slot < SLOTS && !is_taken(held, before, slot) => {
            Ok((slot, &bytes[reader.at()..]))
        }
        _ => Err(ReadFault::Left(bytes.len())),
    }
}

fn is_taken(held: &Held, before: &[Chunk], slot: u32) -> bool
    ensures { result ≡ or_slots (is_used (node_of held.now)) before.now slot }
{
    either(held.is_used(slot), is_in_one(before, slot))
}

fn either(one: bool, other: bool) -> bool
    ensures { result ≡ (one || other) }
{
    one || other
}

fn is_in_one(chunks: &[Chunk], slot: u32) -> bool
    ensures { result ≡ any_in chunks.now slot }
{
    chunks.iter().any(|chunk| chunk.slot == slot)
}

#[tactic(auto, unfolding(crate::specs::Reading::digest_at))]
fn digest_of(bytes: &[u8]) -> Result<([u8; 32], &[u8]), ReadFault>
    ensures { ReadGives (λ x. (x.0, x.1.now)) result (field digest_at (λ digest. true) bytes.now) }
{
    match bytes.split_first_chunk::<32>() {
        Some((digest, rest)) => Ok((*digest, rest)),
        None => Err(ReadFault::Left(bytes.len())),
    }
}

#[tactic(auto, unfolding(crate::specs::Reading::set_state_at))]
fn set_state_of(bytes: &[u8]) -> Result<(Entry, &[u8]), ReadFault>
    ensures { ReadGives (λ x. (x.0, x.1.now)) result (set_state_at bytes.now) }
{
    let (container, rest) = u64_of(bytes)?;
    let (state, rest) = state_of(rest)?;
    Ok((Entry::SetState { container, state }, rest))
}

#[tactic(auto, unfolding(oz_rows::specs::Reading::owner_at))]
fn u64_of(bytes: &[u8]) -> Result<(u64, &[u8]), ReadFault>
    ensures { ReadGives (λ x. (x.0, x.1.now)) result (owner_at bytes.now) }
{
    let mut reader = Reader::new(bytes);
    match reader.u64() {
        Some(n) => Ok((n, &bytes[reader.at()..])),
        None => Err(ReadFault::Left(bytes.len())),
    }
}

#[tactic(auto, unfolding(crate::specs::Reading::state_at))]
fn state_of(bytes: &[u8]) -> Result<(State, &[u8]), ReadFault>
    ensures { ReadGives (λ x. (x.0, x.1.now)) result (state_at bytes.now) }
{
    match bytes {
        [1, rest @ ..] => Ok((State::Open, rest)),
        [2, rest @ ..] => Ok((State::Closing, rest)),
        [3, rest @ ..] => Ok((State::QuasiClosed, rest)),
        [4, rest @ ..] => Ok((State::Closed, rest)),
        [5, rest @ ..] => Ok((State::Deleting, rest)),
        [6, rest @ ..] => Ok((State::Deleted, rest)),
        _ => Err(ReadFault::Left(bytes.len())),
    }
}

#[tactic(auto, unfolding(crate::specs::Reading::apply_at))]
fn apply_of<'b>(alloc: Global, held: &Held, bytes: &'b [u8]) -> Result<(Entry, &'b [u8]), ReadFault>
    ensures { ReadGives (λ x. (x.0, x.1.now)) result (apply_at (node_of held.now) bytes.now) }
{
    let (container, rest) = u64_of(bytes)?;
    let (txn, rest) = due_of(alloc, held, container, rest)?;
    Ok((Entry::Apply { txn }, rest))
}

/// A transaction above the greatest of its container, or one that names a block that is held.
#[tactic(auto, unfolding(crate::specs::Reading::due_at))]
fn due_of<'b>(
    alloc: Global,
    held: &Held,
    container: u64,
    bytes: &'b [u8],
) -> Result<(Txn, &'b [u8]), ReadFault>
    ensures { ReadGives (λ x. (x.0, x.1.now)) result (due_at (node_of held.now) container bytes.now) }
{
    let (txn, rest) = numbered_of(alloc, container, bytes)?;
    if !is_due_now(held, &txn) {
        return Err(ReadFault::Left(bytes.len()));
    }
    Ok((txn, rest))
}

fn is_due_now(held: &Held, txn: &Txn) -> bool
    ensures { result ≡ is_due (node_of held.now) txn.now }
{
    held.greatest(txn.container) < txn.number || names_one(held, txn.container, txn.locals.items())
}

fn names_one(held: &Held, container: u64, locals: &[u64]) -> bool
    ensures { result ≡ list_any
        (λ local. is_held (node_of held.now) (record { container = container; local = local })) locals.now }
{
    locals.iter().any(|local| holds(
        held,
        Block {
            container,
            local: *local,
        },
    ))
}

#[tactic(auto, unfolding(crate::specs::Reading::numbered_at))]
fn numbered_of(alloc: Global, container: u64, bytes: &[u8]) -> Result<(Txn, &[u8]), ReadFault>
    ensures { ReadGives (λ x. (x.0, x.1.now)) result (numbered_at container bytes.now) }
{
    let (number, rest) = number_of(bytes)?;
    let (locals, rest) = locals_of(alloc, rest)?;
    let locals = List::of(locals);
    Ok((
        Txn {
            number,
            container,
            locals,
        },
        rest,
    ))
}

#[tactic(auto, unfolding(oz_rows::specs::Reading::number_at))]
fn number_of(bytes: &[u8]) -> Result<(u64, &[u8]), ReadFault>
    ensures { ReadGives (λ x. (x.0, x.1.now)) result (number_at bytes.now) }
{
    let mut reader = Reader::new(bytes);
    match reader.u64() {
        Some(number) if number >= 1 => Ok((number, &bytes[reader.at()..])),
        _ => Err(ReadFault::Left(bytes.len())),
    }
}

#[tactic(auto, unfolding(crate::specs::Reading::locals_at))]
fn locals_of(alloc: Global, bytes: &[u8]) -> Result<(Vec<u64>, &[u8]), ReadFault>
    ensures { ReadGives (λ x. (x.0.items, x.1.now)) result (locals_at bytes.now) }
{
    let (count, rest) = locals_count_of(bytes)?;
    so_many_locals(alloc, count, rest)
}

fn locals_count_of(bytes: &[u8]) -> Result<(u16, &[u8]), ReadFault>
    ensures { ReadGives (λ x. (x.0, x.1.now)) result
        (field u16_at (λ n. nat_le 1 n && nat_le n MOST_LOCALS) bytes.now) }
{
    let mut reader = Reader::new(bytes);
    match reader.u16() {
        Some(count) if count >= 1 && count as usize <= MOST_LOCALS => {
            Ok((count, &bytes[reader.at()..]))
        }
        _ => Err(ReadFault::Left(bytes.len())),
    }
}

fn so_many_locals(alloc: Global, count: u16, bytes: &[u8]) -> Result<(Vec<u64>, &[u8]), ReadFault>
    ensures { ReadGives (λ x. (x.0.items, x.1.now)) result (each_at (λ before. owner_at) [] count bytes.now) }
{
    let mut locals = Vec::new(alloc);
    let mut rest = bytes;
    for _ in 0..count {
        let (local, after) = u64_of(rest)?;
        locals.push(local)?;
        rest = after;
    }
    Ok((locals, rest))
}

#[tactic(auto, unfolding(crate::specs::Reading::dropped_at))]
fn drop_of<'b>(held: &Held, bytes: &'b [u8]) -> Result<(Entry, &'b [u8]), ReadFault>
    ensures { ReadGives (λ x. (x.0, x.1.now)) result (dropped_at (node_of held.now) bytes.now) }
{
    let (container, rest) = emptied_of(held, bytes)?;
    Ok((Entry::Drop { container }, rest))
}

/// A container no block of which uses a slot.
#[tactic(auto, unfolding(crate::specs::Reading::emptied_at))]
fn emptied_of<'b>(held: &Held, bytes: &'b [u8]) -> Result<(u64, &'b [u8]), ReadFault>
    ensures { ReadGives (λ x. (x.0, x.1.now)) result (emptied_at (node_of held.now) bytes.now) }
{
    let mut reader = Reader::new(bytes);
    match reader.u64() {
        Some(container) if !held.uses_a_slot(container) => {
            Ok((container, &bytes[reader.at()..]))
        }
        _ => Err(ReadFault::Left(bytes.len())),
    }
}
