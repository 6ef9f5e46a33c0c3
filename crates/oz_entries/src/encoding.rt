//! Entries written.

ghost use Rattle.std.specs.Prelude.{◌≡◌, ◌≤◌, ◌<◌, ◌^◌, ◌++◌, length, IfOk, OnOk};
ghost use Rattle.oz_entries.specs.Entries.{entry_bytes, row_bytes, chunks_bytes, locals_bytes};
ghost use Rattle.oz_entries.specs.Entries.{state_number as number_of_state};

use crate::entry::Entry;
use crate::row::{BlockRow, Chunk};
use oz_container::State;
use oz_dellog::Txn;
use oz_fields::{Block, OutOfMemory, put_u8, put_u16, put_u32, put_u64};
use std::alloc::Global;

/// The bytes of a put.
pub fn encode_put(alloc: Global, block: Block, row: &BlockRow) -> Result<Vec<u8>, OutOfMemory>
    requires { length row.now.chunks < 2 ^ 8 }
    ensures { IfOk result (λ bytes. bytes.items ≡ entry_bytes (Entry.Put block row.now)) }
{
    let mut out = Vec::new(alloc);
    put_u8(alloc, &mut out, 1)?;
    put_u64(alloc, &mut out, block.container)?;
    put_u64(alloc, &mut out, block.local)?;
    put_row(alloc, &mut out, row)?;
    Ok(out)
}

fn put_row(alloc: Global, out: &mut Vec<u8>, row: &BlockRow) -> Result<(), OutOfMemory>
    requires { length row.now.chunks < 2 ^ 8 }
    ensures { OnOk result (out.new.items ≡ out.old.items ++ row_bytes row.now) }
{
    put_u32(alloc, out, row.length)?;
    put_u8(alloc, out, row.chunks.len() as u8)?;
    put_chunks(alloc, out, row.chunks.items())
}

fn put_chunks(alloc: Global, out: &mut Vec<u8>, chunks: &[Chunk]) -> Result<(), OutOfMemory>
    ensures { OnOk result (out.new.items ≡ out.old.items ++ chunks_bytes chunks.now) }
{
    for chunk in chunks {
        put_u32(alloc, out, chunk.slot)?;
        out.extend_from_slice(&chunk.digest)?;
    }
    Ok(())
}

/// The bytes of a replica's state.
pub fn encode_state(alloc: Global, container: u64, state: State) -> Result<Vec<u8>, OutOfMemory>
    ensures { IfOk result (λ bytes. bytes.items ≡ entry_bytes (Entry.SetState container state)) }
{
    let mut out = Vec::new(alloc);
    put_u8(alloc, &mut out, 2)?;
    put_u64(alloc, &mut out, container)?;
    put_u8(alloc, &mut out, state_number(state))?;
    Ok(out)
}

fn state_number(state: State) -> u8
    ensures { result ≡ number_of_state state }
{
    match state {
        State::Open => 1,
        State::Closing => 2,
        State::QuasiClosed => 3,
        State::Closed => 4,
        State::Deleting => 5,
        State::Deleted => 6,
    }
}

/// The bytes of a transaction that was applied.
pub fn encode_apply(alloc: Global, txn: &Txn) -> Result<Vec<u8>, OutOfMemory>
    requires { length txn.now.locals < 2 ^ 16 }
    ensures { IfOk result (λ bytes. bytes.items ≡ entry_bytes (Entry.Apply txn.now)) }
{
    let mut out = Vec::new(alloc);
    put_u8(alloc, &mut out, 3)?;
    put_u64(alloc, &mut out, txn.container)?;
    put_u64(alloc, &mut out, txn.number)?;
    put_locals(alloc, &mut out, txn.locals.items())?;
    Ok(out)
}

fn put_locals(alloc: Global, out: &mut Vec<u8>, locals: &[u64]) -> Result<(), OutOfMemory>
    requires { length locals.now < 2 ^ 16 }
    ensures { OnOk result (out.new.items ≡ out.old.items ++ locals_bytes locals.now) }
{
    put_u16(alloc, out, locals.len() as u16)?;
    for local in locals {
        put_u64(alloc, out, *local)?;
    }
    Ok(())
}

/// The bytes of a replica that was dropped.
pub fn encode_drop(alloc: Global, container: u64) -> Result<Vec<u8>, OutOfMemory>
    ensures { IfOk result (λ bytes. bytes.items ≡ entry_bytes (Entry.Drop container)) }
{
    let mut out = Vec::new(alloc);
    put_u8(alloc, &mut out, 4)?;
    put_u64(alloc, &mut out, container)?;
    Ok(out)
}
