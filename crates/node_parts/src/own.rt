//! The blocks of cases, all of them in container 1, and their own bytes.

ghost use Rattle.std.specs.Prelude.{◌≡◌, ◌≤◌, ◌<◌, true, length, IfSome};
ghost use Rattle.std.specs.Bool.{OnTrue};
ghost use Rattle.oz_rows.specs.Rows.{IsBlock};

use crate::told::Stuck;
use crate::words::bytes;
use oz_fields::Block;
use std::alloc::Global;

pub const CONTAINER: u64 = 1;

pub fn block(local: u64) -> Block
    ensures { result ≡ record { container = 1; local = local } }
{
    Block {
        container: CONTAINER,
        local,
    }
}

/// Whether a block may have this number.
pub fn may_be(local: u64) -> bool
    ensures { OnTrue result (IsBlock (record { container = 1; local = local })) }
{
    1 <= local && local <= 1 << 62
}

/// How many bytes of its own a block has.
fn size_of(local: u64) -> usize {
    match local {
        2 => 16_385,
        _ => 1,
    }
}

/// The bytes that words say, or those of a block's own where there is no word: `abc` of block 1, 16,385 bytes 2 of block 2, and of
/// each other one a byte, which is its number modulo 251.
pub fn bytes_for(alloc: Global, local: u64, words: &str) -> Result<Vec<u8>, Stuck> {
    if !words.is_empty() {
        return bytes(alloc, words);
    }
    if local == 1 {
        return Ok(Vec::from_slice(alloc, b"abc".as_slice())?);
    }
    Ok(vec![in alloc; (local % 251) as u8; size_of(local)]?)
}

/// The chunk in this place of the bytes of a block, which is one of four.
pub fn chunk_at(bytes: &[u8], place: u8) -> Option<&[u8]>
    ensures place { IfSome result (λ chunk. place < 4) }
    ensures least { IfSome result (λ chunk. 1 ≤ length chunk.now) }
    ensures most { IfSome result (λ chunk. length chunk.now ≤ 16384) }
{
    if place >= 4 || place as usize * 16_384 >= bytes.len() {
        return None;
    }
    let from = place as usize * 16_384;
    let size = (bytes.len() - from).min(16_384);
    Some(&bytes[from..from + size])
}

/// These bytes, where they are a chunk, and the place is one of four.
pub fn whole_chunk(bytes: &[u8], place: u8) -> Option<&[u8]>
    ensures place { IfSome result (λ chunk. place < 4) }
    ensures least { IfSome result (λ chunk. 1 ≤ length chunk.now) }
    ensures most { IfSome result (λ chunk. length chunk.now ≤ 16384) }
{
    if place >= 4 || bytes.is_empty() || bytes.len() > 16_384 {
        return None;
    }
    Some(bytes)
}
