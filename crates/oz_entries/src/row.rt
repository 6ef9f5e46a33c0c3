//! Where the bytes of a block stand.

use oz_fields::List;

/// A part of a block: its slot, and the SHA-256 of its bytes.
#[derive(Clone, Copy, Debug, PartialEq, Eq)]
pub struct Chunk {
    pub slot: u32,
    pub digest: [u8; 32],
}

/// A block that is held: how many bytes it has, and its chunks in their order. Each but the last has as many bytes as a
/// slot.
#[derive(Debug, Drop, PartialEq, Eq)]
pub struct BlockRow {
    pub length: u32,
    pub chunks: List<Chunk>,
}
