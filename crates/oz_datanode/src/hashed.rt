//! The bytes of a block with the digests of their chunks.

ghost use Rattle.std.specs.Prelude.{◌≡◌, ◌≤◌, ◌<◌, ◌*◌, ◌-◌, min, length};
ghost use Rattle.oz_chunk.specs.declared.table.TheConstants.{SLOT_SIZE as SLOT_BYTES};
ghost use Rattle.oz_datanode.specs.Hashed.{chunk_at};
ghost use Rattle.oz_fields.specs.declared.block.TheConstants.{LONGEST_PIECE};
ghost use Rattle.sha2.specs.Sha256.{sha256};

use crate::copying::part_at;
use oz_chunk::SLOT_SIZE;
use sha2::{Digest, Sha256};
use std::marker::Model;

/// The bytes of a block with the SHA-256 of each of their chunks, which is made once. Contracts see the bytes.
#[derive(Drop)]
pub struct Hashed<'a> {
    bytes: &'a [u8],
    digests: [[u8; 32]; 4],
}

impl<'a> Model for Hashed<'a> {
    ghost use Rattle.std.specs.Prelude.{ℕ, List};
    ghost use Rattle.oz_datanode.specs.Hashed.{AreHashed};

    ghost Value = { List ℕ };

    ghost view = { λ hashed. hashed.bytes.now };

    ghost invariant = { λ hashed. AreHashed hashed.digests hashed.bytes.now };
}

impl<'a> Hashed<'a> {
    /// Makes the digests.
    pub fn new(bytes: &'a [u8]) -> Hashed<'a>
        requires { length bytes.now ≤ LONGEST_PIECE }
        ensures { result ≡ bytes.now }
    {
        let mut digests = [[0; 32]; 4];
        for place in 0..(bytes.len() + (SLOT_SIZE as usize - 1)) / SLOT_SIZE as usize {
            digests[place] = Sha256::digest(part_at(bytes, place));
        }
        Hashed { bytes, digests }
    }

    pub fn bytes(&self) -> &'a [u8]
        ensures { result.now ≡ self.now }
    {
        self.bytes
    }

    /// How many bytes there are.
    pub fn len(&self) -> usize
        ensures { result ≡ length self.now }
    {
        self.bytes.len()
    }

    /// The chunk in this place, from 0.
    pub fn part(&self, place: usize) -> &'a [u8]
        requires { place * SLOT_BYTES < length self.now }
        ensures part { result.now ≡ chunk_at place self.now }
        ensures size { length result.now ≡ min (length self.now - place * SLOT_BYTES) SLOT_BYTES }
    {
        part_at(self.bytes, place)
    }

    /// Its SHA-256.
    pub fn digest(&self, place: usize) -> [u8; 32]
        requires { place * SLOT_BYTES < length self.now }
        ensures { result ≡ sha256 (chunk_at place self.now) }
    {
        let digests = &self.digests;
        digests[place]
    }
}
