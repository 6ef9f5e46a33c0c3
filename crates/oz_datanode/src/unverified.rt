//! Chunks that are read without a look at their digests, and that look by itself.

ghost use Rattle.std.specs.Prelude.{◌≡◌, ◌↔◌, ℕ, List, true, false, IsTrue, IfOk, IfErr, IfSome, IfNone};
ghost use Rattle.std.specs.Option.{ForSome};
ghost use Rattle.oz_chunk.specs.Slots.{IsWithin};
ghost use Rattle.oz_datanode.specs.Datanode.{DisksGoOn};
ghost use Rattle.oz_datanode.specs.Pairs.{Content, NodeHolds, slots_seen};
ghost use Rattle.oz_datanode.specs.Reading.{IsRead, IsUnread, OnlyReads, fails_to_read};
ghost use Rattle.oz_datanode.specs.Unverified.{AreAsKept, AreUnverified, IsUnverified, joined, HasItsDigest};
ghost use Rattle.oz_datanode.specs.declared.refusal.NodeRefusal.TheVariants as refusals;
ghost use Rattle.oz_entries.specs.Held.{any_in};
ghost use Rattle.oz_fields.specs.declared.block.Block.{Block as BlockName};
ghost use Rattle.oz_world.specs.Disk.{seen};
ghost use Rattle.oz_world.specs.Faults.{Rose};

use crate::datanode::Datanode;
use crate::reading::{Unread, read_slot};
use crate::refusal::NodeRefusal;
use oz_block::Shelf;
use oz_chunk::SLOT_SIZE;
use oz_entries::Chunk;
use oz_fields::{Block, OutOfMemory};
use oz_world::Disk;
use sha2::{Digest, Sha256};
use std::alloc::Global;

/// The bytes of a chunk as the disk answered them, and the digest that is kept of it. It isn't known whether that is theirs.
#[derive(Drop)]
pub struct Unverified {
    pub bytes: Vec<u8>,
    pub digest: [u8; 32],
}

impl<D: Disk> Datanode<D> {
    /// The chunks of a block in their order, as its disk answers them, with the digests that are kept of them. Nobody has
    /// looked whether those are theirs: where they are, `read` would have given these bytes.
    pub fn read_unverified(
        &mut self,
        alloc: Global,
        block: Block,
    ) -> Result<Vec<Unverified>, NodeRefusal>
        ensures chunks { IfOk result (λ chunks. IsUnverified D.told D.faults block chunks.items self.old self.new) }
        ensures read { IfOk result (λ chunks. AreAsKept chunks.items →
            IsRead D.told D.faults block (joined chunks.items) self.old self.new) }
        ensures refused { IfErr result (IsUnread D.told D.faults block self.old self.new) }
        ensures not_bad { IfErr result (λ why. (kept found : List ℕ) → why ≡ refusals.Bad kept found → ⊥) }
        ensures rest { self.new ≡ record self.old { shelf = self.new.shelf } }
        ensures reads { OnlyReads self.old.shelf self.new.shelf
            (slots_seen D.told D.clock D.image D.faults self.old)
            (slots_seen D.told D.clock D.image D.faults self.new) }
        ensures pairs { (contents : BlockName → Content) → NodeHolds D.told D.clock D.image D.faults contents self.old
            → NodeHolds D.told D.clock D.image D.faults contents self.new }
        ensures goes_on { DisksGoOn D.told D.faults self.old self.new }
    {
        self.check_running()?;
        self.blocks.uses_slots_of_rows();
        let Some(row) = self.blocks.get(block) else {
            return Err(NodeRefusal::NoBlock);
        };
        match copy_chunks(alloc, &mut self.shelf, row.length, row.chunks.items()) {
            Ok(chunks) => Ok(chunks),
            Err(Unread::Failed) => Err(self.halt()),
            Err(Unread::Bad { kept, found }) => Err(NodeRefusal::Bad { kept, found }),
            Err(Unread::OutOfMemory) => Err(NodeRefusal::OutOfMemory),
        }
    }
}

/// Chunks that have so many bytes together, as their disk answers them.
fn copy_chunks<D: Disk>(
    alloc: Global,
    shelf: &mut Shelf<D>,
    size: u32,
    chunks: &[Chunk],
) -> Result<Vec<Unverified>, Unread>
    requires running { shelf.old.failed ≡ false }
    requires within { IfSome (D.told shelf.old.slots.disk) (λ slots. (slot : ℕ) →
        any_in chunks.now slot ≡ true → IsWithin slot slots) }
    ensures copied { IfOk result (λ copied. ForSome (D.told shelf.old.slots.disk) (λ slots.
        AreUnverified size chunks.now slots copied.items)) }
    ensures not_bad { IfErr result (λ why. (kept found : List ℕ) → why ≡ Unread.Bad kept found → ⊥) }
    ensures reads { OnlyReads shelf.old shelf.new
        (seen (D.told shelf.old.slots.disk) (D.clock shelf.old.slots.disk) (D.image shelf.old.slots.disk)
        (D.faults shelf.old.slots.disk))
        (seen (D.told shelf.new.slots.disk) (D.clock shelf.new.slots.disk) (D.image shelf.new.slots.disk)
        (D.faults shelf.new.slots.disk)) }
    ensures failed { shelf.new.failed ≡ fails_to_read result }
    ensures cause { shelf.new.failed ≡ true →
        Rose (D.faults shelf.old.slots.disk) (D.faults shelf.new.slots.disk) }
{
    let mut copied = Vec::new(alloc);
    let mut left = size as u64;
    for chunk in chunks {
        let bytes = match read_slot(alloc, shelf, chunk.slot, left.min(SLOT_SIZE) as usize) {
            Ok(bytes) => bytes,
            Err(unread) => return Err(unread),
        };
        let digest = chunk.digest;
        let Ok(()) = copied.push(Unverified { bytes, digest }) else {
            return Err(Unread::OutOfMemory);
        };
        left = left.saturating_sub(SLOT_SIZE);
    }
    Ok(copied)
}

/// The bytes of chunks, one behind the other, where each has the digest that is kept of it, and None where one hasn't.
pub fn verified(alloc: Global, chunks: &[Unverified]) -> Result<Option<Vec<u8>>, OutOfMemory>
    ensures bytes { IfOk result (λ given. IfSome given (λ bytes.
        AreAsKept chunks.now × (bytes.items ≡ joined chunks.now))) }
    ensures differ { IfOk result (λ given. IfNone given (AreAsKept chunks.now → ⊥)) }
{
    if !are_as_kept(chunks) {
        return Ok(None);
    }
    let bytes = join(alloc, chunks)?;
    Ok(Some(bytes))
}

/// Whether each chunk has the digest that is kept of it.
fn are_as_kept(chunks: &[Unverified]) -> bool
    ensures { IsTrue result ↔ AreAsKept chunks.now }
{
    chunks.iter().all(|chunk| has_its_digest(chunk))
}

fn has_its_digest(chunk: &Unverified) -> bool
    ensures { IsTrue result ↔ HasItsDigest chunk.now }
{
    Sha256::digest(&chunk.bytes) == chunk.digest
}

/// The bytes of chunks, one behind the other.
fn join(alloc: Global, chunks: &[Unverified]) -> Result<Vec<u8>, OutOfMemory>
    ensures { IfOk result (λ bytes. bytes.items ≡ joined chunks.now) }
{
    let mut bytes = Vec::new(alloc);
    for chunk in chunks {
        bytes.extend_from_slice(&chunk.bytes)?;
    }
    Ok(bytes)
}
