//! Reading blocks.

ghost use Rattle.std.specs.Prelude.{◌≡◌, ◌≤◌, ◌+◌, ℕ, List, true, false, slice_range, IfOk, IfErr, IfSome};
ghost use Rattle.std.specs.Option.{ForSome};
ghost use Rattle.oz_chunk.specs.Slots.{IsWithin, start_of};
ghost use Rattle.oz_chunk.specs.declared.table.TheConstants.{SLOT_SIZE as SLOT_BYTES};
ghost use Rattle.oz_datanode.specs.Datanode.{DisksGoOn};
ghost use Rattle.oz_datanode.specs.Pairs.{Content, NodeHolds, slots_seen, part_of, parts_of, HaveDigests};
ghost use Rattle.oz_datanode.specs.Reading.{IsFirstBad, IsRead, IsUnread, OnlyReads, fails_to_read};
ghost use Rattle.oz_entries.specs.Held.{any_in};
ghost use Rattle.oz_fields.specs.declared.block.Block.{Block as BlockName};
ghost use Rattle.oz_world.specs.Disk.{seen};
ghost use Rattle.oz_world.specs.Faults.{Rose};
ghost use Rattle.sha2.specs.Sha256.{sha256};

use crate::datanode::Datanode;
use crate::refusal::NodeRefusal;
use oz_block::Shelf;
use oz_chunk::SLOT_SIZE;
use oz_entries::Chunk;
use oz_fields::Block;
use oz_world::Disk;
use sha2::{Digest, Sha256};
use std::alloc::Global;

/// Why chunks aren't read.
#[derive(Clone, Copy)]
pub(crate) enum Unread {
    Failed,
    Bad { kept: [u8; 32], found: [u8; 32] },
    OutOfMemory,
}

impl<D: Disk> Datanode<D> {
    /// The bytes of a block.
    pub fn read(&mut self, alloc: Global, block: Block) -> Result<Vec<u8>, NodeRefusal>
        ensures read { IfOk result (λ bytes. IsRead D.told D.faults block bytes.items self.old self.new) }
        ensures refused { IfErr result (IsUnread D.told D.faults block self.old self.new) }
        ensures rest { self.new ≡ record self.old { shelf = self.new.shelf } }
        ensures reads { OnlyReads self.old.shelf self.new.shelf
            (slots_seen D.told D.clock D.image D.faults self.old)
            (slots_seen D.told D.clock D.image D.faults self.new) }
        ensures pairs { (contents : BlockName → Content) → NodeHolds D.told D.clock D.image D.faults contents self.old
            → NodeHolds D.told D.clock D.image D.faults contents self.new }
        ensures goes_on { DisksGoOn D.told D.faults self.old self.new }
    {
        self.check_running()?;
        self.blocks.uses_slots_of_rows();
        let Some(row) = self.blocks.get(block) else {
            return Err(NodeRefusal::NoBlock);
        };
        match read_chunks(alloc, &mut self.shelf, row.length, row.chunks.items()) {
            Ok(bytes) => Ok(bytes),
            Err(Unread::Failed) => Err(self.halt()),
            Err(Unread::Bad { kept, found }) => Err(NodeRefusal::Bad { kept, found }),
            Err(Unread::OutOfMemory) => Err(NodeRefusal::OutOfMemory),
        }
    }
}

/// The bytes of chunks that have so many together.
fn read_chunks<D: Disk>(
    alloc: Global,
    shelf: &mut Shelf<D>,
    size: u32,
    chunks: &[Chunk],
) -> Result<Vec<u8>, Unread>
    requires running { shelf.old.failed ≡ false }
    requires within { IfSome (D.told shelf.old.slots.disk) (λ slots. (slot : ℕ) →
        any_in chunks.now slot ≡ true → IsWithin slot slots) }
    ensures bytes { IfOk result (λ bytes. ForSome (D.told shelf.old.slots.disk) (λ slots.
        bytes.items ≡ parts_of size chunks.now slots)) }
    ensures digests { IfOk result (λ bytes. ForSome (D.told shelf.old.slots.disk)
        (HaveDigests size chunks.now)) }
    ensures bad { IfErr result (λ why. (kept found : List ℕ) → why ≡ Unread.Bad kept found →
        ForSome (D.told shelf.old.slots.disk) (λ slots. IsFirstBad size chunks.now slots kept found)) }
    ensures reads { OnlyReads shelf.old shelf.new
        (seen (D.told shelf.old.slots.disk) (D.clock shelf.old.slots.disk) (D.image shelf.old.slots.disk)
        (D.faults shelf.old.slots.disk))
        (seen (D.told shelf.new.slots.disk) (D.clock shelf.new.slots.disk) (D.image shelf.new.slots.disk)
        (D.faults shelf.new.slots.disk)) }
    ensures failed { shelf.new.failed ≡ fails_to_read result }
    ensures cause { shelf.new.failed ≡ true →
        Rose (D.faults shelf.old.slots.disk) (D.faults shelf.new.slots.disk) }
{
    let mut bytes = Vec::new(alloc);
    let mut left = size as u64;
    for chunk in chunks {
        let part = match read_chunk(alloc, shelf, chunk, left) {
            Ok(part) => part,
            Err(unread) => return Err(unread),
        };
        let Ok(()) = bytes.extend_from_slice(&part) else {
            return Err(Unread::OutOfMemory);
        };
        left = left.saturating_sub(SLOT_SIZE);
    }
    Ok(bytes)
}

/// The bytes of a chunk, the first one of so many bytes.
fn read_chunk<D: Disk>(
    alloc: Global,
    shelf: &mut Shelf<D>,
    chunk: &Chunk,
    left: u64,
) -> Result<Vec<u8>, Unread>
    requires running { shelf.old.failed ≡ false }
    requires within { IfSome (D.told shelf.old.slots.disk) (IsWithin chunk.now.slot) }
    ensures bytes { IfOk result (λ part. ForSome (D.told shelf.old.slots.disk) (λ slots.
        part.items ≡ part_of left chunk.now slots)) }
    ensures digest { IfOk result (λ part. chunk.now.digest ≡ sha256 part.items) }
    ensures bad { IfErr result (λ why. (kept found : List ℕ) → why ≡ Unread.Bad kept found →
        ForSome (D.told shelf.old.slots.disk) (λ slots. (kept ≡ chunk.now.digest)
        × (found ≡ sha256 (part_of left chunk.now slots)) × (found ≡ kept → ⊥))) }
    ensures reads { OnlyReads shelf.old shelf.new
        (seen (D.told shelf.old.slots.disk) (D.clock shelf.old.slots.disk) (D.image shelf.old.slots.disk)
        (D.faults shelf.old.slots.disk))
        (seen (D.told shelf.new.slots.disk) (D.clock shelf.new.slots.disk) (D.image shelf.new.slots.disk)
        (D.faults shelf.new.slots.disk)) }
    ensures failed { shelf.new.failed ≡ fails_to_read result }
    ensures cause { shelf.new.failed ≡ true →
        Rose (D.faults shelf.old.slots.disk) (D.faults shelf.new.slots.disk) }
{
    let size = left.min(SLOT_SIZE) as usize;
    let part = match read_slot(alloc, shelf, chunk.slot, size) {
        Ok(part) => part,
        Err(unread) => return Err(unread),
    };
    let found = Sha256::digest(&part);
    if found != chunk.digest {
        return Err(Unread::Bad {
            kept: chunk.digest,
            found,
        });
    }
    Ok(part)
}

/// So many bytes from the beginning of a slot.
pub(crate) fn read_slot<D: Disk>(
    alloc: Global,
    shelf: &mut Shelf<D>,
    slot: u32,
    size: usize,
) -> Result<Vec<u8>, Unread>
    requires running { shelf.old.failed ≡ false }
    requires within { IfSome (D.told shelf.old.slots.disk) (IsWithin slot) }
    requires most { size ≤ SLOT_BYTES }
    ensures bytes { IfOk result (λ part. ForSome (D.told shelf.old.slots.disk) (λ slots.
        part.items ≡ slice_range slots (start_of slot) (start_of slot + size))) }
    ensures not_bad { IfErr result (λ why. (kept found : List ℕ) → why ≡ Unread.Bad kept found → ⊥) }
    ensures reads { OnlyReads shelf.old shelf.new
        (seen (D.told shelf.old.slots.disk) (D.clock shelf.old.slots.disk) (D.image shelf.old.slots.disk)
        (D.faults shelf.old.slots.disk))
        (seen (D.told shelf.new.slots.disk) (D.clock shelf.new.slots.disk) (D.image shelf.new.slots.disk)
        (D.faults shelf.new.slots.disk)) }
    ensures failed { shelf.new.failed ≡ fails_to_read result }
    ensures cause { shelf.new.failed ≡ true →
        Rose (D.faults shelf.old.slots.disk) (D.faults shelf.new.slots.disk) }
{
    let Ok(mut part) = vec![in alloc; 0; size] else {
        return Err(Unread::OutOfMemory);
    };
    let Ok(()) = shelf.read(slot, &mut part) else {
        return Err(Unread::Failed);
    };
    Ok(part)
}
