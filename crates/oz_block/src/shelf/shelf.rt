//! The slots of a datanode, and what was written to them of blocks that aren't put yet.

ghost use Rattle.std.specs.Prelude.{◌≡◌, ◌≤◌, ◌<◌, ◌⊎◌, [], ℕ, Bool, true, false, length, is_err};
ghost use Rattle.std.specs.Prelude.{IfOk, IfErr, OnOk, OnErr, IfSome, All, Contains, IsTrue, ◌↔◌, slice_range, if◌then◌else◌, ◌||◌, ◌+◌, Err};
ghost use Rattle.oz_chunk.specs.Disk.{Syncs, Empties};
ghost use Rattle.oz_chunk.specs.Slots.{start_of, IsWithin, IsLowestPast};
ghost use Rattle.oz_chunk.specs.Taken.{is_taken, AllTakenBelow};
ghost use Rattle.oz_chunk.specs.declared.fault.SlotFull.{SlotFull as Full};
ghost use Rattle.oz_chunk.specs.declared.table.TheConstants.{SLOTS, SLOT_SIZE as SLOT_BYTES, CAPACITY};
ghost use Rattle.oz_entries.specs.Held.{any_in};
ghost use Rattle.oz_block.specs.shelf.Answers.{says_failed};
ghost use Rattle.oz_block.specs.shelf.Shelf.{IsWritten, KeepsTold, AreSettled, Rests};
ghost use Rattle.oz_block.specs.shelf.Written.{chunks_in, makes, row_of, written_of, written_besides};
ghost use Rattle.oz_world.specs.Disk.{seen, Same, Stands, TellsAsBefore, IsStable};
ghost use Rattle.oz_world.specs.Faults.{Rose, HasCause};
ghost use Rattle.oz_world.specs.Moments.{Spans};
ghost use Rattle.sha2.specs.Sha256.{sha256};

use crate::shelf::written::{Which, Written, add, let_go, makes, take_out};
use oz_chunk::{SlotFault, SlotFull, Slots};
use oz_entries::{BlockRow, Chunk};
use oz_fields::{Block, List, OutOfMemory};
use oz_world::{Disk, Failed};
use std::alloc::Global;
use std::marker::Model;

/// Why a chunk wasn't written.
#[derive(Clone, Copy, Debug, PartialEq, Eq)]
pub enum Unwritten {
    Full(SlotFull),
    Failed,
    OutOfMemory,
}

/// The slots, the chunks that were written and not put, and whether a call on the disk has failed.
#[derive(Drop)]
pub struct Shelf<D: Disk> {
    pub(crate) slots: Slots<D>,
    written: Vec<Written>,
    failed: bool,
}

impl<D: Disk> Model for Shelf<D> {
    ghost use Rattle.std.specs.Prelude.{◌≡◌, false};
    ghost use Rattle.oz_block.specs.shelf.Shelf.{ShelfView};

    ghost Value = { ShelfView D };

    ghost view = { λ shelf. record { slots = shelf.slots; written = shelf.written.items; failed = shelf.failed } };
}

impl<D: Disk> Shelf<D> {
    ghost use Rattle.oz_block.specs.shelf.Shelf.{disk_after};

    /// The slots of a disk of which these are held, with nothing written. It makes stable what the disk has, and writes
    /// nothing. The disk comes back where it can't.
    pub fn load(alloc: Global, disk: D, held: &[u32]) -> Result<Shelf<D>, (D, SlotFault)>
        ensures rests { IfOk result (λ shelf. (used : ℕ → Bool) →
            ((slot : ℕ) → slot < SLOTS → IsTrue (used slot) ↔ Contains held.now slot) →
            ((slot : ℕ) → used slot ≡ true → slot < SLOTS) →
            Rests used shelf (seen (D.told shelf.slots.disk) (D.clock shelf.slots.disk) (D.image shelf.slots.disk)
            (D.faults shelf.slots.disk))) }
        ensures running { IfOk result (λ shelf. shelf.failed ≡ false) }
        ensures written { IfOk result (λ shelf. shelf.written ≡ []) }
        ensures within { IfOk result (λ shelf. IfSome (D.told disk) (λ bytes.
            All (λ slot. IsWithin slot bytes) held.now)) }

        // When each fault comes.
        ensures past { IfErr result (λ refused. (offset : ℕ) → refused.1 ≡ SlotFault.Past offset →
            IfSome (D.told disk) (λ bytes. IsLowestPast held.now (length bytes) offset)) }
        ensures disk { IfErr result (λ refused.
            refused.1 ≡ SlotFault.Disk → Rose (D.faults disk) (D.faults refused.0)) }
        ensures never_falls { D.faults disk ≤ D.faults (disk_after result) }

        // What the disk tells, and what a stop may leave.
        ensures contents { D.told (disk_after result) ≡ D.told disk }
        ensures stable { IfOk result (λ shelf. IfSome (D.told disk)
            (IsStable (D.image shelf.slots.disk) (D.clock shelf.slots.disk))) }
        ensures ended { IfOk result (λ shelf. D.clock shelf.slots.disk ≡ D.clock disk + 1) }
        ensures time { Spans Same (D.clock disk) (D.clock (disk_after result)) (D.image disk)
            (D.image (disk_after result)) }
    {
        match Slots::load(alloc, disk, held) {
            Ok(slots) => Ok(Shelf {
                slots,
                written: Vec::new(alloc),
                failed: false,
            }),
            Err((disk, fault)) => Err((disk, fault)),
        }
    }

    /// Whether a call on the disk has failed.
    pub fn failed(&self) -> bool
        ensures { result ≡ self.now.failed }
    {
        self.failed
    }

    /// How often the disk has failed.
    pub fn faults(&self) -> u64
        ensures { result ≡ D.faults self.now.slots.disk }
    {
        self.slots.faults()
    }

    pub fn into_disk(self) -> D
        ensures { result ≡ self.slots.disk }
    {
        self.slots.into_disk()
    }

    /// Whether the chunks that were written of a block make so many bytes.
    pub fn makes(&self, block: Block, size: u32) -> bool
        ensures { result ≡ makes self.now.written block size }
    {
        makes(&self.written, block, size)
    }

    /// The row of a block of so many bytes that has the chunks which were written of it, in the order of their places.
    pub fn row(&self, alloc: Global, block: Block, size: u32) -> Result<BlockRow, OutOfMemory>
        ensures { IfOk result (λ row. row ≡ row_of self.now.written block size) }
    {
        let chunks = chunks_of(alloc, &self.written, block)?;
        Ok(BlockRow {
            length: size,
            chunks: List::of(chunks),
        })
    }

    /// Sets the slots of what was written of a block free.
    pub fn let_go(&mut self, block: Block)
        ensures written { self.new.written ≡ written_besides block self.old.written }
        ensures failed { self.new.failed ≡ self.old.failed }
        ensures disk { self.new.slots.disk ≡ self.old.slots.disk }
        ensures free { (slot : ℕ) → is_taken self.new.slots.taken slot
            ≡ (if any_in (chunks_in (written_of block self.old.written)) slot then false
            else is_taken self.old.slots.taken slot) }
        ensures rests { (used : ℕ → Bool) → Rests used self.old (seen (D.told self.old.slots.disk) (D.clock self.old.slots.disk)
            (D.image self.old.slots.disk) (D.faults self.old.slots.disk))
            → Rests used self.new (seen (D.told self.new.slots.disk) (D.clock self.new.slots.disk)
            (D.image self.new.slots.disk) (D.faults self.new.slots.disk)) }
    {
        let_go(&mut self.slots, &mut self.written, Which::AllOf { block });
    }

    /// Leaves the chunks that were written of a block to it, which has been put.
    pub fn forget(&mut self, block: Block)
        ensures forgot { self.new ≡ record {
          slots = self.old.slots;
          written = written_besides block self.old.written;
          failed = self.old.failed;
        } }
        ensures rests { (used later : ℕ → Bool) →
            ((slot : ℕ) → later slot ≡ (used slot || any_in (chunks_in (written_of block self.old.written)) slot)) →
            Rests used self.old (seen (D.told self.old.slots.disk) (D.clock self.old.slots.disk)
            (D.image self.old.slots.disk) (D.faults self.old.slots.disk)) →
            AreSettled later (seen (D.told self.old.slots.disk) (D.clock self.old.slots.disk)
            (D.image self.old.slots.disk) (D.faults self.old.slots.disk)) →
            Rests later self.new (seen (D.told self.new.slots.disk) (D.clock self.new.slots.disk)
            (D.image self.new.slots.disk) (D.faults self.new.slots.disk)) }
    {
        take_out(&mut self.written, Which::AllOf { block });
    }

    /// Writes a chunk, of which this is the SHA-256, to the lowest free slot. One that was written before to the same place
    /// of the block is let go.
    pub fn write(
        &mut self,
        block: Block,
        place: u8,
        bytes: &[u8],
        digest: [u8; 32],
    ) -> Result<(), Unwritten>
        requires least { 1 ≤ length bytes.now }
        requires most { length bytes.now ≤ SLOT_BYTES }
        requires digest { digest ≡ sha256 bytes.now }
        requires running { self.old.failed ≡ false }
        requires within { IfSome (D.told self.old.slots.disk) (λ disk. (slot : ℕ) →
            is_taken self.old.slots.taken slot ≡ true → IsWithin slot disk) }
        ensures written { OnOk result (IsWritten block place bytes.now self.old self.new (D.told self.new.slots.disk)) }

        // When it isn't written.
        ensures full { IfErr result (λ why. (full : Full) → why ≡ Unwritten.Full full →
            AllTakenBelow SLOTS self.old.slots.taken
            × (full ≡ record { used = CAPACITY; asked = SLOT_BYTES; capacity = CAPACITY }) × (self.new ≡ self.old)) }
        ensures crowded { AllTakenBelow SLOTS self.old.slots.taken →
            (result ≡ Err (Unwritten.Full (record { used = CAPACITY; asked = SLOT_BYTES; capacity = CAPACITY })))
            ⊎ (result ≡ Err Unwritten.OutOfMemory) }
        ensures lacking { result ≡ Err Unwritten.OutOfMemory → self.new ≡ self.old }
        ensures failed { self.new.failed ≡ says_failed result }
        ensures cause { self.new.failed ≡ true → Rose (D.faults self.old.slots.disk) (D.faults self.new.slots.disk) }
        ensures unwritten { OnErr result (self.new.written ≡ self.old.written) }
        ensures untaken { OnErr result ((slot : ℕ) →
            is_taken self.new.slots.taken slot ≡ is_taken self.old.slots.taken slot) }

        // What the disk tells, and what a stop may leave.
        ensures never_falls { D.faults self.old.slots.disk ≤ D.faults self.new.slots.disk }
        ensures kept { KeepsTold (is_taken self.old.slots.taken) (D.told self.old.slots.disk)
            (D.told self.new.slots.disk) }
        ensures telling { TellsAsBefore (D.told self.old.slots.disk) (D.told self.new.slots.disk) }
        ensures settled { (used : ℕ → Bool) →
            Rests used self.old (seen (D.told self.old.slots.disk) (D.clock self.old.slots.disk)
            (D.image self.old.slots.disk) (D.faults self.old.slots.disk)) →
            AreSettled used (seen (D.told self.new.slots.disk) (D.clock self.new.slots.disk)
            (D.image self.new.slots.disk) (D.faults self.new.slots.disk)) }
        ensures rests { OnOk result ((used : ℕ → Bool) →
            Rests used self.old (seen (D.told self.old.slots.disk) (D.clock self.old.slots.disk)
            (D.image self.old.slots.disk) (D.faults self.old.slots.disk)) →
            Rests used self.new (seen (D.told self.new.slots.disk) (D.clock self.new.slots.disk)
            (D.image self.new.slots.disk) (D.faults self.new.slots.disk))) }
    {
        let Ok(()) = self.written.reserve(1) else {
            return Err(Unwritten::OutOfMemory);
        };
        let slot = match self.slots.take() {
            Ok(slot) => slot,
            Err(full) => return Err(Unwritten::Full(full)),
        };
        let Ok(()) = self.slots.write_bytes(slot, bytes) else {
            self.slots.free(slot);
            self.failed = true;
            return Err(Unwritten::Failed);
        };
        let_go(
            &mut self.slots,
            &mut self.written,
            Which::OneOf { block, place },
        );
        let one = Written {
            block,
            place,
            size: bytes.len() as u32,
            chunk: Chunk { slot, digest },
        };
        add(&mut self.written, one);
        Ok(())
    }

    /// Reads the beginning of a slot.
    pub fn read(&mut self, slot: u32, into: &mut [u8]) -> Result<(), Failed>
        requires running { self.old.failed ≡ false }
        requires within { IfSome (D.told self.old.slots.disk) (IsWithin slot) }
        requires most { length into.old ≤ SLOT_BYTES }
        ensures bytes { OnOk result (IfSome (D.told self.old.slots.disk) (λ bytes.
            into.new ≡ slice_range bytes (start_of slot) (start_of slot + length into.old))) }
        ensures size { length into.new ≡ length into.old }
        ensures contents { D.told self.new.slots.disk ≡ D.told self.old.slots.disk }
        ensures time { Stands (D.clock self.old.slots.disk) (D.clock self.new.slots.disk)
            (D.image self.old.slots.disk) (D.image self.new.slots.disk) }
        ensures cause { HasCause (D.faults self.old.slots.disk) (D.faults self.new.slots.disk) result }
        ensures taken { self.new.slots.taken ≡ self.old.slots.taken }
        ensures written { self.new.written ≡ self.old.written }
        ensures failed { self.new.failed ≡ is_err result }
    {
        let Ok(()) = self.slots.read_chunk(slot, into) else {
            self.failed = true;
            return Err(Failed);
        };
        Ok(())
    }

    /// Makes all that was written stable.
    pub fn sync(&mut self) -> Result<(), Failed>
        requires running { self.old.failed ≡ false }
        ensures synced { Syncs (seen (D.told self.old.slots.disk) (D.clock self.old.slots.disk)
            (D.image self.old.slots.disk) (D.faults self.old.slots.disk))
            (seen (D.told self.new.slots.disk) (D.clock self.new.slots.disk)
            (D.image self.new.slots.disk) (D.faults self.new.slots.disk)) result }
        ensures taken { self.new.slots.taken ≡ self.old.slots.taken }
        ensures written { self.new.written ≡ self.old.written }
        ensures failed { self.new.failed ≡ is_err result }
        ensures rests { (used : ℕ → Bool) → Rests used self.old (seen (D.told self.old.slots.disk) (D.clock self.old.slots.disk)
            (D.image self.old.slots.disk) (D.faults self.old.slots.disk))
            → Rests used self.new (seen (D.told self.new.slots.disk) (D.clock self.new.slots.disk)
            (D.image self.new.slots.disk) (D.faults self.new.slots.disk)) }
        ensures settled { (used : ℕ → Bool) → Rests used self.old (seen (D.told self.old.slots.disk) (D.clock self.old.slots.disk)
            (D.image self.old.slots.disk) (D.faults self.old.slots.disk))
            → OnOk result (AreSettled (is_taken self.new.slots.taken) (seen (D.told self.new.slots.disk) (D.clock self.new.slots.disk)
            (D.image self.new.slots.disk) (D.faults self.new.slots.disk))) }
    {
        let Ok(()) = self.slots.sync() else {
            self.failed = true;
            return Err(Failed);
        };
        Ok(())
    }

    /// Leaves no byte, and no slot taken.
    pub fn wipe(&mut self) -> Result<(), Failed>
        requires running { self.old.failed ≡ false }
        ensures empty { Empties (seen (D.told self.old.slots.disk) (D.clock self.old.slots.disk)
            (D.image self.old.slots.disk) (D.faults self.old.slots.disk))
            (seen (D.told self.new.slots.disk) (D.clock self.new.slots.disk)
            (D.image self.new.slots.disk) (D.faults self.new.slots.disk)) result }
        ensures free { OnOk result ((slot : ℕ) → is_taken self.new.slots.taken slot ≡ false) }
        ensures written { OnOk result (self.new.written ≡ []) }
        ensures refused { OnErr result (self.new.written ≡ self.old.written) }
        ensures taken { OnErr result (self.new.slots.taken ≡ self.old.slots.taken) }
        ensures failed { self.new.failed ≡ is_err result }
    {
        let Ok(()) = self.slots.wipe() else {
            self.failed = true;
            return Err(Failed);
        };
        self.written.clear();
        Ok(())
    }
}

/// Where the chunks stand that were written of a block, in the order of their places.
fn chunks_of(alloc: Global, written: &[Written], block: Block) -> Result<Vec<Chunk>, OutOfMemory>
    ensures { IfOk result (λ chunks. chunks.items ≡ chunks_in (written_of block written.now)) }
{
    written
        .iter()
        .filter(|one| one.block == block)
        .map(|one| one.chunk)
        .collect(alloc)
}
