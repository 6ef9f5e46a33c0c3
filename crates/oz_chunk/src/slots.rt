//! Slots on a disk.

ghost use Rattle.std.specs.Prelude.{◌≡◌, ◌↔◌, ◌<◌, ◌≤◌, ◌+◌, ℕ, Bool, true, false, length, slice_range, IsTrue, All};
ghost use Rattle.std.specs.Prelude.{Contains};
ghost use Rattle.std.specs.Prelude.{IfOk, IfErr, OnOk, OnErr, IfSome, IfNone};
ghost use Rattle.oz_chunk.specs.Disk.{Writes, Syncs, Empties};
ghost use Rattle.oz_chunk.specs.Slots.{start_of, end_of, IsWithin, IsLowestPast, padded, Keeps};
ghost use Rattle.oz_chunk.specs.Taken.{is_taken, AllTakenBelow, Marks};
ghost use Rattle.oz_world.specs.Disk.{seen, Same, Stands, IsStable};
ghost use Rattle.oz_world.specs.Faults.{Rose, HasCause};
ghost use Rattle.oz_world.specs.Moments.{Spans};
ghost use Rattle.sha2.specs.Sha256.{sha256};

use crate::disk::{empty, put, settle, stable_size};
use crate::fault::{SlotFault, SlotFull};
use crate::filling::fill;
use crate::loading::{hold_all, lowest_past, room};
use crate::table::{CAPACITY, SLOT_SIZE, SLOTS, SlotTable};
use oz_world::{Disk, Failed};
use sha2::{Digest, Sha256};
use std::alloc::Global;
use std::marker::Model;

/// The slots of a disk. Slot 0 stands at its beginning, and each other one behind the one below it.
#[derive(Drop)]
pub struct Slots<D: Disk> {
    disk: D,
    table: SlotTable,
    /// As long as a slot; what is written to one is put together here.
    buffer: Vec<u8>,
}

impl<D: Disk> Model for Slots<D> {
    ghost use Rattle.std.specs.Prelude.{◌≡◌, vec_len};
    ghost use Rattle.oz_chunk.specs.Slots.{State};

    ghost Value = { State D };

    ghost view = { λ slots. record { disk = slots.disk; taken = slots.table } };

    ghost invariant = { λ slots. vec_len slots.buffer ≡ 16384 };
}

impl<D: Disk> Slots<D> {
    ghost use Rattle.oz_chunk.specs.Slots.{disk_after};

    /// The slots of a disk of which these are held, in any order and however often. It makes stable what the disk
    /// has, asks its length, and writes nothing. The disk comes back where it can't.
    pub fn load(alloc: Global, disk: D, held: &[u32]) -> Result<Slots<D>, (D, SlotFault)>
        ensures taken { IfOk result (λ slots. (slot : ℕ) →
            IsTrue (is_taken slots.taken slot) ↔ ((slot < SLOTS) × Contains held.now slot)) }
        ensures within { IfOk result (λ slots. IfSome (D.told disk) (λ bytes.
            All (λ slot. IsWithin slot bytes) held.now)) }

        // When each fault comes.
        ensures past { IfErr result (λ refused. (offset : ℕ) → refused.1 ≡ SlotFault.Past offset →
            IfSome (D.told disk) (λ bytes. IsLowestPast held.now (length bytes) offset)) }
        ensures disk { IfErr result (λ refused.
            refused.1 ≡ SlotFault.Disk → Rose (D.faults disk) (D.faults refused.0)) }
        ensures never_falls { D.faults disk ≤ D.faults (disk_after result) }

        // What the disk tells, and what a stop may leave.
        ensures contents { D.told (disk_after result) ≡ D.told disk }
        ensures stable { IfOk result (λ slots. IfSome (D.told disk)
            (IsStable (D.image slots.disk) (D.clock slots.disk))) }
        ensures ended { IfOk result (λ slots. D.clock slots.disk ≡ D.clock disk + 1) }
        ensures time { Spans Same (D.clock disk) (D.clock (disk_after result)) (D.image disk)
            (D.image (disk_after result)) }
    {
        let Ok((mut table, buffer)) = room(alloc) else {
            return Err((disk, SlotFault::OutOfMemory));
        };
        let mut disk = disk;
        let Ok(size) = stable_size(&mut disk) else {
            return Err((disk, SlotFault::Disk));
        };
        if let Some(slot) = lowest_past(held, size) {
            return Err((
                disk,
                SlotFault::Past {
                    offset: slot as u64 * SLOT_SIZE,
                },
            ));
        }
        hold_all(&mut table, held);
        Ok(Slots {
            disk,
            table,
            buffer,
        })
    }

    /// Takes the lowest free slot.
    pub fn take(&mut self) -> Result<u32, SlotFull>
        ensures free { IfOk result (λ slot. (slot < SLOTS) × (is_taken self.old.taken slot ≡ false)) }
        ensures lowest { IfOk result (λ slot. AllTakenBelow slot self.old.taken) }
        ensures taken { IfOk result (λ slot. Marks slot true self.old.taken self.new.taken) }
        ensures full { OnErr result (AllTakenBelow SLOTS self.old.taken) }
        ensures sizes { IfErr result (λ full.
            full ≡ record { used = CAPACITY; asked = SLOT_SIZE; capacity = CAPACITY }) }
        ensures unchanged { OnErr result (self.new ≡ self.old) }
        ensures disk { self.new.disk ≡ self.old.disk }
    {
        self.table.take().ok_or(SlotFull {
            used: CAPACITY,
            asked: SLOT_SIZE,
            capacity: CAPACITY,
        })
    }

    /// Writes a chunk to a slot that is taken, with zeros behind it up to the slot's end. It isn't stable before `sync`.
    pub fn write_bytes(&mut self, slot: u32, bytes: &[u8]) -> Result<(), Failed>
        requires taken { is_taken self.old.taken slot ≡ true }
        requires there { IfSome (D.told self.old.disk) (λ before. start_of slot ≤ length before) }
        requires least { 1 ≤ length bytes.now }
        requires most { length bytes.now ≤ SLOT_SIZE }
        ensures writes { Writes slot (padded bytes.now)
            (seen (D.told self.old.disk) (D.clock self.old.disk) (D.image self.old.disk) (D.faults self.old.disk))
            (seen (D.told self.new.disk) (D.clock self.new.disk) (D.image self.new.disk) (D.faults self.new.disk))
            result }
        ensures others { (kept : ℕ → Bool) → kept slot ≡ false →
            Spans (Keeps kept) (D.clock self.old.disk) (D.clock self.new.disk) (D.image self.old.disk)
            (D.image self.new.disk) }
        ensures taken { self.new.taken ≡ self.old.taken }
    {
        fill(&mut self.buffer, bytes);
        let Ok(()) = put(&mut self.disk, slot, &self.buffer) else {
            return Err(Failed);
        };
        Ok(())
    }

    /// Writes a chunk to a slot that is taken, as `write_bytes` does, and answers its SHA-256, that of the zeros left
    /// out.
    pub fn write_chunk(&mut self, slot: u32, bytes: &[u8]) -> Result<[u8; 32], Failed>
        requires taken { is_taken self.old.taken slot ≡ true }
        requires there { IfSome (D.told self.old.disk) (λ before. start_of slot ≤ length before) }
        requires least { 1 ≤ length bytes.now }
        requires most { length bytes.now ≤ SLOT_SIZE }
        ensures writes { Writes slot (padded bytes.now)
            (seen (D.told self.old.disk) (D.clock self.old.disk) (D.image self.old.disk) (D.faults self.old.disk))
            (seen (D.told self.new.disk) (D.clock self.new.disk) (D.image self.new.disk) (D.faults self.new.disk))
            result }
        ensures others { (kept : ℕ → Bool) → kept slot ≡ false →
            Spans (Keeps kept) (D.clock self.old.disk) (D.clock self.new.disk) (D.image self.old.disk)
            (D.image self.new.disk) }
        ensures digest { IfOk result (λ digest. digest ≡ sha256 bytes.now) }
        ensures taken { self.new.taken ≡ self.old.taken }
    {
        let Ok(()) = self.write_bytes(slot, bytes) else {
            return Err(Failed);
        };
        Ok(Sha256::digest(bytes))
    }

    /// Reads the beginning of a slot.
    pub fn read_chunk(&mut self, slot: u32, into: &mut [u8]) -> Result<(), Failed>
        requires within { IfSome (D.told self.old.disk) (IsWithin slot) }
        requires most { length into.old ≤ SLOT_SIZE }
        ensures bytes { OnOk result (IfSome (D.told self.old.disk) (λ bytes.
            into.new ≡ slice_range bytes (start_of slot) (start_of slot + length into.old))) }
        ensures contents { D.told self.new.disk ≡ D.told self.old.disk }
        ensures time { Stands (D.clock self.old.disk) (D.clock self.new.disk) (D.image self.old.disk)
            (D.image self.new.disk) }
        ensures cause { HasCause (D.faults self.old.disk) (D.faults self.new.disk) result }
        ensures taken { self.new.taken ≡ self.old.taken }
    {
        self.disk.read_at(slot as u64 * SLOT_SIZE, into)
    }

    /// Makes all that was written stable.
    pub fn sync(&mut self) -> Result<(), Failed>
        ensures synced { Syncs
            (seen (D.told self.old.disk) (D.clock self.old.disk) (D.image self.old.disk) (D.faults self.old.disk))
            (seen (D.told self.new.disk) (D.clock self.new.disk) (D.image self.new.disk) (D.faults self.new.disk))
            result }
        ensures taken { self.new.taken ≡ self.old.taken }
    {
        settle(&mut self.disk)
    }

    /// Sets a slot free, if there is such a one. Its bytes stay.
    pub fn free(&mut self, slot: u32)
        ensures free { Marks slot false self.old.taken self.new.taken }
        ensures disk { self.new.disk ≡ self.old.disk }
    {
        self.table.free(slot);
    }

    /// Cuts all bytes off, makes that stable and sets all slots free. Nothing is promised of what a stop in the middle
    /// of it leaves. After `Failed` the slots are taken that were.
    pub fn wipe(&mut self) -> Result<(), Failed>
        ensures empty { Empties
            (seen (D.told self.old.disk) (D.clock self.old.disk) (D.image self.old.disk) (D.faults self.old.disk))
            (seen (D.told self.new.disk) (D.clock self.new.disk) (D.image self.new.disk) (D.faults self.new.disk))
            result }
        ensures free { OnOk result ((slot : ℕ) → is_taken self.new.taken slot ≡ false) }
        ensures taken { OnErr result (self.new.taken ≡ self.old.taken) }
    {
        empty(&mut self.disk)?;
        self.table.free_all();
        Ok(())
    }

    /// Whether a slot is taken.
    pub fn is_taken(&self, slot: u32) -> bool
        ensures { result ≡ is_taken self.now.taken slot }
    {
        self.table.is_taken(slot)
    }

    /// How often the disk has failed, at most `u64::MAX`.
    pub fn faults(&self) -> u64
        ensures { result ≡ D.faults self.now.disk }
    {
        self.disk.faults()
    }

    pub fn into_disk(self) -> D
        ensures { result ≡ self.disk }
    {
        self.disk
    }
}
