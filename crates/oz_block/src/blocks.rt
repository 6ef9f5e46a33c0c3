//! Blocks in a journal.

ghost use Rattle.std.specs.Prelude.{◌≡◌, ◌↔◌, ◌≤◌, [], ◌∷◌, ℕ, List, length, false, Some, option_copied};
ghost use Rattle.std.specs.Prelude.{IfOk, IfErr, IfSome, OnOk, IsSomeAnd, IsTrue, Contains};
ghost use Rattle.std.specs.List.Sorted.{IsStrictlyIncreasing};
ghost use Rattle.oz_block.specs.Changes.{Changes, Wipes};
ghost use Rattle.oz_entries.specs.declared.entry.Entry.TheVariants as entries;
ghost use Rattle.oz_entries.specs.Held.{is_freed};
ghost use Rattle.oz_entries.specs.Node.{MayFollow, names, is_used};
ghost use Rattle.oz_journal.specs.Load.{IsLoadable, IsLeftAlone, loaded_at};
ghost use Rattle.oz_world.specs.Disk.{seen, TellsAsBefore, IsStable};
ghost use Rattle.oz_world.specs.Faults.{Rose};
ghost use Rattle.oz_world.specs.Moments.{Elapses, Spans};

use crate::adding::{add, check};
use crate::fault::BlockFault;
use crate::loading::held_of;
use crate::planning::{plan_delete, plan_drop, plan_put, plan_state};
use oz_container::State;
use oz_dellog::Txn;
use oz_entries::{BlockRow, Held};
use oz_fields::Block;
use oz_journal::{Journal, LoadFault};
use oz_world::Disk;
use std::alloc::Global;
use std::marker::Model;

/// The blocks of a datanode, and the states and transactions of its replicas. Each change is one body of the journal,
/// and is made here once that body is stable.
#[derive(Drop)]
pub struct Blocks<D: Disk> {
    journal: Journal<D>,
    pub(crate) held: Held,
}

impl<D: Disk> Model for Blocks<D> {
    ghost use Rattle.std.specs.Prelude.{◌≡◌, false};
    ghost use Rattle.oz_block.specs.Blocks.{State, Keeps};
    ghost use Rattle.oz_entries.specs.Held.{node_of};

    ghost Value = { State D };

    ghost view = { λ blocks.
        record { disk = blocks.journal.disk; stopped = blocks.journal.stopped; held = blocks.held } };

    ghost invariant = { λ blocks. blocks.journal.stopped ≡ false →
        Keeps (D.told blocks.journal.disk) (node_of blocks.held) };
}

impl<D: Disk> Blocks<D> {
    ghost use Rattle.oz_block.specs.Blocks.{node_in, StandsFor, IsDamagedDisk, disk_after};

    /// Loads what a disk has, or begins where it has at most one byte. It writes to no other disk, and makes what it
    /// reads stable before it reads it. The disk comes back where it can't.
    pub fn load(alloc: Global, disk: D) -> Result<Blocks<D>, (D, LoadFault)>
        ensures stands { IfOk result (λ blocks. IfSome (D.told disk) (λ bytes. StandsFor bytes (node_in blocks))) }
        ensures running { IfOk result (λ blocks. blocks.stopped ≡ false) }

        // When each fault comes.
        ensures damaged { IfErr result (λ refused. (offset : ℕ) → refused.1 ≡ LoadFault.Damaged offset →
            IfSome (D.told disk) (λ bytes. IsDamagedDisk bytes offset)) }
        ensures disk { IfErr result (λ refused.
            refused.1 ≡ LoadFault.Disk → Rose (D.faults disk) (D.faults refused.0)) }
        ensures never_falls { D.faults disk ≤ D.faults (disk_after result) }

        // What the disk tells afterwards.
        ensures telling { TellsAsBefore (D.told disk) (D.told (disk_after result)) }
        ensures contents { IfSome (D.told disk) (λ bytes.
            2 ≤ length bytes → D.told (disk_after result) ≡ Some bytes) }
        ensures closed { IfSome (D.told disk) (λ bytes.
            length bytes ≤ 1 → OnOk result (D.told (disk_after result) ≡ Some (0 ∷ []))) }

        // What a stop may leave.
        ensures ended { IfOk result (λ blocks. IfSome (D.told disk) (λ bytes.
            D.clock blocks.disk ≡ loaded_at (D.clock disk) bytes)) }
        ensures stable { IfOk result (λ blocks. (bytes : List ℕ) → D.told blocks.disk ≡ Some bytes →
            IsStable (D.image blocks.disk) (D.clock blocks.disk) bytes) }
        ensures time { Elapses (D.clock disk) (D.clock (disk_after result)) (D.image disk)
            (D.image (disk_after result)) }
        ensures moments { IfSome (D.told disk) (λ bytes.
            IsLoadable bytes (D.image disk (D.clock disk)) →
            Spans IsLeftAlone (D.clock disk) (D.clock (disk_after result)) (D.image disk)
            (D.image (disk_after result))) }
        ensures loadable { IfSome (D.told disk) (λ bytes.
            IsLoadable bytes (D.image disk (D.clock disk)) →
            IsSomeAnd (D.told (disk_after result)) (λ after.
            IsLoadable after (D.image (disk_after result) (D.clock (disk_after result))))) }
    {
        let (journal, bodies) = match Journal::load(alloc, disk) {
            Ok(loaded) => loaded,
            Err((disk, fault)) => return Err((disk, fault)),
        };
        match held_of(alloc, &bodies) {
            Ok(held) => Ok(Blocks { journal, held }),
            Err(fault) => Err((journal.into_disk(), fault)),
        }
    }

    /// The row of a block, None where it isn't held.
    pub fn get(&self, block: Block) -> Option<&BlockRow>
        ensures { option_copied result ≡ (node_in self.now).rows block }
    {
        self.held.get(&block)
    }

    /// The state of a replica.
    pub fn state(&self, container: u64) -> State
        ensures { result ≡ (node_in self.now).states container }
    {
        self.held.state(container)
    }

    /// The greatest number of a transaction that was applied to a replica, 0 for none.
    pub fn greatest(&self, container: u64) -> u64
        ensures { result ≡ (node_in self.now).greatest container }
    {
        self.held.greatest(container)
    }

    /// Whether a block that is held uses a slot.
    pub fn is_used(&self, slot: u32) -> bool
        ensures { result ≡ is_used (node_in self.now) slot }
    {
        self.held.is_used(slot)
    }

    /// Holds a block. Whoever calls this has made its bytes stable in its slots.
    pub fn put(&mut self, alloc: Global, block: Block, row: BlockRow) -> Result<(), BlockFault>
        requires { MayFollow (node_in self.old) (entries.Put block row) }
        ensures { Changes (entries.Put block row) self.old self.new
            (seen (D.told self.old.disk) (D.clock self.old.disk) (D.image self.old.disk) (D.faults self.old.disk))
            (seen (D.told self.new.disk) (D.clock self.new.disk) (D.image self.new.disk) (D.faults self.new.disk))
            result }
    {
        check(&self.journal)?;
        let frame = plan_put(alloc, &mut self.held, block, &row)?;
        add(&mut self.journal, frame)?;
        self.held.put(block, row);
        Ok(())
    }

    /// Brings a replica to a state.
    pub fn set_state(
        &mut self,
        alloc: Global,
        container: u64,
        state: State,
    ) -> Result<(), BlockFault>
        ensures { Changes (entries.SetState container state) self.old self.new
            (seen (D.told self.old.disk) (D.clock self.old.disk) (D.image self.old.disk) (D.faults self.old.disk))
            (seen (D.told self.new.disk) (D.clock self.new.disk) (D.image self.new.disk) (D.faults self.new.disk))
            result }
    {
        check(&self.journal)?;
        let frame = plan_state(alloc, &mut self.held, container, state)?;
        add(&mut self.journal, frame)?;
        self.held.set_state(container, state);
        Ok(())
    }

    /// Applies a transaction, and answers the slots that this sets free.
    pub fn delete(&mut self, alloc: Global, txn: &Txn) -> Result<Vec<u32>, BlockFault>
        requires { MayFollow (node_in self.old) (entries.Apply txn.now) }
        ensures changes { Changes (entries.Apply txn.now) self.old self.new
            (seen (D.told self.old.disk) (D.clock self.old.disk) (D.image self.old.disk) (D.faults self.old.disk))
            (seen (D.told self.new.disk) (D.clock self.new.disk) (D.image self.new.disk) (D.faults self.new.disk))
            result }
        ensures freed { IfOk result (λ slots. (slot : ℕ) → Contains slots.items slot
            ↔ IsTrue (is_freed (names txn.now) ((node_in self.old).users slot))) }
        ensures rising { IfOk result (λ slots. IsStrictlyIncreasing slots.items) }
    {
        check(&self.journal)?;
        let (frame, slots) = plan_delete(alloc, &mut self.held, txn)?;
        add(&mut self.journal, frame)?;
        self.held.forget_locals(txn.container, txn.locals.items());
        self.held.set_number(txn.container, txn.number);
        Ok(slots)
    }

    /// Drops a replica, which holds no block: it is deleted.
    pub fn drop_container(&mut self, alloc: Global, container: u64) -> Result<(), BlockFault>
        requires { MayFollow (node_in self.old) (entries.Drop container) }
        ensures { Changes (entries.Drop container) self.old self.new
            (seen (D.told self.old.disk) (D.clock self.old.disk) (D.image self.old.disk) (D.faults self.old.disk))
            (seen (D.told self.new.disk) (D.clock self.new.disk) (D.image self.new.disk) (D.faults self.new.disk))
            result }
    {
        check(&self.journal)?;
        let frame = plan_drop(alloc, &mut self.held, container)?;
        add(&mut self.journal, frame)?;
        self.held.forget_container(container);
        self.held.set_state(container, State::Deleted);
        Ok(())
    }

    /// Takes all away, without taking memory. The error is how often the disk has failed.
    pub fn wipe(&mut self) -> Result<(), u64>
        ensures { Wipes self.old self.new
            (seen (D.told self.old.disk) (D.clock self.old.disk) (D.image self.old.disk) (D.faults self.old.disk))
            (seen (D.told self.new.disk) (D.clock self.new.disk) (D.image self.new.disk) (D.faults self.new.disk))
            result }
    {
        if self.journal.stopped() {
            return Err(self.journal.faults());
        }
        let Ok(()) = self.journal.clear() else {
            return Err(self.journal.faults());
        };
        self.held.clear();
        Ok(())
    }

    /// Whether a call on the disk has failed. While none has, what the disk tells stands for what is held, and is
    /// stable.
    pub fn stopped(&self) -> bool
        ensures stopped { result ≡ self.now.stopped }
        ensures at_rest { self.now.stopped ≡ false → (bytes : List ℕ) → D.told self.now.disk ≡ Some bytes →
            StandsFor bytes (node_in self.now) × IsStable (D.image self.now.disk) (D.clock self.now.disk) bytes }
    {
        self.journal.stopped()
    }

    /// How often the disk has failed, at most `u64::MAX`.
    pub fn faults(&self) -> u64
        ensures { result ≡ D.faults self.now.disk }
    {
        self.journal.faults()
    }

    pub fn into_disk(self) -> D
        ensures { result ≡ self.disk }
    {
        self.journal.into_disk()
    }
}
