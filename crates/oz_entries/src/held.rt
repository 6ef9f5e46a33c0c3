//! What a datanode holds, in memory.

ghost use Rattle.std.specs.Prelude.{◌≡◌, ◌↔◌, ◌<◌, ◌^◌, ℕ, true, false, IsTrue, Contains};
ghost use Rattle.std.specs.Prelude.{None, option_copied, IfOk, OnOk, if◌then◌else◌};
ghost use Rattle.std.specs.List.Sorted.{IsStrictlyIncreasing};
ghost use Rattle.oz_chunk.specs.declared.table.TheConstants.{SLOTS as SLOT_COUNT};
ghost use Rattle.oz_entries.specs.Node.{empty_node, is_held, is_used, is_same_block, is_in, without, with_row};
ghost use Rattle.oz_entries.specs.Node.{uses_a_slot, with_state, with_number, names_some, HaveFreeSlots};
ghost use Rattle.oz_entries.specs.Held.{node_of, AreSame, IsSound, IsNamed, HasRoom, is_freed};

use crate::maps::{
    Rows, change, drop_rows, give_row, make_room, name, replica_at, row_at, take_row,
};
use crate::replica::Replica;
use crate::row::BlockRow;
use crate::users::{
    no_users, release_all, release_container, release_row, slots_of, take_slots, uses_one,
};
use oz_container::State;
use oz_fields::{Block, OutOfMemory};
use std::alloc::Global;
use std::collections::BTreeMap;
use std::marker::Model;

/// The rows of the blocks that are held, the replicas that were named, and which block uses which slot.
#[derive(Drop)]
pub struct Held {
    rows: Rows,
    replicas: BTreeMap<u64, Replica>,
    users: Vec<Option<Block>>,
}

impl Model for Held {
    ghost use Rattle.std.specs.Prelude.{◌≡◌, length};
    ghost use Rattle.oz_entries.specs.Held.{HeldView, node_of, IsSound};

    ghost Value = { HeldView };

    ghost view = { λ held.
        record { rows = held.rows.entries; replicas = held.replicas.entries; users = held.users.items } };

    ghost invariant = { λ held. (length held.users.items ≡ 16384)
        × IsSound (node_of
        (record { rows = held.rows.entries; replicas = held.replicas.entries; users = held.users.items })) };
}

impl Held {
    /// Nothing is held.
    pub fn new(alloc: Global) -> Result<Held, OutOfMemory>
        ensures { IfOk result (λ held. AreSame empty_node (node_of held)) }
    {
        let users = no_users(alloc)?;
        Ok(Held {
            rows: BTreeMap::new(alloc),
            replicas: BTreeMap::new(alloc),
            users,
        })
    }

    /// The row of a block, None where it isn't held.
    pub fn get(&self, block: &Block) -> Option<&BlockRow>
        ensures { option_copied result ≡ (node_of self.now).rows block.now }
    {
        row_at(&self.rows, block)
    }

    pub fn state(&self, container: u64) -> State
        ensures { result ≡ (node_of self.now).states container }
    {
        match replica_at(&self.replicas, container) {
            Some(replica) => replica.state,
            None => State::Open,
        }
    }

    /// The greatest number of a transaction that was applied to a replica, 0 for none.
    pub fn greatest(&self, container: u64) -> u64
        ensures { result ≡ (node_of self.now).greatest container }
    {
        match replica_at(&self.replicas, container) {
            Some(replica) => replica.greatest,
            None => 0,
        }
    }

    /// Whether a block uses the slot.
    pub fn is_used(&self, slot: u32) -> bool
        ensures { result ≡ is_used (node_of self.now) slot }
    {
        match self.users.get(slot as usize) {
            Some(user) => user.is_some(),
            None => false,
        }
    }

    /// Whether a block of the container uses a slot.
    pub(crate) fn uses_a_slot(&self, container: u64) -> bool
        ensures { result ≡ uses_a_slot (node_of self.now) container }
    {
        uses_one(&self.users, container)
    }

    /// The rows in the order of their blocks, None where there is only room for one.
    pub fn rows(&self) -> &BTreeMap<Block, Option<BlockRow>>
        ensures { result.now.entries ≡ self.now.rows }
    {
        &self.rows
    }

    /// The replicas that were named, in the order of their containers.
    pub fn replicas(&self) -> &BTreeMap<u64, Replica>
        ensures { result.now.entries ≡ self.now.replicas }
    {
        &self.replicas
    }

    /// A block uses the slots of its row, which are among those that there are, and no other slots are used.
    pub fn uses_slots_of_rows(&self)
        ensures sound { IsSound (node_of self.now) }
        ensures within { (slot : ℕ) → is_used (node_of self.now) slot ≡ true → slot < SLOT_COUNT }
    {
        let _ = &self.users;
    }

    /// Makes the room that a block's row takes. It stands for the same.
    pub fn make_room(&mut self, _alloc: Global, block: Block) -> Result<(), OutOfMemory>
        ensures room { OnOk result (HasRoom self.new block) }
        ensures same { AreSame (node_of self.old) (node_of self.new) }
    {
        make_room(&mut self.rows, block)
    }

    /// Gives a row to a block that isn't held.
    pub fn put(&mut self, block: Block, row: BlockRow)
        requires room { HasRoom self.old block }
        requires absent { is_held (node_of self.old) block ≡ false }
        requires free { HaveFreeSlots (is_used (node_of self.old)) row.chunks }
        ensures { AreSame (with_row block row (node_of self.old)) (node_of self.new) }
    {
        take_slots(&mut self.users, block, row.chunks.items());
        give_row(&mut self.rows, block, row);
    }

    /// Takes a block's row away, if it has one.
    pub fn forget(&mut self, block: &Block)
        ensures same { AreSame (without (is_same_block block.now) (node_of self.old)) (node_of self.new) }
        ensures named { (other : ℕ) → IsNamed self.old other → IsNamed self.new other }
    {
        let row = take_row(&mut self.rows, block);
        release_row(&mut self.users, row);
    }

    /// Takes the rows of blocks of one container away, by their own numbers.
    pub fn forget_locals(&mut self, container: u64, locals: &[u64])
        ensures same { AreSame (without (names_some container locals.now) (node_of self.old)) (node_of self.new) }
        ensures named { (other : ℕ) → IsNamed self.old other → IsNamed self.new other }
    {
        for local in locals {
            self.forget(&Block {
                container,
                local: *local,
            });
        }
    }

    /// Takes the rows of a container's blocks away.
    pub fn forget_container(&mut self, container: u64)
        ensures same { AreSame (without (is_in container) (node_of self.old)) (node_of self.new) }
        ensures named { (other : ℕ) → IsNamed self.old other → IsNamed self.new other }
    {
        drop_rows(&mut self.rows, container);
        release_container(&mut self.users, container);
    }

    /// Takes everything away.
    pub fn clear(&mut self)
        ensures { AreSame empty_node (node_of self.new) }
    {
        self.rows.clear();
        self.replicas.clear();
        release_all(&mut self.users);
    }

    /// The slots of blocks of one container, by their own numbers.
    pub fn slots_of(
        &self,
        alloc: Global,
        container: u64,
        locals: &[u64],
    ) -> Result<Vec<u32>, OutOfMemory>
        ensures each { IfOk result (λ slots. (slot : ℕ) → Contains slots.items slot
            ↔ IsTrue (is_freed (names_some container locals.now) ((node_of self.now).users slot))) }
        ensures rising { IfOk result (λ slots. IsStrictlyIncreasing slots.items) }
    {
        slots_of(alloc, &self.users, container, locals)
    }

    /// Makes the room that a change of a replica takes. It stands for the same.
    pub fn name(&mut self, _alloc: Global, container: u64) -> Result<(), OutOfMemory>
        ensures named { OnOk result (IsNamed self.new container) }
        ensures same { AreSame (node_of self.old) (node_of self.new) }
    {
        name(&mut self.replicas, container)
    }

    /// Gives a state to a replica that was named.
    pub fn set_state(&mut self, container: u64, state: State)
        requires { IsNamed self.old container }
        ensures state { AreSame (with_state container state (node_of self.old)) (node_of self.new) }
        ensures named { IsNamed self.new container }
    {
        let greatest = self.greatest(container);
        change(&mut self.replicas, container, Replica { state, greatest });
    }

    /// Notes a transaction that was applied to a replica that was named.
    pub fn set_number(&mut self, container: u64, number: u64)
        requires { IsNamed self.old container }
        ensures number { AreSame (with_number container number (node_of self.old)) (node_of self.new) }
        ensures named { IsNamed self.new container }
    {
        let state = self.state(container);
        let greatest = self.greatest(container).max(number);
        change(&mut self.replicas, container, Replica { state, greatest });
    }
}
