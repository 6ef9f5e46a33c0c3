//! Which slots are taken.

ghost use Rattle.std.specs.Prelude.{◌≡◌, ◌<◌, ◌≤◌, ℕ, true, false, length, vec_len, IfOk, IfSome, IfNone};
ghost use Rattle.oz_chunk.specs.Taken.{is_taken, AllTakenBelow, Marks, Holds};

use oz_world::OutOfMemory;
use std::alloc::Global;
use std::marker::Model;

/// How many slots a disk has.
pub const SLOTS: u32 = 16_384;

/// How many bytes a slot has.
pub const SLOT_SIZE: u64 = 16_384;

/// How many bytes all slots have.
pub const CAPACITY: u64 = 268_435_456;

/// For each slot, whether it is taken.
#[derive(Drop)]
pub(crate) struct SlotTable {
    taken: Vec<bool>,
    /// All slots below this one are taken.
    first: usize,
}

impl Model for SlotTable {
    ghost use Rattle.std.specs.Prelude.{◌≡◌, ◌≤◌, List, Bool, vec_len};
    ghost use Rattle.oz_chunk.specs.Taken.{AllTakenBelow};

    ghost Value = { List Bool };

    ghost view = { λ table. table.taken.items };

    ghost invariant = { λ table. (vec_len table.taken ≡ 16384) × (table.first ≤ 16384)
        × AllTakenBelow table.first table.taken.items };
}

impl SlotTable {
    /// No slot is taken.
    pub(crate) fn new(alloc: Global) -> Result<SlotTable, OutOfMemory>
        ensures { IfOk result (λ table. (slot : ℕ) → is_taken table slot ≡ false) }
    {
        let taken = free_slots(alloc, SLOTS as usize)?;
        Ok(SlotTable { taken, first: 0 })
    }

    /// Takes the lowest slot that is free, if there is one.
    pub(crate) fn take(&mut self) -> Option<u32>
        ensures free { IfSome result (λ slot. (slot < SLOTS) × (is_taken self.old slot ≡ false)) }
        ensures lowest { IfSome result (λ slot. AllTakenBelow slot self.old) }
        ensures taken { IfSome result (λ slot. Marks slot true self.old self.new) }
        ensures full { IfNone result (AllTakenBelow SLOTS self.old) }
        ensures unchanged { IfNone result (self.new ≡ self.old) }
    {
        let slot = lowest_free(&self.taken, self.first)?;
        self.taken[slot] = true;
        self.first = slot + 1;
        Some(slot as u32)
    }

    /// Takes a slot, if there is such a one.
    pub(crate) fn hold(&mut self, slot: u32)
        ensures { Holds slot self.old self.new }
    {
        let slot = slot as usize;
        if slot < self.taken.len() {
            self.taken[slot] = true;
        }
    }

    /// Sets a slot free, if there is such a one.
    pub(crate) fn free(&mut self, slot: u32)
        ensures { Marks slot false self.old self.new }
    {
        let slot = slot as usize;
        if slot < self.taken.len() {
            self.taken[slot] = false;
            self.first = self.first.min(slot);
        }
    }

    /// Sets all slots free.
    pub(crate) fn free_all(&mut self)
        ensures { (slot : ℕ) → is_taken self.new slot ≡ false }
    {
        self.taken.fill(false);
        self.first = 0;
    }

    /// Whether a slot is taken.
    pub(crate) fn is_taken(&self, slot: u32) -> bool
        ensures { result ≡ is_taken self.now slot }
    {
        self.taken.get(slot as usize).copied().unwrap_or(false)
    }
}

/// So many slots, all of them free.
fn free_slots(alloc: Global, count: usize) -> Result<Vec<bool>, OutOfMemory>
    ensures count { IfOk result (λ slots. vec_len slots ≡ count) }
    ensures free { IfOk result (λ slots. (slot : ℕ) → is_taken slots.items slot ≡ false) }
{
    vec![in alloc; false; count]
}

/// The lowest slot that is free, where all below the first are taken.
fn lowest_free(taken: &[bool], first: usize) -> Option<usize>
    requires within { first ≤ length taken.now }
    requires below { AllTakenBelow first taken.now }
    ensures free { IfSome result (λ slot. (slot < length taken.now) × (is_taken taken.now slot ≡ false)) }
    ensures lowest { IfSome result (λ slot. AllTakenBelow slot taken.now) }
    ensures full { IfNone result (AllTakenBelow (length taken.now) taken.now) }
{
    for slot in first..taken.len() {
        if !taken[slot] {
            return Some(slot);
        }
    }
    None
}
