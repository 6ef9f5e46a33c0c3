//! What loading slots needs: room, and a look at the slots that are held.

ghost use Rattle.std.specs.Prelude.{◌≡◌, ◌↔◌, ◌<◌, ◌≤◌, ◌⊎◌, ℕ, true, false, vec_len};
ghost use Rattle.std.specs.Prelude.{length, IsTrue, All, Contains, IfOk, IfSome, IfNone, Some};
ghost use Rattle.std.specs.Bool.{OnTrue, OnFalse};
ghost use Rattle.oz_chunk.specs.Slots.{end_of};
ghost use Rattle.oz_chunk.specs.Taken.{is_taken};
ghost use Rattle.oz_chunk.specs.declared.table.TheConstants.{SLOTS};

use crate::table::{SLOT_SIZE, SlotTable};
use oz_world::OutOfMemory;
use std::alloc::Global;

/// A table of free slots, and a buffer as long as a slot.
pub(crate) fn room(alloc: Global) -> Result<(SlotTable, Vec<u8>), OutOfMemory>
    ensures free { IfOk result (λ room. (slot : ℕ) → is_taken room.0 slot ≡ false) }
    ensures buffer { IfOk result (λ room. vec_len room.1 ≡ SLOT_SIZE) }
{
    let table = SlotTable::new(alloc)?;
    let buffer = zeros(alloc, SLOT_SIZE as usize)?;
    Ok((table, buffer))
}

fn zeros(alloc: Global, count: usize) -> Result<Vec<u8>, OutOfMemory>
    ensures { IfOk result (λ zeros. vec_len zeros ≡ count) }
{
    vec![in alloc; 0; count]
}

/// The lowest of the slots that pass the end of a disk of this length.
pub(crate) fn lowest_past(held: &[u32], size: u64) -> Option<u32>
    ensures within { IfNone result (All (λ slot. end_of slot ≤ size) held.now) }
    ensures held { IfSome result (Contains held.now) }
    ensures past { IfSome result (λ slot. size < end_of slot) }
    ensures lowest { IfSome result (λ slot. All (λ other. size < end_of other → slot ≤ other) held.now) }
{
    let mut lowest = None;
    for slot in held {
        if passes(*slot, size) {
            lowest = Some(lower(*slot, lowest));
        }
    }
    lowest
}

/// Whether a slot passes the end of a disk of this length.
fn passes(slot: u32, size: u64) -> bool
    ensures yes { OnTrue result (size < end_of slot) }
    ensures no { OnFalse result (end_of slot ≤ size) }
{
    size < slot as u64 * SLOT_SIZE + SLOT_SIZE
}

/// The lower of two slots, where there is a second one.
fn lower(slot: u32, other: Option<u32>) -> u32
    ensures one { (result ≡ slot) ⊎ (Some result ≡ other) }
    ensures first { result ≤ slot }
    ensures second { IfSome other (λ second. result ≤ second) }
{
    match other {
        Some(other) if other < slot => other,
        _ => slot,
    }
}

/// Takes all of these slots that there are.
pub(crate) fn hold_all(table: &mut SlotTable, held: &[u32])
    requires { (slot : ℕ) → is_taken table.old slot ≡ false }
    ensures { (slot : ℕ) →
        IsTrue (is_taken table.new slot) ↔ ((slot < SLOTS) × Contains held.now slot) }
{
    for slot in held {
        table.hold(*slot);
    }
}
