//! What loading a datanode needs: the slots in use, and the names of faults.

ghost use Rattle.std.specs.Prelude.{◌≡◌, ◌↔◌, ◌<◌, ◌++◌, ◌∷◌, [], ℕ, IfOk, OnOk, IsTrue, Contains, if◌then◌else◌};
ghost use Rattle.oz_block.specs.Blocks.{node_in};
ghost use Rattle.oz_chunk.specs.declared.table.TheConstants.{SLOTS as SLOT_COUNT};
ghost use Rattle.oz_entries.specs.Node.{is_used};
ghost use Rattle.oz_datanode.specs.Steps.{journal_fault_of, slot_fault_of};

use crate::fault::NodeFault;
use oz_block::Blocks;
use oz_chunk::{SLOTS, SlotFault};
use oz_fields::OutOfMemory;
use oz_journal::LoadFault;
use oz_world::Disk;
use std::alloc::Global;

/// The slots that blocks use.
pub(crate) fn used_slots<D: Disk>(
    alloc: Global,
    blocks: &Blocks<D>,
) -> Result<Vec<u32>, OutOfMemory>
    ensures listed { IfOk result (λ slots. (slot : ℕ) → slot < SLOT_COUNT →
        IsTrue (is_used (node_in blocks.now) slot) ↔ Contains slots.items slot) }
    ensures only { IfOk result (λ slots. (slot : ℕ) → Contains slots.items slot →
        IsTrue (is_used (node_in blocks.now) slot)) }
{
    let mut slots = Vec::new(alloc);
    for slot in 0..SLOTS {
        push_if(&mut slots, slot, blocks.is_used(slot))?;
    }
    Ok(slots)
}

fn push_if(slots: &mut Vec<u32>, slot: u32, is_one: bool) -> Result<(), OutOfMemory>
    ensures { OnOk result (slots.new.items ≡ slots.old.items ++ (if is_one then slot ∷ [] else [])) }
{
    if is_one {
        slots.push(slot)?;
    }
    Ok(())
}

/// A fault of the journal.
pub(crate) fn journal_fault(fault: LoadFault) -> NodeFault
    ensures { result ≡ journal_fault_of fault }
{
    match fault {
        LoadFault::Disk => NodeFault::Disk { slots: false },
        LoadFault::Damaged { offset } => NodeFault::Damaged {
            slots: false,
            offset,
        },
        LoadFault::OutOfMemory => NodeFault::OutOfMemory,
    }
}

/// A fault of the slots.
pub(crate) fn slot_fault(fault: SlotFault) -> NodeFault
    ensures { result ≡ slot_fault_of fault }
{
    match fault {
        SlotFault::Disk => NodeFault::Disk { slots: true },
        SlotFault::Past { offset } => NodeFault::Damaged {
            slots: true,
            offset,
        },
        SlotFault::OutOfMemory => NodeFault::OutOfMemory,
    }
}
