//! What the bodies of a journal make.

ghost use Rattle.std.specs.Prelude.{◌≡◌, ◌-◌, ℕ, length, IfOk, IfErr, OnOk};
ghost use Rattle.oz_journal.specs.Body.{bodies_in};
ghost use Rattle.oz_entries.specs.Build.{Makes, FailsAt, IsDamagedBody, IsNext};
ghost use Rattle.oz_entries.specs.Held.{node_of};
ghost use Rattle.oz_entries.specs.Node.{MayFollow, after_entry};
ghost use Rattle.oz_entries.specs.Steps.{Follows, IfLeft, fault_in};

use crate::entry::Entry;
use crate::fault::BuildFault;
use crate::held::Held;
use crate::reading::entry_of;
use crate::row::BlockRow;
use oz_container::State;
use oz_dellog::Txn;
use oz_fields::{Block, OutOfMemory};
use oz_journal::Body;
use oz_rows::ReadFault;
use std::alloc::Global;

/// What the bodies of a datanode's journal make, one after another.
pub fn build(alloc: Global, bodies: &[Body]) -> Result<Held, BuildFault>
    ensures made { IfOk result (λ held. Makes (bodies_in bodies.now) (node_of held)) }
    ensures damaged { IfErr result (λ fault. (body at : ℕ) → fault ≡ BuildFault.Damaged body at
        → FailsAt (bodies_in bodies.now) body at) }
{
    let Ok(mut held) = Held::new(alloc) else {
        return Err(BuildFault::OutOfMemory);
    };
    for (count, body) in bodies.iter().enumerate() {
        let bytes = body.bytes.items();
        if let Err(fault) = follow(alloc, &mut held, bytes) {
            return Err(fault_of(fault, count, bytes));
        }
    }
    Ok(held)
}

fn fault_of(fault: ReadFault, body: usize, bytes: &[u8]) -> BuildFault
    ensures { result ≡ fault_in body bytes.now fault }
{
    match fault {
        ReadFault::Left(left) => BuildFault::Damaged {
            body,
            at: bytes.len().saturating_sub(left),
        },
        ReadFault::OutOfMemory => BuildFault::OutOfMemory,
    }
}

/// Applies a body to what those before it made.
fn follow(alloc: Global, held: &mut Held, bytes: &[u8]) -> Result<(), ReadFault>
    ensures follows { OnOk result (Follows (node_of held.old) bytes.now (node_of held.new)) }
    ensures damaged { IfErr result
        (IfLeft (λ left. IsDamagedBody (node_of held.old) bytes.now (length bytes.now - left))) }
{
    let entry = whole_entry(alloc, held, bytes)?;
    apply(alloc, held, entry)?;
    Ok(())
}

/// The entry that all of the bytes spell.
fn whole_entry(alloc: Global, held: &Held, bytes: &[u8]) -> Result<Entry, ReadFault>
    ensures next { IfOk result (λ entry. IsNext (node_of held.now) bytes.now entry) }
    ensures damaged { IfErr result
        (IfLeft (λ left. IsDamagedBody (node_of held.now) bytes.now (length bytes.now - left))) }
{
    let (entry, rest) = entry_of(alloc, held, bytes)?;
    if !rest.is_empty() {
        return Err(ReadFault::Left(rest.len()));
    }
    Ok(entry)
}

/// Applies an entry that may follow.
fn apply(alloc: Global, held: &mut Held, entry: Entry) -> Result<(), OutOfMemory>
    requires { MayFollow (node_of held.old) entry }
    ensures { OnOk result (node_of held.new ≡ after_entry entry (node_of held.old)) }
{
    match entry {
        Entry::Put { block, row } => apply_put(alloc, held, block, row),
        Entry::SetState { container, state } => apply_state(alloc, held, container, state),
        Entry::Apply { txn } => apply_txn(alloc, held, &txn),
        Entry::Drop { container } => apply_drop(alloc, held, container),
    }
}

fn apply_put(alloc: Global, held: &mut Held, block: Block, row: BlockRow) -> Result<(), OutOfMemory>
    requires { MayFollow (node_of held.old) (Entry.Put block row) }
    ensures { OnOk result (node_of held.new ≡ after_entry (Entry.Put block row) (node_of held.old)) }
{
    held.make_room(alloc, block)?;
    held.put(block, row);
    Ok(())
}

fn apply_state(
    alloc: Global,
    held: &mut Held,
    container: u64,
    state: State,
) -> Result<(), OutOfMemory>
    ensures { OnOk result (node_of held.new ≡ after_entry (Entry.SetState container state) (node_of held.old)) }
{
    held.name(alloc, container)?;
    held.set_state(container, state);
    Ok(())
}

fn apply_txn(alloc: Global, held: &mut Held, txn: &Txn) -> Result<(), OutOfMemory>
    ensures { OnOk result (node_of held.new ≡ after_entry (Entry.Apply txn.now) (node_of held.old)) }
{
    held.name(alloc, txn.container)?;
    held.forget_locals(txn.container, txn.locals.items());
    held.set_number(txn.container, txn.number);
    Ok(())
}

fn apply_drop(alloc: Global, held: &mut Held, container: u64) -> Result<(), OutOfMemory>
    ensures { OnOk result (node_of held.new ≡ after_entry (Entry.Drop container) (node_of held.old)) }
{
    held.name(alloc, container)?;
    held.forget_container(container);
    held.set_state(container, State::Deleted);
    Ok(())
}
