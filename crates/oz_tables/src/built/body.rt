//! One body, operation after operation, over the rows before it.

ghost use Rattle.std.specs.Prelude.{◌≡◌, ◌-◌, ◌<◌, ◌≤◌, ℕ, length, OnOk, IfOk, IfErr, MatchResult};
ghost use Rattle.std.specs.Bool.{OnTrue, OnFalse};
ghost use Rattle.oz_rows.specs.RowMaps.{Becomes};
ghost use Rattle.oz_effects.specs.Effects.{IsPossible, operation_changes as changed_by};
ghost use Rattle.oz_effects.specs.Build.{AllAreBased, HeadFails, IsDamagedBody};
ghost use Rattle.oz_tables.specs.built.Steps.{Follows, RemovesNothing, BatchLeads, BatchStops, HeadRises, IfLeft};

use crate::Tables;
use crate::built::needs::first_at_fault;
use oz_effects::operation_changes;
use oz_fields::OutOfMemory;
use oz_rows::{Head, Operation, ReadFault, head_of, operation_of};
use std::alloc::Global;

/// An operation that was read, and how many bytes of its body were left from it on.
#[derive(Drop)]
pub(crate) struct Step {
    pub(crate) left: usize,
    pub(crate) operation: Operation,
}

/// Applies a body to the rows that those before it made.
pub(crate) fn follow(
    alloc: Global,
    tables: &mut Tables,
    last: Head,
    bytes: &[u8],
) -> Result<Head, ReadFault>
    requires { AllAreBased tables.old.rows }
    ensures follows { IfOk result (Follows last tables.old bytes.now tables.new) }
    ensures damaged { IfErr result
        (IfLeft (λ left. IsDamagedBody last tables.old.rows bytes.now (length bytes.now - left))) }
{
    let (head, rest) = rising_head(bytes, last)?;
    let steps = batch(alloc, tables, rest)?;
    match first_at_fault(alloc, tables, steps.as_slice())? {
        Some(left) => Err(ReadFault::Left(left)),
        None => {
            tables.reach(head.index);
            Ok(head)
        }
    }
}

/// The head of a body, which may follow the last one.
fn rising_head(bytes: &[u8], last: Head) -> Result<(Head, &[u8]), ReadFault>
    ensures head { IfOk result (λ head. HeadRises last bytes.now head.0 head.1.now) }
    ensures fails { IfErr result (IfLeft (λ left. HeadFails last bytes.now (length bytes.now - left))) }
{
    let (head, rest) = head_of(bytes)?;
    if is_below(u64::from(head.layout), u64::from(last.layout)) {
        return Err(ReadFault::Left(bytes.len()));
    }
    if !is_below(last.index, head.index) {
        return Err(ReadFault::Left(bytes.len().saturating_sub(1)));
    }
    Ok((head, rest))
}

fn is_below(number: u64, other: u64) -> bool
    ensures below { OnTrue result (number < other) }
    ensures not_below { OnFalse result (other ≤ number) }
{
    number < other
}

/// Applies operations to the end of the bytes.
fn batch(alloc: Global, tables: &mut Tables, bytes: &[u8]) -> Result<Vec<Step>, ReadFault>
    ensures last_index { tables.new.last_index ≡ tables.old.last_index }
    ensures leads { IfOk result (λ steps. BatchLeads tables.old.rows bytes.now steps.items tables.new.rows) }
    ensures stops { IfErr result (IfLeft (BatchStops tables.old.rows bytes.now tables.new.rows)) }
{
    let mut steps = Vec::new(alloc);
    let mut rest = bytes;
    while !rest.is_empty() {
        let (operation, after) = operation_of(alloc, rest)?;
        if !is_possible(tables, &operation) {
            return Err(ReadFault::Left(rest.len()));
        }
        perform(alloc, tables, &operation)?;
        steps.push(Step {
            left: rest.len(),
            operation,
        })?;
        rest = after;
    }
    Ok(steps)
}

/// Whether a row that is removed is there.
fn is_possible(tables: &Tables, operation: &Operation) -> bool
    ensures possible { OnTrue result (IsPossible tables.now.rows operation.now) }
    ensures absent { OnFalse result (RemovesNothing tables.now.rows operation.now) }
{
    match operation {
        Operation::Remove { key } => tables.get(key).is_some(),
        _ => true,
    }
}

/// Applies an operation.
fn perform(alloc: Global, tables: &mut Tables, operation: &Operation) -> Result<(), OutOfMemory>
    ensures last_index { tables.new.last_index ≡ tables.old.last_index }
    ensures becomes { OnOk result (Becomes tables.old.rows (changed_by tables.old.rows operation.now) tables.new.rows) }
{
    let changes = operation_changes(alloc, tables, operation)?;
    tables.reserve(alloc, changes.len())?;
    tables.rows_are_in_order();
    tables.enter_all(changes);
    tables.rows_are_in_order();
    Ok(())
}
