//! What is noted of changes.

ghost use Rattle.std.specs.Prelude.{◌≡◌, ◌+◌, ◌++◌, ◌≤◌, [], map, filter, vec_len, vec_capacity, IfOk};
ghost use Rattle.oz_reclaim.specs.sweep.Notes.{dated, later as later_notes, notes_of as all_notes_of, is_noted as noted};

use oz_fields::{OutOfMemory, TryClone};
use oz_rows::{Change, RowKey};
use std::alloc::Global;

/// A deleted row, or the row of a snapshot, was put or taken away. The index is that of the transaction.
#[derive(Debug, Drop)]
pub struct Note {
    pub index: u64,
    pub key: RowKey,
    pub is_put: bool,
}

/// The notes of changes, in their order, before these have an index.
pub(crate) fn notes_of(alloc: Global, changes: &[Change]) -> Result<Vec<Note>, OutOfMemory>
    ensures { IfOk result (λ notes. notes.items ≡ all_notes_of changes.now) }
{
    let mut notes = Vec::new(alloc);
    for change in changes {
        if is_noted(&change.key) {
            let key = change.key.try_clone(alloc)?;
            let is_put = change.row.is_some();
            notes.push(Note {
                index: 0,
                key,
                is_put,
            })?;
        }
    }
    Ok(notes)
}

fn is_noted(key: &RowKey) -> bool
    ensures { result ≡ noted key.now }
{
    match key {
        RowKey::Deleted { .. } | RowKey::Snapshot { .. } => true,
        _ => false,
    }
}

/// Moves notes behind others, under this index. Room for them was made.
pub(crate) fn move_dated(from: &mut Vec<Note>, to: &mut Vec<Note>, index: u64)
    requires { vec_len to.old + vec_len from.old ≤ vec_capacity to.old }
    ensures empty { from.new.items ≡ [] }
    ensures items { to.new.items ≡ to.old.items ++ map (dated index) from.old.items }
    ensures none { vec_len from.new ≡ 0 }
    ensures room { vec_len to.new ≤ vec_capacity to.new }
{
    from.reverse();
    while !from.is_empty() {
        if let Some(
            Note {
                index: _,
                key,
                is_put,
            },
        ) = from.pop()
        {
            to.push(Note { index, key, is_put }).unwrap();
        }
    }
}

/// The notes of later transactions stay.
pub(crate) fn keep_later(notes: &mut Vec<Note>, upto: u64)
    ensures items { notes.new.items ≡ later_notes upto notes.old.items }
    ensures fewer { vec_len notes.new ≤ vec_len notes.old }
    ensures capacity { vec_capacity notes.new ≡ vec_capacity notes.old }
{
    notes.retain(|note| note.index > upto);
}
