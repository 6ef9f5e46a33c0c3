//! Which block uses which slot.

ghost use Rattle.std.specs.Prelude.{◌≡◌, ◌↔◌, ◌<◌, ◌≤◌, ◌==◌, ◌++◌, ◌∷◌, [], ℕ, None, Some, false, length, IfOk, OnOk};
ghost use Rattle.std.specs.Prelude.{IsTrue, Contains, if◌then◌else◌};
ghost use Rattle.std.specs.List.{list_any};
ghost use Rattle.std.specs.Option.{option_map_or};
ghost use Rattle.std.specs.List.Sorted.{IsStrictlyIncreasing};
ghost use Rattle.oz_entries.specs.Held.{user_of, any_in, row_has, is_freed as is_user_freed};
ghost use Rattle.oz_entries.specs.Node.{unless_gone, is_in, names_some, uses_below};

use crate::row::{BlockRow, Chunk};
use oz_chunk::SLOTS;
use oz_fields::{Block, OutOfMemory};
use std::alloc::Global;

/// A table in which no slot is used.
pub(crate) fn no_users(alloc: Global) -> Result<Vec<Option<Block>>, OutOfMemory>
    ensures count { IfOk result (λ users. length users.items ≡ SLOTS) }
    ensures none { IfOk result (λ users. (slot : ℕ) → user_of users.items slot ≡ None) }
{
    empty_table(alloc, SLOTS as usize)
}

fn empty_table(alloc: Global, count: usize) -> Result<Vec<Option<Block>>, OutOfMemory>
    ensures count { IfOk result (λ users. length users.items ≡ count) }
    ensures none { IfOk result (λ users. (slot : ℕ) → user_of users.items slot ≡ None) }
{
    vec![in alloc; None; count]
}

/// Gives slots to a block.
pub(crate) fn take_slots(users: &mut Vec<Option<Block>>, block: Block, chunks: &[Chunk])
    ensures count { length users.new.items ≡ length users.old.items }
    ensures taken { (slot : ℕ) → slot < length users.old.items → user_of users.new.items slot
        ≡ (if any_in chunks.now slot then Some block else user_of users.old.items slot) }
{
    for chunk in chunks {
        set_user(users, chunk.slot, Some(block));
    }
}

/// Sets slots free.
fn release(users: &mut Vec<Option<Block>>, chunks: &[Chunk])
    ensures count { length users.new.items ≡ length users.old.items }
    ensures free { (slot : ℕ) → user_of users.new.items slot
        ≡ (if any_in chunks.now slot then None else user_of users.old.items slot) }
{
    for chunk in chunks {
        set_user(users, chunk.slot, None);
    }
}

/// Sets the slots of a row that is gone free, if there was one.
pub(crate) fn release_row(users: &mut Vec<Option<Block>>, row: Option<BlockRow>)
    ensures count { length users.new.items ≡ length users.old.items }
    ensures free { (slot : ℕ) → user_of users.new.items slot
        ≡ (if row_has row slot then None else user_of users.old.items slot) }
{
    if let Some(row) = row {
        release(users, row.chunks.items());
    }
}

fn set_user(users: &mut Vec<Option<Block>>, slot: u32, user: Option<Block>)
    ensures count { length users.new.items ≡ length users.old.items }
    ensures there { (other : ℕ) → other < length users.old.items → user_of users.new.items other
        ≡ (if slot == other then user else user_of users.old.items other) }
{
    let slot = slot as usize;
    if slot < users.len() {
        users[slot] = user;
    }
}

/// Sets all slots free.
pub(crate) fn release_all(users: &mut Vec<Option<Block>>)
    ensures count { length users.new.items ≡ length users.old.items }
    ensures none { (slot : ℕ) → user_of users.new.items slot ≡ None }
{
    users.fill(None);
}

/// The slots of blocks of one container, by their own numbers. Each stands once.
pub(crate) fn slots_of(
    alloc: Global,
    users: &[Option<Block>],
    container: u64,
    locals: &[u64],
) -> Result<Vec<u32>, OutOfMemory>
    requires { length users.now ≤ SLOTS }
    ensures each { IfOk result (λ slots. (slot : ℕ) → Contains slots.items slot
        ↔ IsTrue (is_user_freed (names_some container locals.now) (user_of users.now slot))) }
    ensures rising { IfOk result (λ slots. IsStrictlyIncreasing slots.items) }
{
    let mut slots = Vec::new(alloc);
    for slot in 0..users.len() {
        let is_one = is_freed(user_at(users, slot), container, locals);
        push_if(&mut slots, slot as u32, is_one)?;
    }
    Ok(slots)
}

fn is_freed(user: Option<Block>, container: u64, locals: &[u64]) -> bool
    ensures { result ≡ is_user_freed (names_some container locals.now) user }
{
    match user {
        Some(block) => container == block.container && is_among(block.local, locals),
        None => false,
    }
}

fn is_among(local: u64, locals: &[u64]) -> bool
    ensures { result ≡ list_any (λ other. other == local) locals.now }
{
    locals.iter().any(|other| *other == local)
}

fn push_if(slots: &mut Vec<u32>, slot: u32, is_one: bool) -> Result<(), OutOfMemory>
    ensures { OnOk result (slots.new.items ≡ slots.old.items ++ (if is_one then slot ∷ [] else [])) }
{
    if is_one {
        slots.push(slot)?;
    }
    Ok(())
}

/// Sets the slots of a container's blocks free.
pub(crate) fn release_container(users: &mut Vec<Option<Block>>, container: u64)
    ensures count { length users.new.items ≡ length users.old.items }
    ensures free { (slot : ℕ) → user_of users.new.items slot
        ≡ unless_gone (is_in container) (user_of users.old.items slot) }
{
    for slot in 0..users.len() {
        let user = kept_user(user_at(users, slot), container);
        users[slot] = user;
    }
}

fn kept_user(user: Option<Block>, container: u64) -> Option<Block>
    ensures { result ≡ unless_gone (is_in container) user }
{
    match user {
        Some(block) if block.container == container => None,
        _ => user,
    }
}

/// Whether a block of the container uses one of the slots.
pub(crate) fn uses_one(users: &[Option<Block>], container: u64) -> bool
    ensures { result ≡ uses_below (user_of users.now) container (length users.now) }
{
    for slot in 0..users.len() {
        if is_of(user_at(users, slot), container) {
            return true;
        }
    }
    false
}

fn is_of(user: Option<Block>, container: u64) -> bool
    ensures { result ≡ option_map_or (is_in container) user false }
{
    match user {
        Some(block) => container == block.container,
        None => false,
    }
}

fn user_at(users: &[Option<Block>], slot: usize) -> Option<Block>
    ensures { result ≡ user_of users.now slot }
{
    match users.get(slot) {
        Some(user) => *user,
        None => None,
    }
}
