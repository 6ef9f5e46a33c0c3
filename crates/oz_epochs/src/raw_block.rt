//! A pointer to a block of memory, with items at its beginning.

ghost use Rattle.std.specs.Prelude.{◌≡◌, ℕ, ◌+◌, ◌<◌, ◌≤◌, List, [], ◌∷◌, ◌++◌, length};
ghost use Rattle.std.specs.Prelude.{slice_get, slice_set, Some, MatchResult};
ghost use Rattle.std.specs.Allocator.{FitsBlock};
ghost use Rattle.std.specs.Mem.{type_size};
ghost use prog.Memory.{capped};
ghost use Rattle.std.specs.Borrow.{Lends, sem};

use crate::OutOfMemory;
use std::alloc::{Allocator, Global};
use std::marker::{Model, Send, Sync};
use std::mem::{align_of, size_of};
use std::ptr::null_mut;
use std::slice::from_raw_parts;

/// The pointer to a block of memory, with room for items, of which the first ones are there. It knows neither
/// how many there may be nor how many there are: its owner keeps both numbers, and frees it.
pub struct RawBlock<T> {
    start: *mut T,
    ghost items: { List T },
    ghost room: { ℕ },
}

impl<T> Model for RawBlock<T> {
    ghost use Rattle.oz_epochs.specs.RawBlock.{owned, lent};

    ghost also_owns = { λ p. owned T.row p.start p.items p.room };

    ghost also_shares = { λ p _ κ. lent T.row p.start p.items p.room κ };
}

unsafe impl<T: Send> Send for RawBlock<T> {}

unsafe impl<T: Sync> Sync for RawBlock<T> {}

/// The bytes of one item.
pub fn item_bytes<T>() -> usize
    ensures { result ≡ capped (type_size T.row) }
{
    size_of::<T>()
}

impl<T> RawBlock<T> {
    ghost use Rattle.oz_epochs.specs.contracts.raw_block.RawBlock.{the_row};

    /// No room, and no memory.
    pub fn none() -> RawBlock<T>
        ensures items { result.items ≡ [] }
        ensures room { result.room ≡ 0 }
    {
        RawBlock { start: null_mut() }
    }

    /// Takes a block of memory, where there is none yet.
    pub fn take(&mut self, alloc: &Global, capacity: usize) -> Result<(), OutOfMemory>
        requires none { (self.old.items ≡ []) × (self.old.room ≡ 0) }
        requires fits { FitsBlock T.row capacity }
        ensures { MatchResult result (λ _. (self.new.items ≡ []) × (self.new.room ≡ capacity))
            (λ _. self.new ≡ self.old) }
    {
        match alloc.allocate(capacity * size_of::<T>(), align_of::<T>()) {
            Ok(block) => {
                self.start = block as *mut T;
                Ok(())
            }
            Err(error) => Err(error),
        }
    }

    /// Makes the block larger, where there is one. The items may move.
    pub fn widen(
        &mut self,
        alloc: &Global,
        count: usize,
        old: usize,
        new: usize,
    ) -> Result<(), OutOfMemory>
        requires count { count ≡ length self.old.items }
        requires old { old ≡ length self.old.items + self.old.room }
        requires new { (0 < old) × (old ≤ new) × FitsBlock T.row new }
        ensures { MatchResult result (λ _. (self.new.items ≡ self.old.items) × (count + self.new.room ≡ new))
            (λ _. self.new ≡ self.old) }
    {
        match unsafe { alloc.grow(self.start, count, old, new) } {
            Ok(block) => {
                self.start = block;
                Ok(())
            }
            Err(error) => Err(error),
        }
    }

    /// The items, of which there are some.
    pub fn items(&self, count: usize) -> &[T]
        requires some { 0 < count }
        requires count { count ≡ length self.now.items }
        ensures { result.now ≡ self.now.items }
    {
        unsafe { from_raw_parts(self.start.cast_const(), count) }
    }

    pub fn get_mut(&mut self, index: usize) -> &mut T
        requires { index < length self.old.items }
        ensures* writes_back { sem 𝓛 (Lends (the_row T.row) T.row self.entry result
            (λ item. record self.old { items = slice_set self.old.items index item })) }
        ensures item { slice_get self.old.items index ≡ Some result.now }
    {
        unsafe { &mut *self.start.add(index) }
    }

    /// Puts an item behind those that are there.
    pub fn put(&mut self, count: usize, item: T)
        requires count { count ≡ length self.old.items }
        requires room { 0 < self.old.room }
        ensures items { self.new.items ≡ self.old.items ++ item ∷ [] }
        ensures room { self.new.room + 1 ≡ self.old.room }
    {
        unsafe { self.start.add(count).write(item) }
    }

    /// Takes the last item out.
    pub fn pull(&mut self, index: usize) -> T
        requires { index + 1 ≡ length self.old.items }
        ensures items { self.old.items ≡ self.new.items ++ result ∷ [] }
        ensures room { self.new.room ≡ self.old.room + 1 }
    {
        unsafe { self.start.add(index).read() }
    }

    /// Gives the memory back, when no item is left in it.
    pub fn free(self, alloc: &Global, capacity: usize)
        requires empty { self.items ≡ [] }
        requires capacity { capacity ≡ self.room }
    {
        let RawBlock { start } = self;
        if capacity > 0 {
            unsafe {
                alloc.deallocate(start as *mut u8, capacity * size_of::<T>(), align_of::<T>())
            }
        }
    }
}
