//! A block of memory that owns its items.

ghost use Rattle.std.specs.Prelude.{◌≡◌, ◌+◌, ◌<◌, ◌≤◌, [], ◌∷◌, ◌++◌, length, slice_get, slice_set};
ghost use Rattle.std.specs.Prelude.{Some, OnOk, OnErr, IsTrue, MatchResult};
ghost use Rattle.std.specs.Allocator.{FitsBlock};

use crate::OutOfMemory;
use crate::raw_block::{RawBlock, item_bytes};
use std::alloc::Global;
use std::marker::Model;

const MAX_BYTES: usize = isize::MAX as usize;

/// Items in one block of memory. At its end they are dropped, and the memory is given back. A block without
/// room has none.
pub struct Block<T> {
    raw: RawBlock<T>,
    count: usize,
    capacity: usize,
    alloc: Global,
}

impl<T> Model for Block<T> {
    ghost use Rattle.oz_epochs.specs.Block.{BlockView};
    ghost use Rattle.std.specs.Prelude.{◌≡◌, ◌+◌, length};

    ghost Value = { BlockView T };

    ghost view = { λ b. record { items = b.raw.items; capacity = b.capacity } };

    ghost invariant = { λ b. (b.count ≡ length b.raw.items) × (b.capacity ≡ length b.raw.items + b.raw.room) };
}

impl<T: Drop> Drop for Block<T> {
    fn drop(mut self) {
        while self.count > 0 {
            self.count -= 1;
            let _item = self.raw.pull(self.count);
        }
        let Block {
            raw,
            count: _,
            capacity,
            alloc,
        } = self;
        raw.free(&alloc, capacity);
    }
}

impl<T> Block<T> {
    ghost use Rattle.std.specs.Borrow.{Lends, sem};
    ghost use Rattle.oz_epochs.specs.contracts.block.Block.{the_row};

    pub fn new(alloc: Global) -> Block<T>
        ensures items { result.items ≡ [] }
        ensures capacity { result.capacity ≡ 0 }
    {
        Block {
            raw: RawBlock::none(),
            count: 0,
            capacity: 0,
            alloc,
        }
    }

    pub fn len(&self) -> usize
        ensures len { result ≡ length self.now.items }
        ensures within { result ≤ self.now.capacity }
    {
        self.count
    }

    pub fn capacity(&self) -> usize
        ensures { result ≡ self.now.capacity }
    {
        self.capacity
    }

    pub fn get(&self, index: usize) -> &T
        requires { index < length self.now.items }
        ensures { slice_get self.now.items index ≡ Some result.now }
    {
        &self.raw.items(self.count)[index]
    }

    pub fn get_mut(&mut self, index: usize) -> &mut T
        requires { index < length self.old.items }
        ensures* writes_back { sem 𝓛 (Lends (the_row T.row) T.row self.entry result
            (λ item. record self.old { items = slice_set self.old.items index item })) }
        ensures item { slice_get self.old.items index ≡ Some result.now }
    {
        self.raw.get_mut(index)
    }

    pub fn replace(&mut self, index: usize, item: T) -> T
        requires { index < length self.old.items }
        ensures value { slice_get self.old.items index ≡ Some result }
        ensures items { self.new.items ≡ slice_set self.old.items index item }
        ensures capacity { self.new.capacity ≡ self.old.capacity }
    {
        std::mem::replace(self.get_mut(index), item)
    }

    pub fn push(&mut self, item: T)
        requires { length self.old.items < self.old.capacity }
        ensures items { self.new.items ≡ self.old.items ++ item ∷ [] }
        ensures capacity { self.new.capacity ≡ self.old.capacity }
    {
        self.raw.put(self.count, item);
        self.count += 1;
    }

    /// Makes room for so many more items, and doubles the block at least where there is less. After an error the
    /// block is as before.
    pub fn grow(&mut self, alloc: Global, more: usize) -> Result<(), OutOfMemory>
        ensures items { self.new.items ≡ self.old.items }
        ensures room { OnOk result (length self.new.items + more ≤ self.new.capacity) }
        ensures refused { OnErr result (self.new ≡ self.old) }
    {
        let Some(needed) = self.count.checked_add(more) else {
            return Err(OutOfMemory);
        };
        if needed <= self.capacity {
            return Ok(());
        }
        let capacity = needed.max(self.capacity.saturating_mul(2));
        if !fits::<T>(capacity) {
            return Err(OutOfMemory);
        }
        self.enlarge(alloc, capacity)
    }

    fn enlarge(&mut self, alloc: Global, capacity: usize) -> Result<(), OutOfMemory>
        requires more { self.old.capacity ≤ capacity }
        requires fits { FitsBlock T.row capacity }
        ensures items { self.new.items ≡ self.old.items }
        ensures room { OnOk result (self.new.capacity ≡ capacity) }
        ensures refused { OnErr result (self.new ≡ self.old) }
    {
        if self.capacity == 0 {
            self.raw.take(&alloc, capacity)?;
        } else {
            self.raw.widen(&alloc, self.count, self.capacity, capacity)?;
        }
        self.capacity = capacity;
        Ok(())
    }
}

/// Whether so many items are few enough for one block.
fn fits<T>(count: usize) -> bool
    ensures { IsTrue result → FitsBlock T.row count }
{
    count
        .checked_mul(item_bytes::<T>())
        .is_some_and(|bytes| bytes <= MAX_BYTES)
}
