//! What a memory disk did, and what a stop may leave by it.

ghost use Rattle.std.specs.Prelude.{◌≡◌, ◌+◌, ◌<◌, ◌≤◌, ℕ, List, IsTrue, nat_le, false, vec_len, vec_capacity, length};
ghost use Rattle.std.specs.Prelude.{take, OnOk, OnErr, IfOk, if◌then◌else◌};
ghost use Rattle.std.specs.List.{list_all};
ghost use Rattle.oz_world.specs.Disk.{last_moment, overwritten, Torn, CutShort, Same, Ticks, LeavesEach, IsStable};
ghost use Rattle.oz_world.specs.Record.{images, synced_count, done, is_sync, half_of, none_of, padded};
ghost use Rattle.oz_world.specs.inner.Contents.{contents, step_of};

use crate::put::{pad, put_over};
use std::alloc::{AllocError, Global};

/// What a memory disk did.
#[derive(Drop)]
pub enum Change {
    Write { pos: u64, others: Vec<u8> },
    Cut { size: u64 },
    Sync,
}

impl Change {
    /// Makes the change to these bytes.
    fn redo(&self, bytes: &mut Vec<u8>) -> Result<(), AllocError>
        ensures { OnOk result (bytes.new.items ≡ done self.now bytes.old.items) }
    {
        match self {
            Change::Write { pos, others } => put_over(bytes, *pos as usize, others),
            Change::Cut { size } => {
                bytes.truncate(*size as usize);
                Ok(())
            }
            Change::Sync => Ok(()),
        }
    }

    /// Makes a part of the change: none of it, or the first half of a write and the whole of a cut.
    fn redo_part(&self, half: bool, bytes: &mut Vec<u8>) -> Result<(), AllocError>
        ensures { OnOk result
            (bytes.new.items ≡ (if half then half_of else none_of) self.now bytes.old.items) }
    {
        if !half {
            return Ok(());
        }
        match self {
            Change::Write { pos, others } => {
                pad(bytes, *pos as usize)?;
                put_over(bytes, *pos as usize, &others[..others.len() / 2])
            }
            Change::Cut { .. } | Change::Sync => self.redo(bytes),
        }
    }
}

/// A change, and the moment that it led to.
#[derive(Drop)]
pub struct TimedChange {
    pub moment: u64,
    pub change: Change,
}

/// What a memory disk held at first, and all that it did since.
#[derive(Drop)]
pub struct History {
    pub first: Vec<u8>,
    pub entries: Vec<TimedChange>,
    pub clock: u64,
    /// How many entries there are up to the last sync.
    pub synced: usize,
    ghost past: { IsTrue (list_all (λ entry. nat_le entry.moment clock) entries.items) },
    ghost counted: { synced ≡ synced_count entries.items },
    ghost within: { synced ≤ vec_len entries },
    ghost stable: { synced ≡ vec_len entries →
        (left : List ℕ) →
        images first.items (λ bytes. bytes ≡ first.items) entries.items left →
        left ≡ contents first.items entries.items },
    ghost spare: { synced < vec_len entries → vec_len entries < vec_capacity entries },
}

impl History {
    ghost use Rattle.oz_world.specs.History.{images_of, left_of};
    ghost use Rattle.oz_world.specs.inner.Now.{contents_of};

    #[tactic(auto, unfolding(crate::specs::inner::Contents::contents, crate::specs::Record::images, crate::specs::Record::synced_count))]
    /// The history of a disk that begins with these bytes, all of them stable.
    pub fn new(alloc: Global, first: Vec<u8>) -> History
        ensures contents { contents_of result ≡ first.items }
        ensures clock { result.clock ≡ 0 }
        ensures stable { IsStable (images_of result) 0 first.items }
    {
        History {
            first,
            entries: Vec::new(alloc),
            clock: 0,
            synced: 0,
        }
    }

    /// Lets a moment pass in which nothing changes.
    pub fn pass(&mut self)
        requires { self.old.clock < last_moment }
        ensures contents { contents_of self.new ≡ contents_of self.old }
        ensures time { Ticks Same self.old.clock self.new.clock (images_of self.old) (images_of self.new) }
        ensures still_left { LeavesEach Same self.old.clock self.new.clock (images_of self.old)
            (images_of self.new) }
    {
        self.clock += 1;
    }

    /// Records a write or a cut. Without memory nothing changes, and the moment passes.
    fn record(&mut self, change: Change) -> Result<(), AllocError>
        requires time { self.old.clock < last_moment }
        requires changes { is_sync change ≡ false }
        ensures ok { OnOk result (contents_of self.new ≡ done change (contents_of self.old)) }
        ensures err { OnErr result (contents_of self.new ≡ contents_of self.old) }
        ensures time { OnOk result
            (Ticks (step_of change) self.old.clock self.new.clock (images_of self.old) (images_of self.new)) }
        ensures no_change { OnErr result
            (Ticks Same self.old.clock self.new.clock (images_of self.old) (images_of self.new)) }
        ensures left { OnOk result
            (LeavesEach (step_of change) self.old.clock self.new.clock (images_of self.old)
            (images_of self.new)) }
        ensures still_left { OnErr result
            (LeavesEach Same self.old.clock self.new.clock (images_of self.old) (images_of self.new)) }
    {
        self.clock += 1;
        // Room for the sync that follows, too, which then needs no memory.
        let Ok(()) = self.entries.reserve(2) else {
            return Err(AllocError);
        };
        let entry = TimedChange {
            moment: self.clock,
            change,
        };
        self.entries.push(entry).unwrap();
        Ok(())
    }

    /// Records a write at a place.
    pub fn write(&mut self, alloc: Global, pos: u64, others: &[u8]) -> Result<(), AllocError>
        requires { self.old.clock < last_moment }
        ensures ok { OnOk result (contents_of self.new ≡ overwritten pos others.now (contents_of self.old)) }
        ensures err { OnErr result (contents_of self.new ≡ contents_of self.old) }
        ensures time { Ticks (Torn pos (length others.now)) self.old.clock self.new.clock (images_of self.old)
            (images_of self.new) }
        ensures left { OnOk result
            (LeavesEach (Torn pos (length others.now)) self.old.clock self.new.clock (images_of self.old)
            (images_of self.new)) }
        ensures still_left { OnErr result
            (LeavesEach Same self.old.clock self.new.clock (images_of self.old) (images_of self.new)) }
    {
        match others.to_vec(alloc) {
            Ok(others) => self.record(Change::Write { pos, others }),
            Err(error) => {
                self.pass();
                Err(error)
            }
        }
    }

    /// Records a cut to a size.
    pub fn cut(&mut self, size: u64) -> Result<(), AllocError>
        requires { self.old.clock < last_moment }
        ensures ok { OnOk result (contents_of self.new ≡ take size (contents_of self.old)) }
        ensures err { OnErr result (contents_of self.new ≡ contents_of self.old) }
        ensures time { Ticks (CutShort size) self.old.clock self.new.clock (images_of self.old)
            (images_of self.new) }
        ensures left { OnOk result
            (LeavesEach (CutShort size) self.old.clock self.new.clock (images_of self.old)
            (images_of self.new)) }
        ensures still_left { OnErr result
            (LeavesEach Same self.old.clock self.new.clock (images_of self.old) (images_of self.new)) }
    {
        self.record(Change::Cut { size })
    }

    /// What is left where of each change that no sync followed only half came about, or nothing.
    pub fn left_behind(&self, alloc: Global, half: bool) -> Result<Vec<u8>, AllocError>
        ensures which { IfOk result (λ left. left.items ≡ left_of (if half then half_of else none_of) self.now) }
        ensures image { IfOk result (λ left. images_of self.now self.now.clock left.items) }
    {
        let mut left = self.first.to_vec(alloc)?;
        let mut synced = self.synced;
        for entry in &self.entries {
            if synced > 1 {
                entry.change.redo(&mut left)?;
            } else {
                entry.change.redo_part(half, &mut left)?;
            }
            synced = synced.saturating_sub(1);
        }
        Ok(left)
    }

    /// Makes all that was done stable.
    pub fn sync(&mut self)
        requires { self.old.clock < last_moment }
        ensures contents { contents_of self.new ≡ contents_of self.old }
        ensures time { Ticks Same self.old.clock self.new.clock (images_of self.old) (images_of self.new) }
        ensures stable { IsStable (images_of self.new) self.new.clock (contents_of self.old) }
    {
        self.clock += 1;
        if self.synced < self.entries.len() {
            let entry = TimedChange {
                moment: self.clock,
                change: Change::Sync,
            };
            self.entries.push(entry).unwrap();
            self.synced = self.entries.len();
        }
    }
}
