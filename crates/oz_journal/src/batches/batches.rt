//! Batches one after another.

ghost use Rattle.std.specs.Prelude.{◌≡◌, ◌≢◌, ◌<◌, ◌≤◌, ◌+◌, ◌↔◌, ◌++◌, [], length, max, false, is_err, IsTrue, IfOk, OnOk, OnErr};
ghost use Rattle.oz_journal.specs.batches.Body.{body_bytes};
ghost use Rattle.oz_journal.specs.Appends.{Appends};
ghost use Rattle.oz_world.specs.Disk.{seen};

use crate::Journal;
use crate::batches::OutOfMemory;
use crate::batches::head::{FRONT, put_head};
use oz_world::{Disk, Failed};
use std::alloc::Global;
use std::marker::Model;

/// The most bytes that a batch has.
pub const LONGEST_BATCH: usize = 67_108_864;

/// The most bytes that batches have which wait together.
pub const LARGEST_BUFFER: usize = 1_073_741_824;

/// Batches one after another, which are written as one body, with room reserved for more. In memory they stand as a
/// journal takes them: behind room for a body's length and head, and before room for one byte.
#[derive(Debug, Drop)]
pub struct Batches {
    bytes: Vec<u8>,
    spare: usize,
}

impl Model for Batches {
    ghost use Rattle.std.specs.Prelude.{drop, vec_capacity};
    ghost use Rattle.oz_journal.specs.batches.Waiting.{Waiting, IsFramed};

    ghost Value = { Waiting };

    ghost view = { λ batches. record { bytes = drop 13 batches.bytes.items; spare = batches.spare } };

    ghost invariant = { λ batches. IsFramed batches.bytes.items batches.spare (vec_capacity batches.bytes) };
}

impl Batches {
    /// No batches. It takes no memory.
    pub fn new(alloc: Global) -> Batches
        ensures bytes { result.bytes ≡ [] }
        ensures spare { result.spare ≡ 0 }
    {
        Batches {
            bytes: Vec::new(alloc),
            spare: 0,
        }
    }

    /// How many bytes the batches have together.
    pub fn len(&self) -> usize
        ensures len { result ≡ length self.now.bytes }
        ensures most { result + self.now.spare ≤ LARGEST_BUFFER }
    {
        self.bytes.len().saturating_sub(FRONT)
    }

    pub fn is_empty(&self) -> bool
        ensures { IsTrue result ↔ (self.now.bytes ≡ []) }
    {
        self.bytes.is_empty()
    }

    /// Makes room for so many bytes more, where there is less.
    pub fn reserve(&mut self, more: usize) -> Result<(), OutOfMemory>
        requires { self.old.spare < more → length self.old.bytes + more ≤ LARGEST_BUFFER }
        ensures bytes { self.new.bytes ≡ self.old.bytes }
        ensures spare { OnOk result (self.new.spare ≡ max self.old.spare more) }
        ensures err { OnErr result (self.new ≡ self.old) }
    {
        if more <= self.spare {
            return Ok(());
        }
        let front = if self.bytes.is_empty() { FRONT } else { 0 };
        self.bytes.reserve(front + more + 1)?;
        self.spare = more;
        Ok(())
    }

    /// Gives up the room that is spare. The memory stays.
    pub fn unreserve(&mut self)
        ensures bytes { self.new.bytes ≡ self.old.bytes }
        ensures spare { self.new.spare ≡ 0 }
    {
        self.spare = 0;
    }

    /// Puts a batch behind the others. It takes no memory.
    pub fn push(&mut self, batch: &[u8])
        requires { length batch.now ≤ self.old.spare }
        ensures bytes { self.new.bytes ≡ self.old.bytes ++ batch.now }
        ensures spare { self.new.spare + length batch.now ≡ self.old.spare }
    {
        if batch.is_empty() {
            return;
        }
        if self.bytes.is_empty() {
            self.bytes.extend_from_slice(&[0; FRONT]).unwrap();
        }
        self.bytes.extend_from_slice(batch).unwrap();
        self.spare -= batch.len();
    }

    /// Appends the batches to a journal as one body with this index. None is left here, whatever comes of it; the memory
    /// stays. It takes no memory.
    pub fn append_to<D: Disk>(
        &mut self,
        journal: &mut Journal<D>,
        index: u64,
    ) -> Result<u64, Failed>
        requires running { journal.old.stopped ≡ false }
        requires some { self.old.bytes ≢ [] }
        ensures appended { Appends (body_bytes index self.old.bytes)
            (seen (D.told journal.old.disk) (D.clock journal.old.disk) (D.image journal.old.disk)
            (D.faults journal.old.disk))
            (seen (D.told journal.new.disk) (D.clock journal.new.disk) (D.image journal.new.disk)
            (D.faults journal.new.disk))
            result }
        ensures moment { IfOk result (λ moment. moment ≡ D.clock journal.new.disk) }
        ensures stopped { journal.new.stopped ≡ is_err result }
        ensures bytes { self.new.bytes ≡ [] }
        ensures spare { self.new.spare ≡ 0 }
    {
        self.spare = 0;
        self.bytes.push(0).unwrap();
        let framed = self.bytes.as_mut_slice();
        put_head(framed, index);
        let written = journal.append(framed);
        self.bytes.clear();
        written
    }
}
