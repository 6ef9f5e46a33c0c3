//! A disk in memory that loses, where it stops, whatever a disk may lose.

ghost use Rattle.std.specs.Prelude.{◌≡◌, ◌≤◌, ◌<◌, ◌+◌, ◌^◌, ◌==◌, ℕ, Some, [], vec_capacity, length, take};
ghost use Rattle.std.specs.Prelude.{slice_range, IfOk, OnOk, OnErr, IsErr, is_err, ◌↔◌, if◌then◌else◌};
ghost use Rattle.oz_world.specs.Calls.{raised, Counts, IsToFail};
ghost use Rattle.oz_world.specs.Faults.{HasCause};
ghost use Rattle.oz_world.specs.Disk.{last_moment, overwritten, Torn, CutShort, Same, Stands, Ticks, LeavesEach};
ghost use Rattle.oz_world.specs.Disk.{IsStable};
ghost use Rattle.oz_world.specs.inner.Now.{contents_of};
ghost use Rattle.oz_world.specs.Record.{none_of, half_of};

use crate::calls::Calls;
use crate::history::History;
use crate::put::put_over;
use crate::{Disk, Failed, OutOfMemory};
use std::alloc::Global;

/// A disk in memory, whose calls fail by number, and which tells what a stop might have left.
#[derive(Drop)]
pub struct MemoryDisk {
    alloc: Global,
    bytes: Vec<u8>,
    room: u64,
    calls: Calls,
    history: History,
    ghost recorded: { bytes.items ≡ contents_of history },
    ghost roomy: { room ≤ vec_capacity bytes },
}

impl MemoryDisk {
    ghost use Rattle.oz_world.specs.MemoryDisk.{disk_bytes, disk_clock, disk_images, disk_left, disk_room, disk_calls};

    /// A disk with these bytes, all of them stable, and room for `room` bytes in all, which it takes
    /// at once. The calls fail whose numbers, counted from 1, stand in `fails`.
    pub fn new(
        alloc: Global,
        bytes: Vec<u8>,
        fails: Vec<u64>,
        room: u64,
    ) -> Result<MemoryDisk, OutOfMemory>
        ensures bytes { IfOk result (λ disk. disk_bytes disk ≡ bytes.items) }
        ensures clock { IfOk result (λ disk. disk_clock disk ≡ 0) }
        ensures stable { IfOk result (λ disk. IsStable (disk_images disk) 0 bytes.items) }
        ensures room { IfOk result (λ disk. disk_room disk ≡ room) }
        ensures fails { IfOk result (λ disk. (disk_calls disk).fails ≡ fails) }
        ensures made { IfOk result (λ disk. (disk_calls disk).made ≡ 0) }
        ensures faults { IfOk result (λ disk. (disk_calls disk).faults ≡ 0) }
    {
        let mut bytes = bytes;
        let first = bytes.to_vec(alloc)?;
        let more = (room as usize).saturating_sub(bytes.len());
        bytes.reserve(more)?;
        Ok(MemoryDisk {
            alloc,
            bytes,
            room,
            calls: Calls::new(fails),
            history: History::new(alloc, first),
        })
    }

    /// What a read gives.
    pub fn bytes(&self) -> &[u8]
        ensures { result.now ≡ disk_bytes self.now }
    {
        &self.bytes
    }

    /// What a stop at this moment may leave: at choice 0 nothing of what no sync followed, at 1 all of
    /// it, and at any other the first half of each write, rounded down, and the whole of each cut.
    pub fn image(&self, alloc: Global, choice: u8) -> Result<Vec<u8>, OutOfMemory>
        ensures image { IfOk result (λ left. disk_images self.now (disk_clock self.now) left.items) }
        ensures none { choice ≡ 0 → IfOk result (λ left. left.items ≡ disk_left none_of self.now) }
        ensures all { choice ≡ 1 → IfOk result (λ left. left.items ≡ disk_bytes self.now) }
        ensures half { 1 < choice → IfOk result (λ left. left.items ≡ disk_left half_of self.now) }
    {
        match choice {
            0 => self.history.left_behind(alloc, false),
            1 => Ok(self.bytes.to_vec(alloc)?),
            _ => self.history.left_behind(alloc, true),
        }
    }

    /// Counts a fault, and lets its moment pass.
    fn fail_in_time(&mut self) -> Failed
        ensures bytes { disk_bytes self.new ≡ disk_bytes self.old }
        ensures room { disk_room self.new ≡ disk_room self.old }
        ensures time { disk_clock self.old < last_moment →
            Ticks Same (disk_clock self.old) (disk_clock self.new) (disk_images self.old)
            (disk_images self.new) }
        ensures still_left { disk_clock self.old < last_moment →
            LeavesEach Same (disk_clock self.old) (disk_clock self.new) (disk_images self.old)
            (disk_images self.new) }
        ensures no_time { last_moment ≤ disk_clock self.old →
            Stands (disk_clock self.old) (disk_clock self.new) (disk_images self.old)
            (disk_images self.new) }
        ensures made { (disk_calls self.new).made ≡ (disk_calls self.old).made }
        ensures fails { (disk_calls self.new).fails ≡ (disk_calls self.old).fails }
        ensures faults { (disk_calls self.new).faults ≡ raised (disk_calls self.old).faults }
        ensures rises { (disk_calls self.old).faults ≤ (disk_calls self.new).faults }
    {
        if self.history.clock < u64::MAX {
            self.history.pass();
        }
        self.calls.fail()
    }
}

impl Disk for MemoryDisk {
    ghost use Rattle.oz_world.specs.MemoryDisk.{disk_bytes, disk_clock, disk_images, disk_left, disk_room, disk_calls};
    ghost use Rattle.oz_world.specs.laws.Present.{disk_present};

    ghost told = { λ disk. Some (disk_bytes disk) };

    ghost clock = { disk_clock };

    ghost image = { disk_images };

    ghost faults = { λ disk. (disk_calls disk).faults };

    ghost read_is_image = { disk_present };

    fn faults(&self) -> u64 {
        self.calls.faults
    }

    fn clock(&self) -> u64 {
        self.history.clock
    }

    fn len(&mut self) -> Result<u64, Failed>
        ensures length { IfOk result (λ n. n ≡ length (disk_bytes self.old)) }
        ensures refused { IsErr result ↔ IsToFail (disk_calls self.old) }
        ensures contents { disk_bytes self.new ≡ disk_bytes self.old }
        ensures time { Stands (disk_clock self.old) (disk_clock self.new) (disk_images self.old)
            (disk_images self.new) }
        ensures counted { Counts (disk_calls self.old) (disk_calls self.new) (is_err result) }
        ensures cause { HasCause (disk_calls self.old).faults (disk_calls self.new).faults result }
        ensures room { disk_room self.new ≡ disk_room self.old }
    {
        if self.calls.count() {
            return Err(self.calls.fail());
        }
        Ok(self.bytes.len() as u64)
    }

    fn read_at(&mut self, pos: u64, into: &mut [u8]) -> Result<(), Failed>
        requires { pos + length into.old ≤ length (disk_bytes self.old) }
        ensures bytes { OnOk result (into.new ≡ slice_range (disk_bytes self.old) pos (pos + length into.old)) }
        ensures refused { IsErr result ↔ IsToFail (disk_calls self.old) }
        ensures contents { disk_bytes self.new ≡ disk_bytes self.old }
        ensures time { Stands (disk_clock self.old) (disk_clock self.new) (disk_images self.old)
            (disk_images self.new) }
        ensures counted { Counts (disk_calls self.old) (disk_calls self.new) (is_err result) }
        ensures cause { HasCause (disk_calls self.old).faults (disk_calls self.new).faults result }
        ensures room { disk_room self.new ≡ disk_room self.old }
    {
        if self.calls.count() {
            return Err(self.calls.fail());
        }
        let start = pos as usize;
        into.copy_from_slice(&self.bytes[start..start + into.len()]);
        Ok(())
    }

    fn write_at(&mut self, pos: u64, bytes: &[u8]) -> Result<(), Failed>
        requires { pos ≤ length (disk_bytes self.old) }
        ensures written { OnOk result (disk_bytes self.new ≡ overwritten pos bytes.now (disk_bytes self.old)) }
        ensures failed { OnErr result (disk_bytes self.new ≡ disk_bytes self.old) }
        ensures within { OnOk result (pos + length bytes.now < 2 ^ 64) }
        ensures refused { IsToFail (disk_calls self.old) → IsErr result }
        ensures too_long { disk_room self.old < pos + length bytes.now → IsErr result }
        ensures time { disk_clock self.old < last_moment →
            Ticks (Torn pos (length bytes.now)) (disk_clock self.old) (disk_clock self.new)
            (disk_images self.old) (disk_images self.new) }
        ensures left { disk_clock self.old < last_moment → OnOk result
            (LeavesEach (Torn pos (length bytes.now)) (disk_clock self.old) (disk_clock self.new)
            (disk_images self.old) (disk_images self.new)) }
        ensures still_left { disk_clock self.old < last_moment → OnErr result
            (LeavesEach Same (disk_clock self.old) (disk_clock self.new) (disk_images self.old)
            (disk_images self.new)) }
        ensures no_time { last_moment ≤ disk_clock self.old →
            IsErr result
            × Stands (disk_clock self.old) (disk_clock self.new) (disk_images self.old)
            (disk_images self.new) }
        ensures counted { Counts (disk_calls self.old) (disk_calls self.new) (is_err result) }
        ensures cause { HasCause (disk_calls self.old).faults (disk_calls self.new).faults result }
        ensures room { disk_room self.new ≡ disk_room self.old }
    {
        let refused = self.calls.count();
        let size = bytes.len() as u64;
        if refused || self.history.clock == u64::MAX || self.room < pos || self.room - pos < size {
            return Err(self.fail_in_time());
        }
        if self.history.write(self.alloc, pos, bytes).is_err() {
            return Err(self.calls.fail());
        }
        put_over(&mut self.bytes, pos as usize, bytes).unwrap();
        Ok(())
    }

    fn cut(&mut self, size: u64) -> Result<(), Failed>
        requires { size ≤ length (disk_bytes self.old) }
        ensures cut { OnOk result (disk_bytes self.new ≡ take size (disk_bytes self.old)) }
        ensures failed { OnErr result (disk_bytes self.new ≡ disk_bytes self.old) }
        ensures refused { IsToFail (disk_calls self.old) → IsErr result }
        ensures time { disk_clock self.old < last_moment →
            Ticks (CutShort size) (disk_clock self.old) (disk_clock self.new)
            (disk_images self.old) (disk_images self.new) }
        ensures left { disk_clock self.old < last_moment → OnOk result
            (LeavesEach (CutShort size) (disk_clock self.old) (disk_clock self.new)
            (disk_images self.old) (disk_images self.new)) }
        ensures still_left { disk_clock self.old < last_moment → OnErr result
            (LeavesEach Same (disk_clock self.old) (disk_clock self.new) (disk_images self.old)
            (disk_images self.new)) }
        ensures no_time { last_moment ≤ disk_clock self.old →
            IsErr result
            × Stands (disk_clock self.old) (disk_clock self.new) (disk_images self.old)
            (disk_images self.new) }
        ensures counted { Counts (disk_calls self.old) (disk_calls self.new) (is_err result) }
        ensures cause { HasCause (disk_calls self.old).faults (disk_calls self.new).faults result }
        ensures room { disk_room self.new ≡ disk_room self.old }
    {
        let refused = self.calls.count();
        if refused || self.history.clock == u64::MAX {
            return Err(self.fail_in_time());
        }
        if self.history.cut(size).is_err() {
            return Err(self.calls.fail());
        }
        self.bytes.truncate(size as usize);
        Ok(())
    }

    fn sync(&mut self) -> Result<(), Failed>
        ensures contents { disk_bytes self.new ≡ disk_bytes self.old }
        ensures stable { OnOk result
            (IsStable (disk_images self.new) (disk_clock self.new) (disk_bytes self.old)) }
        ensures refused { disk_clock self.old < last_moment →
            IsErr result ↔ IsToFail (disk_calls self.old) }
        ensures time { disk_clock self.old < last_moment →
            Ticks Same (disk_clock self.old) (disk_clock self.new) (disk_images self.old)
            (disk_images self.new) }
        ensures still_left { disk_clock self.old < last_moment → OnErr result
            (LeavesEach Same (disk_clock self.old) (disk_clock self.new) (disk_images self.old)
            (disk_images self.new)) }
        ensures no_time { last_moment ≤ disk_clock self.old →
            IsErr result
            × Stands (disk_clock self.old) (disk_clock self.new) (disk_images self.old)
            (disk_images self.new) }
        ensures counted { Counts (disk_calls self.old) (disk_calls self.new) (is_err result) }
        ensures cause { HasCause (disk_calls self.old).faults (disk_calls self.new).faults result }
        ensures room { disk_room self.new ≡ disk_room self.old }
    {
        let refused = self.calls.count();
        if refused || self.history.clock == u64::MAX {
            return Err(self.fail_in_time());
        }
        self.history.sync();
        Ok(())
    }
}
