//! A disk in memory whose calls fail once a fuse is blown.

ghost use Rattle.std.specs.Prelude.{◌≡◌, ◌≤◌, ◌<◌, ◌+◌, ◌^◌, IsTrue, true, false, not, Some, length, take};
ghost use Rattle.std.specs.Prelude.{slice_range, IfOk, OnOk, OnErr, IsErr, is_err};
ghost use Rattle.oz_world.specs.Calls.{raised};
ghost use Rattle.oz_world.specs.Disk.{last_moment, overwritten, Torn, CutShort, Same, Stands, Ticks, LeavesEach};
ghost use Rattle.oz_world.specs.Disk.{IsStable};
ghost use Rattle.oz_world.specs.Faults.{HasCause};
ghost use Rattle.oz_world.specs.MemoryDisk.{disk_clock, disk_images};
ghost use Rattle.oz_world.specs.Moments.{Elapses};

use crate::Fuse;
use oz_world::{Disk, Failed, MemoryDisk};

/// A disk in memory behind a fuse. `len`, `read_at`, `write_at`, `cut` and `sync` take one each of the calls that are left in
/// the fuse. Where none is left the disk is blown: they all fail from then on, the disk behind the fuse isn't called, and a
/// stop leaves what it might have left at the moment when the fuse blew.
#[derive(Drop)]
pub struct FusedDisk {
    inner: MemoryDisk,
    fuse: Fuse,
    blown: bool,
    /// The moments that passed since the fuse blew.
    late: u64,
    faults: u64,
    ghost early: { blown ≡ false → late ≡ 0 },
    ghost timed: { disk_clock inner + late ≤ last_moment },
}

impl FusedDisk {
    ghost use Rattle.oz_fused.specs.FusedDisk.{inner_of, is_blown, late_of, fused_faults, fused_clock, fused_images};

    /// A disk with the bytes, the moment and the images of the one behind the fuse, and without a fault so far.
    pub fn new(inner: MemoryDisk, fuse: Fuse) -> FusedDisk
        ensures inner { inner_of result ≡ inner }
        ensures clock { fused_clock result ≡ disk_clock inner }
        ensures time { Elapses (disk_clock inner) (fused_clock result) (disk_images inner) (fused_images result) }
        ensures whole { is_blown result ≡ false }
        ensures faults { fused_faults result ≡ 0 }
    {
        FusedDisk {
            inner,
            fuse,
            blown: false,
            late: 0,
            faults: 0,
        }
    }

    /// The disk behind the fuse, which tells its bytes and what a stop may leave.
    pub fn inner(&self) -> &MemoryDisk
        ensures { result.now ≡ inner_of self.now }
    {
        &self.inner
    }

    /// The disk behind the fuse, on which calls pass again.
    pub fn into_inner(self) -> MemoryDisk
        ensures { result ≡ inner_of self }
    {
        self.inner
    }

    /// Takes a call from the fuse, and says whether it passes.
    fn passes(&mut self) -> bool
        ensures answer { is_blown self.new ≡ not result }
        ensures stays { is_blown self.old ≡ true → is_blown self.new ≡ true }
        ensures inner { inner_of self.new ≡ inner_of self.old }
        ensures late { late_of self.new ≡ late_of self.old }
        ensures early { IsTrue result → late_of self.old ≡ 0 }
        ensures faults { fused_faults self.new ≡ fused_faults self.old }
    {
        self.blown = self.blown || !self.fuse.take();
        !self.blown
    }

    /// Counts a fault.
    fn fail(&mut self) -> Failed
        ensures faults { fused_faults self.new ≡ raised (fused_faults self.old) }
        ensures rises { fused_faults self.old ≤ fused_faults self.new }
        ensures inner { inner_of self.new ≡ inner_of self.old }
        ensures late { late_of self.new ≡ late_of self.old }
        ensures blown { is_blown self.new ≡ is_blown self.old }
    {
        self.faults = self.faults.saturating_add(1);
        Failed
    }

    /// Counts a fault of a blown disk, and lets its moment pass, in which nothing changes.
    fn fail_late(&mut self) -> Failed
        requires { is_blown self.old ≡ true }
        ensures faults { fused_faults self.new ≡ raised (fused_faults self.old) }
        ensures rises { fused_faults self.old ≤ fused_faults self.new }
        ensures inner { inner_of self.new ≡ inner_of self.old }
        ensures time { fused_clock self.old < last_moment →
            Ticks Same (fused_clock self.old) (fused_clock self.new) (fused_images self.old)
            (fused_images self.new) }
        ensures still_left { fused_clock self.old < last_moment →
            LeavesEach Same (fused_clock self.old) (fused_clock self.new) (fused_images self.old)
            (fused_images self.new) }
        ensures no_time { last_moment ≤ fused_clock self.old →
            Stands (fused_clock self.old) (fused_clock self.new) (fused_images self.old)
            (fused_images self.new) }
        ensures blown { is_blown self.new ≡ is_blown self.old }
    {
        if self.clock() < u64::MAX {
            self.late += 1;
        }
        self.fail()
    }
}

impl Disk for FusedDisk {
    ghost use Rattle.oz_fused.specs.FusedDisk.{fused_bytes, fused_clock, fused_images, fused_faults, IsFused};
    ghost use Rattle.oz_fused.specs.laws.Present.{fused_present};

    ghost told = { λ disk. Some (fused_bytes disk) };

    ghost clock = { fused_clock };

    ghost image = { fused_images };

    ghost faults = { fused_faults };

    ghost read_is_image = { fused_present };

    fn faults(&self) -> u64 {
        self.faults
    }

    fn clock(&self) -> u64 {
        self.inner.clock() + self.late
    }

    fn len(&mut self) -> Result<u64, Failed>
        ensures length { IfOk result (λ n. n ≡ length (fused_bytes self.old)) }
        ensures contents { fused_bytes self.new ≡ fused_bytes self.old }
        ensures time { Stands (fused_clock self.old) (fused_clock self.new) (fused_images self.old)
            (fused_images self.new) }
        ensures fuse { IsFused self.old self.new (is_err result) }
        ensures cause { HasCause (fused_faults self.old) (fused_faults self.new) result }
    {
        if self.passes()
            && let Ok(size) = self.inner.len()
        {
            return Ok(size);
        }
        Err(self.fail())
    }

    fn read_at(&mut self, pos: u64, into: &mut [u8]) -> Result<(), Failed>
        requires { pos + length into.old ≤ length (fused_bytes self.old) }
        ensures bytes { OnOk result (into.new ≡ slice_range (fused_bytes self.old) pos (pos + length into.old)) }
        ensures contents { fused_bytes self.new ≡ fused_bytes self.old }
        ensures time { Stands (fused_clock self.old) (fused_clock self.new) (fused_images self.old)
            (fused_images self.new) }
        ensures fuse { IsFused self.old self.new (is_err result) }
        ensures cause { HasCause (fused_faults self.old) (fused_faults self.new) result }
    {
        if self.passes() && self.inner.read_at(pos, into).is_ok() {
            return Ok(());
        }
        Err(self.fail())
    }

    fn write_at(&mut self, pos: u64, bytes: &[u8]) -> Result<(), Failed>
        requires { pos ≤ length (fused_bytes self.old) }
        ensures written { OnOk result (fused_bytes self.new ≡ overwritten pos bytes.now (fused_bytes self.old)) }
        ensures failed { OnErr result (fused_bytes self.new ≡ fused_bytes self.old) }
        ensures within { OnOk result (pos + length bytes.now < 2 ^ 64) }
        ensures time { fused_clock self.old < last_moment →
            Ticks (Torn pos (length bytes.now)) (fused_clock self.old) (fused_clock self.new)
            (fused_images self.old) (fused_images self.new) }
        ensures left { fused_clock self.old < last_moment → OnOk result
            (LeavesEach (Torn pos (length bytes.now)) (fused_clock self.old) (fused_clock self.new)
            (fused_images self.old) (fused_images self.new)) }
        ensures still_left { fused_clock self.old < last_moment → OnErr result
            (LeavesEach Same (fused_clock self.old) (fused_clock self.new) (fused_images self.old)
            (fused_images self.new)) }
        ensures no_time { last_moment ≤ fused_clock self.old →
            IsErr result
            × Stands (fused_clock self.old) (fused_clock self.new) (fused_images self.old)
            (fused_images self.new) }
        ensures fuse { IsFused self.old self.new (is_err result) }
        ensures cause { HasCause (fused_faults self.old) (fused_faults self.new) result }
    {
        if !self.passes() {
            return Err(self.fail_late());
        }
        if self.inner.write_at(pos, bytes).is_err() {
            return Err(self.fail());
        }
        Ok(())
    }

    fn cut(&mut self, size: u64) -> Result<(), Failed>
        requires { size ≤ length (fused_bytes self.old) }
        ensures cut { OnOk result (fused_bytes self.new ≡ take size (fused_bytes self.old)) }
        ensures failed { OnErr result (fused_bytes self.new ≡ fused_bytes self.old) }
        ensures time { fused_clock self.old < last_moment →
            Ticks (CutShort size) (fused_clock self.old) (fused_clock self.new)
            (fused_images self.old) (fused_images self.new) }
        ensures left { fused_clock self.old < last_moment → OnOk result
            (LeavesEach (CutShort size) (fused_clock self.old) (fused_clock self.new)
            (fused_images self.old) (fused_images self.new)) }
        ensures still_left { fused_clock self.old < last_moment → OnErr result
            (LeavesEach Same (fused_clock self.old) (fused_clock self.new) (fused_images self.old)
            (fused_images self.new)) }
        ensures no_time { last_moment ≤ fused_clock self.old →
            IsErr result
            × Stands (fused_clock self.old) (fused_clock self.new) (fused_images self.old)
            (fused_images self.new) }
        ensures fuse { IsFused self.old self.new (is_err result) }
        ensures cause { HasCause (fused_faults self.old) (fused_faults self.new) result }
    {
        if !self.passes() {
            return Err(self.fail_late());
        }
        if self.inner.cut(size).is_err() {
            return Err(self.fail());
        }
        Ok(())
    }

    fn sync(&mut self) -> Result<(), Failed>
        ensures contents { fused_bytes self.new ≡ fused_bytes self.old }
        ensures stable { OnOk result
            (IsStable (fused_images self.new) (fused_clock self.new) (fused_bytes self.old)) }
        ensures time { fused_clock self.old < last_moment →
            Ticks Same (fused_clock self.old) (fused_clock self.new) (fused_images self.old)
            (fused_images self.new) }
        ensures still_left { fused_clock self.old < last_moment → OnErr result
            (LeavesEach Same (fused_clock self.old) (fused_clock self.new) (fused_images self.old)
            (fused_images self.new)) }
        ensures no_time { last_moment ≤ fused_clock self.old →
            IsErr result
            × Stands (fused_clock self.old) (fused_clock self.new) (fused_images self.old)
            (fused_images self.new) }
        ensures fuse { IsFused self.old self.new (is_err result) }
        ensures cause { HasCause (fused_faults self.old) (fused_faults self.new) result }
    {
        if !self.passes() {
            return Err(self.fail_late());
        }
        if self.inner.sync().is_err() {
            return Err(self.fail());
        }
        Ok(())
    }
}
