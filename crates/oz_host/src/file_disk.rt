//! A disk that is a file of the system.

ghost use Rattle.std.specs.Prelude.{◌≡◌, ◌≤◌, ◌<ℤ◌, pos, None, IfOk, IsSomeAnd};
ghost use Rattle.std.specs.Option.{ForSome};
ghost use Rattle.std.specs.Fd.{file_raw_fd};
ghost use Rattle.std.proofs.lemmas.Option.{none-some};
ghost use Rattle.oz_world.specs.Calls.{raised};
ghost use Rattle.oz_world.specs.Faults.{HasCause};

use oz_world::{Disk, Failed};
use std::fs::{File, OpenOptions};
use std::io;
use std::os::fd::AsRawFd;
use std::os::unix::fs::FileExt;
use std::rt::Files;

/// Where a file lies.
#[derive(Drop)]
struct FilePlace<'a, R> {
    rt: &'a R,
    folder: &'a str,
    path: String,
}

/// A disk that is a file of the system. What the file contains, and what a stop leaves of it, is the
/// system's to say, so it tells neither. The file is opened by the first call that needs it.
#[derive(Drop)]
pub struct FileDisk<'a, R> {
    /// None where there is no such file, and once it was opened.
    place: Option<FilePlace<'a, R>>,
    /// None before the file is opened, and where it can't be. Then each call fails.
    file: Option<File>,
    clock: u64,
    faults: u64,
    ghost apart: { ForSome file (λ found. pos 2 <ℤ file_raw_fd found) },
}

impl<'a, R: Files<File = File>> FileDisk<'a, R> {
    /// A disk whose calls all fail.
    pub fn without_file() -> FileDisk<'a, R>
        ensures place { result.place ≡ None }
        ensures file { result.file ≡ None }
        ensures clock { result.clock ≡ 0 }
        ensures faults { result.faults ≡ 0 }
    {
        FileDisk {
            place: None,
            file: None,
            clock: 0,
            faults: 0,
        }
    }

    /// The file at a path in a folder, which is made where it isn't there. Where it can't be opened,
    /// the disk's calls fail.
    pub fn at(rt: &'a R, folder: &'a str, path: String) -> FileDisk<'a, R>
        ensures place { IsSomeAnd result.place (λ place. (place.folder.now ≡ folder.now) × (place.path ≡ path)) }
        ensures file { result.file ≡ None }
        ensures clock { result.clock ≡ 0 }
        ensures faults { result.faults ≡ 0 }
    {
        FileDisk {
            place: Some(FilePlace { rt, folder, path }),
            file: None,
            clock: 0,
            faults: 0,
        }
    }

    /// Opens the file, where that wasn't tried before.
    fn open(&mut self)
        ensures clock { self.new.clock ≡ self.old.clock }
        ensures faults { self.new.faults ≡ self.old.faults }
        ensures once { self.new.place ≡ None }
    {
        if let Some(place) = self.place.take() {
            self.file = opened(place.rt, place.folder, &place.path).ok();
        }
    }

    /// Counts a fault.
    fn fail(&mut self) -> Failed
        ensures clock { self.new.clock ≡ self.old.clock }
        ensures faults { self.new.faults ≡ raised self.old.faults }
        ensures rises { self.old.faults ≤ self.new.faults }
    {
        self.faults = self.faults.saturating_add(1);
        Failed
    }

    /// Hands on what the system answered, and counts a fault where it failed.
    fn heard<T: Drop>(&mut self, answer: Option<T>) -> Result<T, Failed>
        ensures clock { self.new.clock ≡ self.old.clock }
        ensures cause { HasCause self.old.faults self.new.faults result }
    {
        match answer {
            Some(value) => Ok(value),
            None => Err(self.fail()),
        }
    }
}

/// A file that is read and written, and no standard stream. It is made where it isn't there, and its
/// folder is synced, so that a stop leaves it there. It is locked until it is closed, and isn't opened
/// where another run has locked it.
fn opened<R: Files<File = File>>(rt: &R, folder: &str, path: &str) -> io::Result<File>
    ensures { IfOk result (λ found. pos 2 <ℤ file_raw_fd found) }
{
    let folder = File::open(rt, folder)?;
    let mut how = OpenOptions::new();
    how.read(true).write(true).create(true);
    let file = how.open(rt, path)?;
    if file.as_raw_fd() <= 2 {
        return Err(io::ErrorKind::Unsupported.into());
    }
    file.try_lock()?;
    folder.sync_all()?;
    Ok(file)
}

/// The length of a file.
fn length_of(file: &File) -> io::Result<u64> {
    Ok(file.metadata()?.len())
}

impl<R: Files<File = File>> Disk for FileDisk<'_, R> {
    ghost told = { λ _. None };

    ghost clock = { λ disk. disk.clock };

    ghost image = { λ _ _ _. ⊥ };

    ghost faults = { λ disk. disk.faults };

    ghost read_is_image = { λ _ bytes h. none-some bytes h };

    fn faults(&self) -> u64 {
        self.faults
    }

    fn clock(&self) -> u64 {
        self.clock
    }

    fn len(&mut self) -> Result<u64, Failed> {
        self.open();
        let answer = match &self.file {
            Some(file) => length_of(file).ok(),
            None => None,
        };
        self.heard(answer)
    }

    fn read_at(&mut self, pos: u64, into: &mut [u8]) -> Result<(), Failed> {
        self.open();
        let answer = match &self.file {
            Some(file) => file.read_exact_at(into, pos).ok(),
            None => None,
        };
        self.heard(answer)
    }

    fn write_at(&mut self, pos: u64, bytes: &[u8]) -> Result<(), Failed> {
        if self.clock == u64::MAX {
            return Err(self.fail());
        }
        self.clock += 1;
        if pos.checked_add(bytes.len() as u64).is_none() {
            return Err(self.fail());
        }
        self.open();
        let answer = match &self.file {
            Some(file) => file.write_all_at(bytes, pos).ok(),
            None => None,
        };
        self.heard(answer)
    }

    fn cut(&mut self, size: u64) -> Result<(), Failed> {
        if self.clock == u64::MAX {
            return Err(self.fail());
        }
        self.clock += 1;
        self.open();
        let answer = match &self.file {
            Some(file) => file.set_len(size).ok(),
            None => None,
        };
        self.heard(answer)
    }

    fn sync(&mut self) -> Result<(), Failed> {
        if self.clock == u64::MAX {
            return Err(self.fail());
        }
        self.clock += 1;
        self.open();
        let answer = match &self.file {
            Some(file) => file.sync_all().ok(),
            None => None,
        };
        self.heard(answer)
    }
}

#[cfg(test)]
mod tests {
    use super::FileDisk;
    use oz_world::Disk;
    use std::fs::{File, remove_file};
    use std::rt::Files;
    use std::test::Fail;

    fn disk_at<'a, R: Files<File = File>>(rt: &'a R, path: String) -> FileDisk<'a, R> {
        FileDisk::at(rt, ".", path)
    }

    /// While a disk has its file open, each call of another disk over that file fails and does nothing.
    #[test]
    fn a_file_is_one_disks_at_a_time(rt: HostRuntime) -> Result<(), Fail> {
        let alloc = rt.alloc();
        let mut first = disk_at(&rt, String::from_str(alloc, "manager")?);
        let mut second = disk_at(&rt, String::from_str(alloc, "manager")?);
        let mut third = disk_at(&rt, String::from_str(alloc, "manager")?);
        assert!(rt; first.write_at(0, b"abc").is_ok());
        assert!(rt; second.len().is_err());
        assert!(rt; second.write_at(0, b"x").is_err());
        assert!(rt; second.cut(0).is_err());
        assert!(rt; second.sync().is_err());
        assert_eq!(rt; second.faults(), 4);
        let mut bytes = [0u8; 3];
        assert!(rt; first.read_at(0, &mut bytes).is_ok());
        assert_eq!(rt; bytes, *b"abc");
        assert_eq!(rt; first.faults(), 0);
        drop(first);
        assert!(rt; matches!(third.len(), Ok(3)));
        remove_file(&rt, "manager")?;
        Ok(())
    }

    /// Bytes stand where they were written, also once the file was closed, and a cut leaves those before it.
    #[test]
    fn bytes_stand_where_they_were_written(rt: HostRuntime) -> Result<(), Fail> {
        let alloc = rt.alloc();
        let mut disk = disk_at(&rt, String::from_str(alloc, "places")?);
        assert!(rt; disk.cut(0).is_ok());
        assert!(rt; disk.write_at(0, b"abcdef").is_ok());
        assert!(rt; disk.write_at(4, b"XYZ").is_ok());
        assert!(rt; matches!(disk.len(), Ok(7)));
        assert!(rt; disk.cut(6).is_ok());
        assert!(rt; disk.sync().is_ok());
        assert_eq!(rt; disk.clock(), 5);
        drop(disk);
        let mut again = disk_at(&rt, String::from_str(alloc, "places")?);
        assert!(rt; matches!(again.len(), Ok(6)));
        let mut bytes = [0u8; 4];
        assert!(rt; again.read_at(2, &mut bytes).is_ok());
        assert_eq!(rt; bytes, *b"cdXY");
        assert!(rt; again.read_at(0, &mut bytes).is_ok());
        assert_eq!(rt; bytes, *b"abcd");
        assert_eq!(rt; again.faults(), 0);
        assert!(rt; again.read_at(3, &mut bytes).is_err());
        assert_eq!(rt; again.faults(), 1);
        drop(again);
        remove_file(&rt, "places")?;
        Ok(())
    }
}
