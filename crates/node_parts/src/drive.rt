//! A disk in memory, before something is loaded from it and after.
//!
//! Before: `is BYTES` says what it has, `fails NUMBERS` which calls of it fail, and `room NUMBER` how many bytes there is room for.
//! Once nothing uses it any more: `has BYTES` and `keeps BYTES` give nothing where it has these bytes, and so has whatever a stop leaves;
//! `length`, `clock` and `faults` ask it, and `image CHOICE` begins anew with what a stop leaves of it.

use crate::told::Stuck;
use crate::words::{bytes, number, numbers, parted, small};
use oz_world::{Disk, MemoryDisk};
use std::alloc::Global;

/// What a disk begins with, and the disk once nothing uses it any more.
#[derive(Drop)]
pub struct Drive {
    bytes: Vec<u8>,
    fails: Vec<u64>,
    room: u64,
    pub disk: Option<MemoryDisk>,
}

impl Drive {
    pub fn new(alloc: Global, room: u64) -> Drive {
        Drive {
            bytes: Vec::new(alloc),
            fails: Vec::new(alloc),
            room,
            disk: None,
        }
    }

    /// A disk to load from. With `cut SIZE` it has only so many of the bytes, with `set PLACE BYTE` another byte at a place.
    pub fn begin(&self, alloc: Global, words: &str) -> Result<MemoryDisk, Stuck> {
        let mut bytes = self.bytes.to_vec(alloc)?;
        change(&mut bytes, words)?;
        let fails = self.fails.to_vec(alloc)?;
        Ok(MemoryDisk::new(alloc, bytes, fails, self.room)?)
    }

    /// A disk with what a stop leaves of the one that was used.
    pub fn begin_with_image(&self, alloc: Global, choice: u8) -> Result<MemoryDisk, Stuck> {
        let left = self.image(alloc, choice)?;
        Ok(MemoryDisk::new(alloc, left, Vec::new(alloc), self.room)?)
    }

    fn image(&self, alloc: Global, choice: u8) -> Result<Vec<u8>, Stuck> {
        match &self.disk {
            Some(disk) => Ok(disk.image(alloc, choice)?),
            None => Err(Stuck::Unread),
        }
    }

    /// Says with what it begins, or asks what was used.
    pub fn call(&mut self, alloc: Global, words: &str, came: &mut String) -> Result<(), Stuck> {
        let (name, behind) = parted(words);
        match name {
            "is" => self.bytes = bytes(alloc, behind)?,
            "fails" => self.fails = numbers(alloc, behind)?,
            "room" => self.room = number(behind)?,
            "image" => {
                self.bytes = self.image(alloc, small(behind)?)?;
                self.fails = Vec::new(alloc);
            }
            _ => return self.ask(alloc, name, behind, came),
        }
        Ok(())
    }

    fn ask(
        &mut self,
        alloc: Global,
        name: &str,
        words: &str,
        came: &mut String,
    ) -> Result<(), Stuck> {
        match &mut self.disk {
            Some(disk) => tell(alloc, disk, name, words, came),
            None => Err(Stuck::Unread),
        }
    }
}

/// Cuts bytes off, or sets another byte at a place.
fn change(bytes: &mut Vec<u8>, words: &str) -> Result<(), Stuck> {
    let (name, behind) = parted(words);
    let (first, second) = parted(behind);
    match name {
        "" => Ok(()),
        "cut" => {
            bytes.truncate(number(first)? as usize);
            Ok(())
        }
        "set" => set(bytes, number(first)?, small(second)?),
        _ => Err(Stuck::Unread),
    }
}

fn set(bytes: &mut [u8], place: u64, value: u8) -> Result<(), Stuck> {
    match bytes.get_mut(place as usize) {
        Some(byte) => {
            *byte = value;
            Ok(())
        }
        None => Err(Stuck::Unread),
    }
}

/// What a disk gives.
fn tell(
    alloc: Global,
    disk: &mut MemoryDisk,
    name: &str,
    words: &str,
    came: &mut String,
) -> Result<(), Stuck> {
    match name {
        "has" => tell_bytes(disk.bytes(), &bytes(alloc, words)?, came),
        "keeps" => tell_kept(alloc, disk, &bytes(alloc, words)?, came),
        _ => { tell_number(disk, name, came) }
    }
}

fn tell_number(disk: &mut MemoryDisk, name: &str, came: &mut String) -> Result<(), Stuck> {
    match name {
        "length" => write!(came, "{:?}", disk.len())?,
        "clock" => write!(came, "{}", disk.clock())?,
        "faults" => write!(came, "{}", disk.faults())?,
        _ => return Err(Stuck::Unread),
    }
    Ok(())
}

/// The place of the first byte that differs, where one does or there are more of one kind.
fn first_other(one: &[u8], other: &[u8]) -> usize {
    for (place, byte) in one.iter().enumerate() {
        if other.get(place) != Some(byte) {
            return place;
        }
    }
    one.len()
}

/// Nothing where these bytes are those that are wanted, and else what differs.
fn tell_bytes(found: &[u8], wanted: &[u8], came: &mut String) -> Result<(), Stuck> {
    if found != wanted {
        let place = first_other(found, wanted);
        write!(came, "{} bytes, others from {place} on;", found.len())?;
    }
    Ok(())
}

/// The same of a disk, and of whatever a stop leaves of it.
fn tell_kept(
    alloc: Global,
    disk: &MemoryDisk,
    wanted: &[u8],
    came: &mut String,
) -> Result<(), Stuck> {
    tell_bytes(disk.bytes(), wanted, came)?;
    for choice in 0..3 {
        tell_bytes(&disk.image(alloc, choice)?, wanted, came)?;
    }
    Ok(())
}
