//! A journal over a disk in memory.
//!
//! `disk WORDS` is what `drive.rt` says of a disk, one of 4,096 bytes. `load` gives the bodies, each with the place of its first byte and its
//! bytes, as `5 [97, 98];`, or their number and that of all their bytes where there are a hundred. `load cut SIZE` loads only so
//! many bytes, and `load set PLACE BYTE` loads them with another byte at a place. Then `append BYTES` gives the moment from which on the body is
//! stable, and `clear`, `stopped` and `faults` are called; `end` hands the disk back.
//! `no-memory` gives the text of that fault.

use crate::drive::Drive;
use crate::going::{Subject, judge};
use crate::told::Stuck;
use crate::words::bytes;
use case_files::{Judged, Statement};
use oz_journal::{Body, Frame, Journal, LONGEST_FRAME, LoadFault};
use oz_world::MemoryDisk;
use std::alloc::{AllocError, Global};

/// How many bytes a disk has room for, where a case says nothing else.
const ROOM: u64 = 4096;

/// So many bodies are told one by one.
const FEW: usize = 100;

/// A journal, and its disk when there is none.
#[derive(Drop)]
struct Kept {
    drive: Drive,
    journal: Option<Journal<MemoryDisk>>,
}

impl Kept {
    /// Loads a disk, which comes back where it can't be.
    fn load(&mut self, alloc: Global, disk: MemoryDisk, came: &mut String) -> Result<(), Stuck> {
        match Journal::load(alloc, disk) {
            Ok((journal, bodies)) => {
                self.journal = Some(journal);
                tell_bodies(&bodies, came)
            }
            Err((disk, fault)) => {
                self.drive.disk = Some(disk);
                write!(came, "{fault}")?;
                Ok(())
            }
        }
    }

    fn end(&mut self) {
        if let Some(journal) = self.journal.take() {
            self.drive.disk = Some(journal.into_disk());
        }
    }

    /// A call of what was loaded.
    fn ask(
        &mut self,
        alloc: Global,
        name: &str,
        words: &str,
        came: &mut String,
    ) -> Result<(), Stuck> {
        match &mut self.journal {
            Some(journal) => ask(alloc, journal, name, words, came),
            None => Err(Stuck::Unread),
        }
    }
}

impl Subject for Kept {
    fn call(
        &mut self,
        alloc: Global,
        name: &str,
        words: &str,
        came: &mut String,
    ) -> Result<(), Stuck> {
        match name {
            "disk" => self.drive.call(alloc, words, came),
            "load" => {
                let disk = self.drive.begin(alloc, words)?;
                self.load(alloc, disk, came)
            }
            "end" => {
                self.end();
                Ok(())
            }
            "no-memory" => {
                write!(came, "{}", LoadFault::OutOfMemory)?;
                Ok(())
            }
            _ => self.ask(alloc, name, words, came),
        }
    }

    fn is_stopped(&self) -> bool {
        match &self.journal {
            Some(journal) => journal.stopped(),
            None => true,
        }
    }

    fn show(&self, _alloc: Global, said: &str, came: &mut String) -> Result<(), Stuck> {
        came.push_str(said)?;
        Ok(())
    }

    fn images(&self) -> u8 {
        3
    }

    fn show_left(&mut self, alloc: Global, image: u8, came: &mut String) -> Result<(), Stuck> {
        self.end();
        let disk = self.drive.begin_with_image(alloc, image)?;
        show_disk(alloc, disk, came)
    }
}

/// What is loaded of a disk.
fn show_disk(alloc: Global, disk: MemoryDisk, came: &mut String) -> Result<(), Stuck> {
    match Journal::load(alloc, disk) {
        Ok((_journal, bodies)) => tell_bodies(&bodies, came),
        Err((_disk, fault)) => {
            write!(came, "{fault}")?;
            Ok(())
        }
    }
}

fn tell_bodies(bodies: &[Body], came: &mut String) -> Result<(), Stuck> {
    if bodies.len() < FEW {
        return tell_each(bodies, came);
    }
    let mut size = 0u64;
    for body in bodies {
        size = size.saturating_add(body.bytes.len() as u64);
    }
    write!(came, "{} bodies of {size} bytes", bodies.len())?;
    Ok(())
}

fn tell_each(bodies: &[Body], came: &mut String) -> Result<(), Stuck> {
    for body in bodies {
        if !came.is_empty() {
            came.push(' ')?;
        }
        write!(came, "{} {:?};", body.at, body.bytes.items())?;
    }
    Ok(())
}

fn ask(
    alloc: Global,
    journal: &mut Journal<MemoryDisk>,
    name: &str,
    words: &str,
    came: &mut String,
) -> Result<(), Stuck> {
    match name {
        "append" => append(alloc, journal, words, came),
        "clear" => clear(journal, came),
        "stopped" => {
            write!(came, "{}", journal.stopped())?;
            Ok(())
        }
        "faults" => {
            write!(came, "{}", journal.faults())?;
            Ok(())
        }
        _ => Err(Stuck::Unread),
    }
}

/// The bytes that words say, as a journal takes them.
fn framed(alloc: Global, words: &str) -> Result<Vec<u8>, Stuck> {
    let mut frame = Frame::new(alloc)?;
    frame.put(&bytes(alloc, words)?)?;
    Ok(frame.framed()?)
}

/// Adds a body. A journal that has stopped takes none.
fn append(
    alloc: Global,
    journal: &mut Journal<MemoryDisk>,
    words: &str,
    came: &mut String,
) -> Result<(), Stuck> {
    let mut framed = framed(alloc, words)?;
    if journal.stopped() || framed.len() < 5 || framed.len() > LONGEST_FRAME {
        return Err(Stuck::Unread);
    }
    match journal.append(&mut framed) {
        Ok(moment) => write!(came, "{moment}")?,
        Err(_) => came.push_str("the disk failed")?,
    }
    Ok(())
}

/// Takes all bodies away. A journal that has stopped does nothing more.
fn clear(journal: &mut Journal<MemoryDisk>, came: &mut String) -> Result<(), Stuck> {
    if journal.stopped() {
        return Err(Stuck::Unread);
    }
    match journal.clear() {
        Ok(()) => came.push_str("done")?,
        Err(_) => came.push_str("the disk failed")?,
    }
    Ok(())
}

/// Judges a case of a journal.
pub fn judge_journal(alloc: Global, case: &[Statement]) -> Result<Judged, AllocError> {
    let mut kept = Kept {
        drive: Drive::new(alloc, ROOM),
        journal: None,
    };
    judge(alloc, &mut kept, case)
}
