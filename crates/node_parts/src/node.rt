//! A datanode over two disks in memory.
//!
//! `meta WORDS` and `slots WORDS` are what `drive.rt` says of its journal's disk, one of 16,384 bytes, and of that of its slots, one of
//! 262,144. `load` gives `done` or a fault, and `load cut SIZE` and `load set PLACE BYTE` load the journal changed so. Then come
//! the calls of `node_calls.rt`. `end` hands both disks back. What `steps` and `leaves` speak of are the numbers of the blocks that are held, and what
//! a stop leaves of both disks, each in each way, has its own bytes of each block.

use crate::drive::Drive;
use crate::going::{Subject, judge};
use crate::node_calls::{Node, call, show, show_read};
use crate::told::Stuck;
use case_files::{Judged, Statement};
use oz_datanode::{Datanode, NodeDisks};
use oz_world::MemoryDisk;
use std::alloc::{AllocError, Global};

/// The number of the datanode.
const ID: u8 = 1;

/// How many bytes the disks have room for, where a case says nothing else.
const META_ROOM: u64 = 16_384;

const SLOTS_ROOM: u64 = 262_144;

/// A datanode, and its disks when there is none.
#[derive(Drop)]
struct Kept {
    meta: Drive,
    slots: Drive,
    node: Option<Node>,
}

impl Kept {
    /// Loads both disks, which come back where they can't be.
    fn load(&mut self, alloc: Global, words: &str, came: &mut String) -> Result<(), Stuck> {
        let disks = NodeDisks {
            meta: self.meta.begin(alloc, words)?,
            slots: self.slots.begin(alloc, "")?,
        };
        match Datanode::load(alloc, ID, disks) {
            Ok(node) => {
                self.node = Some(node);
                came.push_str("done")?;
            }
            Err((disks, fault)) => {
                self.take_back(disks);
                write!(came, "{fault:?}")?;
            }
        }
        Ok(())
    }

    fn take_back(&mut self, disks: NodeDisks<MemoryDisk>) {
        let NodeDisks { meta, slots } = disks;
        self.meta.disk = Some(meta);
        self.slots.disk = Some(slots);
    }

    fn end(&mut self) {
        if let Some(node) = self.node.take() {
            self.take_back(node.into_disks());
        }
    }

    /// A call of what was loaded.
    fn ask(
        &mut self,
        alloc: Global,
        name: &str,
        words: &str,
        came: &mut String,
    ) -> Result<(), Stuck> {
        match &mut self.node {
            Some(node) => call(alloc, node, name, words, came),
            None => Err(Stuck::Unread),
        }
    }
}

impl Subject for Kept {
    fn call(
        &mut self,
        alloc: Global,
        name: &str,
        words: &str,
        came: &mut String,
    ) -> Result<(), Stuck> {
        match name {
            "meta" => self.meta.call(alloc, words, came),
            "slots" => self.slots.call(alloc, words, came),
            "load" => self.load(alloc, words, came),
            "end" => {
                self.end();
                Ok(())
            }
            _ => self.ask(alloc, name, words, came),
        }
    }

    fn is_stopped(&self) -> bool {
        match &self.node {
            Some(node) => node.halted(),
            None => true,
        }
    }

    fn show(&self, alloc: Global, _said: &str, came: &mut String) -> Result<(), Stuck> {
        match &self.node {
            Some(node) => show(alloc, node, came),
            None => Err(Stuck::Unread),
        }
    }

    fn images(&self) -> u8 {
        9
    }

    fn show_left(&mut self, alloc: Global, image: u8, came: &mut String) -> Result<(), Stuck> {
        self.end();
        let disks = NodeDisks {
            meta: self.meta.begin_with_image(alloc, image / 3)?,
            slots: self.slots.begin_with_image(alloc, image % 3)?,
        };
        show_disks(alloc, disks, came)
    }
}

/// What is loaded of both disks.
fn show_disks(alloc: Global, disks: NodeDisks<MemoryDisk>, came: &mut String) -> Result<(), Stuck> {
    match Datanode::load(alloc, ID, disks) {
        Ok(mut node) => show_read(alloc, &mut node, came),
        Err((_disks, fault)) => {
            write!(came, "{fault:?}")?;
            Ok(())
        }
    }
}

/// Judges a case of a datanode.
pub fn judge_datanode(alloc: Global, case: &[Statement]) -> Result<Judged, AllocError> {
    let mut kept = Kept {
        meta: Drive::new(alloc, META_ROOM),
        slots: Drive::new(alloc, SLOTS_ROOM),
        node: None,
    };
    judge(alloc, &mut kept, case)
}
