//! What a case has set up, and what its last run left.

use crate::places::{Bytes, Place, nothing};
use oz_core::Event;
use oz_datanode::NodeDisks;
use oz_fused::FusedDisk;
use std::alloc::Global;

/// The room of each disk, in bytes, where a case says nothing.
const ROOM: u64 = 16_384;

/// The calls that fail, by their numbers from 1.
#[derive(Drop)]
pub struct Failing {
    pub place: Place,
    pub calls: Vec<u64>,
}

/// What a run left: its status, what it wrote, its story, its disks, and how often its flusher passed the gate, and others did.
#[derive(Drop)]
pub struct Left {
    pub status: u8,
    pub text: String,
    pub story: Vec<Event>,
    pub manager: FusedDisk,
    pub scm: FusedDisk,
    pub nodes: Vec<NodeDisks<FusedDisk>>,
    pub flusher: u64,
    pub others: u64,
}

/// What the next run is given, what the last one was given, and what it left.
#[derive(Drop)]
pub struct Stage {
    pub script: Vec<u8>,
    pub given: Bytes,
    pub failing: Vec<Failing>,
    pub fuse: u64,
    pub room: u64,
    pub yields: u64,
    pub was: Bytes,
    pub left: Option<Left>,
}

impl Stage {
    /// Nothing is given: empty disks, an empty script, and no call that fails.
    pub fn new(alloc: Global) -> Stage {
        Stage {
            script: Vec::new(alloc),
            given: nothing(alloc),
            failing: Vec::new(alloc),
            fuse: u64::MAX,
            room: ROOM,
            yields: 0,
            was: nothing(alloc),
            left: None,
        }
    }

    /// The calls of a place that fail.
    pub fn calls_of(&self, place: Place) -> &[u64] {
        for failing in &self.failing {
            if failing.place == place {
                return &failing.calls;
            }
        }
        &[]
    }
}
