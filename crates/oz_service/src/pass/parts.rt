//! What a run lends to its service job.

use crate::deleting::Lent;
use oz_buffer::{Ledger, Opened};
use oz_core::Event;
use oz_locks::Loaded;
use oz_om::Manager;
use oz_turn::{Ring, Told};
use oz_world::Disk;
use std::sync::Wait;

/// What a run lends to its service job: what it lends to whoever sends deletions, and its manager.
#[derive(Drop)]
pub struct Parts<'r, D: Disk, O: Opened, L: Loaded, R: Ring, W: Wait>
where
    Ledger<O>: Told<Entry = Event>,
{
    pub lent: Lent<'r, D, O, R, W>,
    pub manager: &'r Manager<Ledger<O>, O, L, R>,
}
