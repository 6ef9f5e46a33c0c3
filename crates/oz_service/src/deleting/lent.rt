//! What a run lends to whoever sends deletions.

ghost use Rattle.std.specs.Prelude.{◌≡◌};
ghost use Rattle.oz_turn.specs.Turn.{turn_id};

use oz_buffer::{Ledger, Opened};
use oz_core::Event;
use oz_node_events::NodeSeat;
use oz_replicas::Nodes;
use oz_scm_events::ScmCell;
use oz_turn::{Ring, Told, Turn};
use oz_world::Disk;
use std::alloc::Global;
use std::sync::{Mutex, Wait};

/// What a run lends to whoever sends deletions: how to wait, where memory comes from, the run's turn, the lock of its storage
/// container manager, and its datanodes.
#[derive(Drop)]
pub struct Lent<'r, D: Disk, O: Opened, R: Ring, W: Wait>
where
    Ledger<O>: Told<Entry = Event>,
{
    pub rt: &'r W,
    pub alloc: Global,
    pub turn: &'r Turn<Ledger<O>>,
    pub scm: &'r Mutex<ScmCell<D, Ledger<O>, O, R>>,
    pub nodes: &'r Nodes<D, NodeSeat<Ledger<O>, O, R>>,
    pub ghost of_run: { turn_id turn.now ≡ R.turn },
}
