//! What all parts of a run share.

ghost use Rattle.std.specs.Prelude.{◌≡◌};
ghost use Rattle.oz_turn.specs.Turn.{turn_id};

use crate::servers::Servers;
use oz_buffer::{Ledger, Opened};
use oz_core::Event;
use oz_om::Loaded;
use oz_turn::{Ring, Told, Turn};
use oz_world::{Disk, Gate};
use std::alloc::Global;
use std::sync::Wait;

/// What all workers of a run share and hand on: how they wait, where memory comes from, the run's turn, the servers, and the gate
/// that is passed before a write.
#[derive(Drop)]
pub struct Shared<'r, D: Disk, O: Opened, L: Loaded, R: Ring, W: Wait, G: Gate>
where
    Ledger<O>: Told<Entry = Event>,
{
    pub rt: &'r W,
    pub alloc: Global,
    pub turn: &'r Turn<Ledger<O>>,
    pub servers: &'r Servers<D, Ledger<O>, O, L, R>,
    pub gate: &'r G,
    pub ghost of_run: { turn_id turn.now ≡ R.turn },
}

impl<'r, D: Disk, O: Opened, L: Loaded, R: Ring, W: Wait, G: Gate> Shared<'r, D, O, L, R, W, G> {
    /// What is shared in the run of this turn.
    pub fn new(
        rt: &'r W,
        alloc: Global,
        turn: &'r Turn<Ledger<O>>,
        servers: &'r Servers<D, Ledger<O>, O, L, R>,
        gate: &'r G,
    ) -> Shared<'r, D, O, L, R, W, G>
        requires { turn_id turn.now ≡ R.turn }
    {
        Shared {
            rt,
            alloc,
            turn,
            servers,
            gate,
        }
    }
}
