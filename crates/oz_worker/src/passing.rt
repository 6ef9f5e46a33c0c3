//! How a worker goes on with its clients.

ghost use Rattle.std.specs.Prelude.{◌≡◌, All, map};
ghost use Rattle.oz_script.specs.lines.Numbered.{IsNumbered};
ghost use Rattle.oz_turn.specs.Seat.{IsReady, seen_of};
ghost use Rattle.oz_worker.specs.Served.{IsServed, StaysReady};
ghost use Rattle.oz_worker.specs.Workers.{IsOfWorker};

use crate::client::Client;
use crate::resting::{Care, Sight};
use oz_at_work::{Did, Loaded, Shared, what_is_at_work_stays};
use oz_buffer::{Ledger, Opened};
use oz_turn::{Ring, Seat};
use oz_world::{Disk, Gate};
use std::sync::Wait;

/// What came of the lines of all clients of a worker.
#[derive(Clone, Copy, PartialEq, Eq)]
pub(crate) enum Pass {
    /// One at least went on.
    WentOn,
    /// None did.
    Waits,
    /// There was no memory for one.
    OutOfMemory,
}

/// Each client's next line goes on by one thing, so that what many of them ask is flushed together. `by` is the seat's
/// number, `nodes` that of the datanodes, and `care` says who is left out.
pub(crate) fn each_goes_on<D: Disk, O: Opened, L: Loaded, R: Ring, W: Wait, G: Gate>(
    shared: &Shared<'_, D, O, L, R, W, G>,
    seat: &mut Seat<Ledger<O>>,
    by: u16,
    nodes: u8,
    clients: &mut [Client<'_>],
    care: Care,
) -> Pass
    requires ready { IsReady R.turn by seat.old }
    requires worker { IsOfWorker O.opening by nodes }
    requires numbered { IsNumbered O.script }
    requires served { All (IsServed O.coherent O.opening O.bytes O.script (seen_of seat.old)) clients.old }
    ensures gone { StaysReady R.turn by seat.old seat.new }
    ensures served { All (IsServed O.coherent O.opening O.bytes O.script (seen_of seat.new)) clients.new }
    ensures same { map (λ client. client.number) clients.new ≡ map (λ client. client.number) clients.old }
{
    what_is_at_work_stays::<O>();
    let mut pass = Pass::Waits;
    let mut sight = Sight::new(care);
    for client in clients.iter_mut() {
        match client.look(shared, seat, by, nodes, &mut sight) {
            Did::WentOn | Did::Ended => pass = Pass::WentOn,
            Did::Waits => {}
            Did::OutOfMemory => return Pass::OutOfMemory,
        }
    }
    pass
}
