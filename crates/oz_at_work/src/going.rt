//! How a line goes on.

ghost use Rattle.std.specs.Prelude.{◌≡◌};
ghost use Rattle.oz_at_work.specs.Part.{Gone, HasEnded, IsAtWorkIn, IsLinePart, StaysAtWork};
ghost use Rattle.oz_turn.specs.Seat.{seen_of};

use crate::at_work::LineAtWork;
use crate::outcome::Did;
use crate::shared::Shared;
use oz_buffer::{Ledger, Opened};
use oz_client::Step;
use oz_om::Loaded;
use oz_turn::{Ring, Seat};
use oz_world::{Disk, Gate};
use std::sync::Wait;

impl<'s> LineAtWork<'s> {
    /// The line asks what it asks next, writes the block that it was granted, reads its next piece, has a datanode stopped, started
    /// or wiped, or is told its answer.
    /// Where it was refused it is told so, or tries again what comes next. `by` is the seat's number.
    pub fn go_on<D: Disk, O: Opened, L: Loaded, R: Ring, W: Wait, G: Gate>(
        &mut self,
        shared: &Shared<'_, D, O, L, R, W, G>,
        seat: &mut Seat<Ledger<O>>,
        by: u16,
    ) -> Did
        requires part { IsLinePart R.turn by seat.old }
        requires works { IsAtWorkIn O.Opened (seen_of seat.old) self.old }
        ensures gone { Gone R.turn by seat.old seat.new }
        ensures stays { StaysAtWork O.Opened (seen_of seat.new) (result ≡ Did.WentOn) self.old self.new }
        ensures ended { result ≡ Did.Ended → HasEnded O.Opened (seen_of seat.new) self.new }
    {
        if let Some(did) = self.tell_refused(shared, seat, by) {
            return did;
        }
        match &self.next {
            Step::Ask(_) => self.ask(shared, seat, by),
            Step::Tell(_) => self.tell(shared, seat, by),
            Step::Write { .. } => self.write_next(shared, seat, by),
            Step::Read { .. } => self.read_next(shared, seat, by),
            Step::Admin(_) => self.command(shared, seat, by),
        }
    }
}
