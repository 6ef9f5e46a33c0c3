//! How datanodes that halt beside a line are taken down.

ghost use Rattle.std.specs.Prelude.{◌≡◌, ◌≢◌};
ghost use Rattle.oz_at_work.specs.AtWork.{HasGoneOn, WorkView};
ghost use Rattle.oz_at_work.specs.Part.{Gone, IsAtWorkIn, IsLinePart, StaysAtWork};
ghost use Rattle.oz_turn.specs.Seat.{IsReady, seen_of};

use crate::at_work::LineAtWork;
use crate::outcome::Did;
use crate::shared::Shared;
use oz_asker::left_up;
use oz_buffer::{Ledger, Opened};
use oz_node_admin::take_down_halted;
use oz_om::Loaded;
use oz_requests::Answer;
use oz_turn::{Ring, Seat};
use oz_world::{Disk, Gate};
use std::sync::Wait;

impl<'s> LineAtWork<'s> {
    /// The line writes the block that it was granted, as `write` says. A datanode that has halted then is taken down.
    pub(crate) fn write_next<D: Disk, O: Opened, L: Loaded, R: Ring, W: Wait, G: Gate>(
        &mut self,
        shared: &Shared<'_, D, O, L, R, W, G>,
        seat: &mut Seat<Ledger<O>>,
        by: u16,
    ) -> Did
        requires part { IsLinePart R.turn by seat.old }
        requires works { IsAtWorkIn O.Opened (seen_of seat.old) self.old }
        ensures gone { Gone R.turn by seat.old seat.new }
        ensures stays { StaysAtWork O.Opened (seen_of seat.new) (result ≡ Did.WentOn) self.old self.new }
        ensures unended { result ≢ Did.Ended }
    {
        let did = self.write(shared, seat, by);
        let asked = self.asked;
        self.take_down(shared, seat, by, asked);
        did
    }

    /// The line reads its next piece, as `read` says. A datanode that has halted then is taken down.
    pub(crate) fn read_next<D: Disk, O: Opened, L: Loaded, R: Ring, W: Wait, G: Gate>(
        &mut self,
        shared: &Shared<'_, D, O, L, R, W, G>,
        seat: &mut Seat<Ledger<O>>,
        by: u16,
    ) -> Did
        requires ready { IsReady R.turn by seat.old }
        requires works { IsAtWorkIn O.Opened (seen_of seat.old) self.old }
        ensures gone { Gone R.turn by seat.old seat.new }
        ensures stays { StaysAtWork O.Opened (seen_of seat.new) (result ≡ Did.WentOn) self.old self.new }
        ensures unended { result ≢ Did.Ended }
    {
        let did = self.read(shared, seat, by);
        let asked = self.asked;
        self.take_down(shared, seat, by, asked);
        did
    }

    /// Takes datanodes down that have halted and are up, while no lock is held. Where memory runs out the line, which has asked so
    /// often, is told next that there is none.
    pub(crate) fn take_down<D: Disk, O: Opened, L: Loaded, R: Ring, W: Wait, G: Gate>(
        &mut self,
        shared: &Shared<'_, D, O, L, R, W, G>,
        seat: &mut Seat<Ledger<O>>,
        by: u16,
        asked: u16,
    )
        requires ready { IsReady R.turn by seat.old }
        requires works { IsAtWorkIn O.Opened (seen_of seat.old) self.old }
        ensures gone { Gone R.turn by seat.old seat.new }
        ensures line { self.new.line ≡ self.old.line }
        ensures works { IsAtWorkIn O.Opened (seen_of seat.new) self.new }
        ensures went_on { (before : WorkView) → HasGoneOn before self.old → HasGoneOn before self.new }
    {
        let (rt, turn, servers) = (shared.rt, shared.turn, shared.servers);
        if left_up(rt, turn, seat, by).is_none() {
            return;
        }
        let (scm, nodes, count) = (&servers.scm, &servers.nodes, servers.node_count());
        let Err(_error) = take_down_halted(rt, shared.alloc, turn, scm, nodes, seat, count) else {
            return;
        };
        self.cut(asked, Answer::OutOfMemory);
    }
}
