//! How a line writes the block that it was granted.

ghost use Rattle.std.specs.Prelude.{◌≡◌, ◌≢◌, ◌<◌, ◌||◌, List, not};
ghost use Rattle.oz_at_work.specs.AtWork.{HasGoneOn, IsAtWork};
ghost use Rattle.oz_at_work.specs.Part.{Gone, IsAtWorkIn, IsLinePart, StaysAtWork};
ghost use Rattle.oz_at_work.specs.inner.Put.{WasWritten};
ghost use Rattle.oz_core.specs.declared.event.Event.{Event as AnyEvent};
ghost use Rattle.oz_turn.specs.Seat.{seen_of};
ghost use Rattle.oz_line_blocks.specs.writing.Written.{is_quorum};

use crate::at_work::LineAtWork;
use crate::outcome::Did;
use crate::piece::Put;
use crate::shared::Shared;
use oz_asker::story_length;
use oz_buffer::{Ledger, Opened};
use oz_client::{Got, Written};
use oz_line_blocks::write_to_members;
use oz_om::Loaded;
use oz_requests::Answer;
use oz_turn::{Ring, Seat};
use oz_world::{Disk, Gate};
use std::alloc::Global;
use std::sync::Wait;

impl<'s> LineAtWork<'s> {
    /// The line writes the block that it was granted at its members, and goes on by what they answer. Where it isn't
    /// known what came of the block it is told next that there is no memory.
    pub(crate) fn write<D: Disk, O: Opened, L: Loaded, R: Ring, W: Wait, G: Gate>(
        &mut self,
        shared: &Shared<'_, D, O, L, R, W, G>,
        seat: &mut Seat<Ledger<O>>,
        by: u16,
    ) -> Did
        requires part { IsLinePart R.turn by seat.old }
        requires works { IsAtWorkIn O.Opened (seen_of seat.old) self.old }
        ensures gone { Gone R.turn by seat.old seat.new }
        ensures stays { StaysAtWork O.Opened (seen_of seat.new) (result ≡ Did.WentOn) self.old self.new }
        ensures unended { result ≢ Did.Ended }
    {
        let (rt, alloc, turn, servers) = (shared.rt, shared.alloc, shared.turn, shared.servers);
        servers.manager.opens();
        let asked = self.asked;
        let Ok(put) = self.put(alloc, servers.node_count()) else {
            self.cut(asked, Answer::OutOfMemory);
            return Did::WentOn;
        };
        let Put {
            block,
            members,
            first,
            bytes,
        } = put;
        let (id, said) = (self.id(asked), self.said);
        let from = story_length(rt, turn, seat, by);
        match write_to_members(
            rt,
            alloc,
            turn,
            &servers.nodes,
            shared.gate,
            seat,
            by,
            id,
            first,
            block,
            members,
            bytes.as_slice(),
            said,
            from,
        ) {
            Ok((written, now)) => self.written::<O>(alloc, written, now),
            Err(_error) => self.cut(asked, Answer::OutOfMemory),
        }
        Did::WentOn
    }

    /// Goes on with what the members of its block answered, by which so often something is said of its blocks.
    fn written<O: Opened>(&mut self, alloc: Global, written: Written, said: u64)
        requires more { self.old.said < said }
        ensures line { self.new.line ≡ self.old.line }
        ensures works { O.coherent → (seen : List AnyEvent) →
            WasWritten O.coherent O.opening O.bytes O.script seen self.old written said →
            IsAtWork O.coherent O.opening O.bytes O.script seen self.new }
        ensures went_on { HasGoneOn self.old self.new }
    {
        let (asked, gave_up) = (self.asked, self.gives_up(&written));
        let _taken = self.take_up(alloc, Got::Written(written), asked, said, gave_up);
    }

    /// Whether a block was given up, once the members of its block answered so.
    fn gives_up(&self, written: &Written) -> bool
        ensures { result ≡ (self.now.gave_up || not (is_quorum written.now.answers)) }
    {
        self.gave_up || !two_put_it(written)
    }
}

/// Whether two members put the block.
fn two_put_it(written: &Written) -> bool
    ensures { result ≡ is_quorum written.now.answers }
{
    written
        .answers
        .iter()
        .filter(|answer| answer.is_none())
        .count()
        >= 2
}
