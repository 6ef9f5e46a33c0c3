//! How a client's next line starts, goes on and ends.

ghost use Rattle.std.specs.Prelude.{◌≡◌, ◌≤◌, List, length, None, Some};
ghost use Rattle.oz_at_work.specs.AtWork.{HasLeft, left_of};
ghost use Rattle.oz_at_work.specs.Part.{IsLinePart};
ghost use Rattle.oz_core.specs.declared.event.Event.{Event as AnyEvent};
ghost use Rattle.oz_script.specs.lines.Numbered.{IsNumbered};
ghost use Rattle.oz_nodes.specs.declared.nodes.TheConstants.{FEWEST_NODES, MOST_NODES};
ghost use Rattle.oz_turn.specs.Seat.{IsReady, seen_of};
ghost use Rattle.oz_worker.specs.Served.{IsServed, StaysReady, next_line};

use crate::client::Client;
use crate::resting::Sight;
use oz_at_work::{
    Did, LineAtWork, Loaded, Shared, a_label_was_left, has_started, what_is_at_work_stays,
};
use oz_buffer::{Ledger, Opened};
use oz_turn::{Ring, Seat};
use oz_world::{Disk, Gate};
use std::alloc::Global;
use std::sync::Wait;

impl<'s> Client<'s> {
    /// The next line starts, or goes on by one thing, unless by a guess there is nothing to do: then the turn isn't taken.
    pub(crate) fn look<D: Disk, O: Opened, L: Loaded, R: Ring, W: Wait, G: Gate>(
        &mut self,
        shared: &Shared<'_, D, O, L, R, W, G>,
        seat: &mut Seat<Ledger<O>>,
        by: u16,
        nodes: u8,
        sight: &mut Sight,
    ) -> Did
        requires part { IsLinePart R.turn by seat.old }
        requires least { FEWEST_NODES ≤ nodes }
        requires most { nodes ≤ MOST_NODES }
        requires opened { nodes ≡ length O.opening.nodes }
        requires numbered { IsNumbered O.script }
        requires served { IsServed O.coherent O.opening O.bytes O.script (seen_of seat.old) self.old }
        ensures gone { StaysReady R.turn by seat.old seat.new }
        ensures served { IsServed O.coherent O.opening O.bytes O.script (seen_of seat.new) self.new }
        ensures number { self.new.number ≡ self.old.number }
    {
        let length = shared.turn.length();
        if self.rests(length, sight) {
            self.note_in(sight);
            return Did::Waits;
        }
        let had_begun = self.work.is_some();
        let did = self.go_on(shared, seat, by, nodes);
        self.rest = self
            .rest
            .behind(did, had_begun, length, shared.turn.length());
        if did == Did::Waits {
            self.note_in(sight);
        }
        did
    }

    /// The next line starts, or goes on by one thing. `by` is the seat's number, and `nodes` that of the datanodes.
    pub(crate) fn go_on<D: Disk, O: Opened, L: Loaded, R: Ring, W: Wait, G: Gate>(
        &mut self,
        shared: &Shared<'_, D, O, L, R, W, G>,
        seat: &mut Seat<Ledger<O>>,
        by: u16,
        nodes: u8,
    ) -> Did
        requires part { IsLinePart R.turn by seat.old }
        requires least { FEWEST_NODES ≤ nodes }
        requires most { nodes ≤ MOST_NODES }
        requires opened { nodes ≡ length O.opening.nodes }
        requires numbered { IsNumbered O.script }
        requires served { IsServed O.coherent O.opening O.bytes O.script (seen_of seat.old) self.old }
        ensures gone { StaysReady R.turn by seat.old seat.new }
        ensures served { IsServed O.coherent O.opening O.bytes O.script (seen_of seat.new) self.new }
        ensures number { self.new.number ≡ self.old.number }
    {
        what_is_at_work_stays::<O>();
        let Some(mut work) = self.work.take() else {
            return self.begin(shared, seat, by, nodes);
        };
        match work.go_on(shared, seat, by) {
            Did::Ended => self.end::<O>(shared.alloc, work),
            did => {
                self.keep(work);
                did
            }
        }
    }

    /// This is worked for from now on.
    fn keep(&mut self, work: LineAtWork<'s>)
        ensures { self.new ≡ record self.old { work = Some work.entry } }
    {
        self.work = Some(work);
    }

    /// The next line starts, if it may. A line that commits a label which no line opened never does: there is no such
    /// line in a script that was read, and where one stands it ends as where there is no memory.
    fn begin<D: Disk, O: Opened, L: Loaded, R: Ring, W: Wait, G: Gate>(
        &mut self,
        shared: &Shared<'_, D, O, L, R, W, G>,
        seat: &mut Seat<Ledger<O>>,
        by: u16,
        nodes: u8,
    ) -> Did
        requires ready { IsReady R.turn by seat.old }
        requires least { FEWEST_NODES ≤ nodes }
        requires most { nodes ≤ MOST_NODES }
        requires opened { nodes ≡ length O.opening.nodes }
        requires numbered { IsNumbered O.script }
        requires none { self.old.work ≡ None }
        requires served { IsServed O.coherent O.opening O.bytes O.script (seen_of seat.old) self.old }
        ensures gone { StaysReady R.turn by seat.old seat.new }
        ensures served { IsServed O.coherent O.opening O.bytes O.script (seen_of seat.new) self.new }
        ensures number { self.new.number ≡ self.old.number }
    {
        what_is_at_work_stays::<O>();
        a_label_was_left::<O>();
        let Some(line) = self.next_line() else {
            return Did::Waits;
        };
        if !has_started(shared.rt, shared.turn, seat, by, line) {
            return Did::Waits;
        }
        let Some(label) = self.labels.label_for(&line.command) else {
            return Did::OutOfMemory;
        };
        match LineAtWork::begin::<O>(shared.alloc, line, nodes, label) {
            Ok(work) => {
                self.keep(work);
                Did::WentOn
            }
            Err(_error) => Did::OutOfMemory,
        }
    }

    /// The line that was told leaves its label. Where there is no memory for that the client stays at the line.
    fn end<O: Opened>(&mut self, alloc: Global, work: LineAtWork<'s>) -> Did
        requires numbered { IsNumbered O.script }
        requires none { self.old.work ≡ None }
        requires next { next_line O.script self.old ≡ Some work.line }
        ensures served { (seen : List AnyEvent) → IsServed O.coherent O.opening O.bytes O.script seen self.old →
            (O.coherent → HasLeft O.coherent O.opening O.bytes O.script seen work.entry.line (left_of work.entry)) →
            IsServed O.coherent O.opening O.bytes O.script seen self.new }
        ensures number { self.new.number ≡ self.old.number }
    {
        let command = &work.line().command;
        let left = work.into_label();
        let Ok(()) = self.labels.note_left(alloc, command, left) else {
            return Did::OutOfMemory;
        };
        self.told += 1;
        Did::Ended
    }
}
