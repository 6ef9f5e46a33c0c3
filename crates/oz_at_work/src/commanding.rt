//! How a line stops, starts or wipes a datanode.

ghost use Rattle.std.specs.Prelude.{◌≡◌, IfSome};
ghost use Rattle.oz_at_work.specs.Part.{Gone, HasEnded, IsAtWorkIn, IsLinePart, StaysAtWork};
ghost use Rattle.oz_at_work.specs.inner.Commanded.{HasNumbers, IsCommandOf, IsDoneDue};
ghost use Rattle.oz_turn.specs.Seat.{seen_of};

use crate::at_work::LineAtWork;
use crate::outcome::Did;
use crate::shared::Shared;
use oz_asker::tell_done;
use oz_buffer::{Ledger, Opened};
use oz_command::{AdminCommand, Command};
use oz_node_admin::{AdminFault, have_done};
use oz_node_events::NodeCommand;
use oz_om::Loaded;
use oz_requests::Answer;
use oz_script::{Line, MOST_CLIENTS};
use oz_turn::{Ring, Seat};
use oz_world::{Disk, Gate};
use std::sync::Wait;

/// What is to be done to the datanode of a number.
#[derive(Clone, Copy)]
struct Commanded {
    dn: u8,
    done: NodeCommand,
}

impl<'s> LineAtWork<'s> {
    /// The line has a datanode stopped, started or wiped once, and is told so, or that the datanode has halted. Where no datanode
    /// has the number it is told that next. Where memory runs out before anything was done, or the line isn't one that has
    /// this done, it is told next that there is none.
    pub(crate) fn command<D: Disk, O: Opened, L: Loaded, R: Ring, W: Wait, G: Gate>(
        &mut self,
        shared: &Shared<'_, D, O, L, R, W, G>,
        seat: &mut Seat<Ledger<O>>,
        by: u16,
    ) -> Did
        requires part { IsLinePart R.turn by seat.old }
        requires works { IsAtWorkIn O.Opened (seen_of seat.old) self.old }
        ensures gone { Gone R.turn by seat.old seat.new }
        ensures stays { StaysAtWork O.Opened (seen_of seat.new) (result ≡ Did.WentOn) self.old self.new }
        ensures ended { result ≡ Did.Ended → HasEnded O.Opened (seen_of seat.new) self.new }
    {
        let (asked, line) = (self.asked, self.line);
        let Some(Commanded { dn, done }) = command_in(line) else {
            self.cut(asked, Answer::OutOfMemory);
            return Did::WentOn;
        };
        if self.was_done {
            return self.tell_of(shared, seat, by, dn, done);
        }
        let (rt, alloc, turn, servers) = (shared.rt, shared.alloc, shared.turn, shared.servers);
        if dn >= servers.node_count() {
            self.cut(asked, Answer::NoSuchNode);
            return Did::WentOn;
        }
        let (scm, nodes) = (&servers.scm, &servers.nodes);
        match have_done(rt, alloc, turn, scm, nodes, seat, line, dn, done) {
            Ok(()) => self.tell_of(shared, seat, by, dn, done),
            Err(AdminFault::Halted { .. }) => self.tell_of(shared, seat, by, dn, done),
            Err(AdminFault::Repeated | AdminFault::OutOfMemory) => {
                self.cut(asked, Answer::OutOfMemory);
                Did::WentOn
            }
        }
    }

    /// It is told that this was done to the datanode, or that the datanode has halted by then, if it may be told. Where it may not
    /// it remembers that it was done.
    fn tell_of<D: Disk, O: Opened, L: Loaded, R: Ring, W: Wait, G: Gate>(
        &mut self,
        shared: &Shared<'_, D, O, L, R, W, G>,
        seat: &mut Seat<Ledger<O>>,
        by: u16,
        dn: u8,
        done: NodeCommand,
    ) -> Did
        requires part { IsLinePart R.turn by seat.old }
        requires works { IsAtWorkIn O.Opened (seen_of seat.old) self.old }
        requires commands { IsCommandOf self.old.line dn done }
        requires due { O.coherent → IsDoneDue O.coherent O.opening O.bytes O.script (seen_of seat.old) self.old.line dn }
        ensures gone { Gone R.turn by seat.old seat.new }
        ensures stays { StaysAtWork O.Opened (seen_of seat.new) (result ≡ Did.WentOn) self.old self.new }
        ensures ended { result ≡ Did.Ended → HasEnded O.Opened (seen_of seat.new) self.new }
    {
        self.was_done = true;
        let (asked, said) = (self.asked, self.said);
        let (client, line, last) = (self.line.client, self.line.number, self.last_of(asked));
        let (rt, alloc, turn) = (shared.rt, shared.alloc, shared.turn);
        match tell_done(rt, alloc, turn, seat, by, client, line, last, said, dn) {
            Ok(()) => {
                self.cut(asked, Answer::OutOfMemory);
                Did::Ended
            }
            Err(cause) => self.put_off(shared, seat, by, asked, cause),
        }
    }
}

/// What a line has done to a datanode. There is nothing where its command is another, nor of a line that isn't numbered as those
/// of a script are.
fn command_in(line: &Line) -> Option<Commanded>
    ensures its { IfSome result (λ it. IsCommandOf line.now it.dn it.done) }
    ensures numbers { IfSome result (λ it. HasNumbers line.now) }
{
    if usize::from(line.client) > MOST_CLIENTS || line.number == 0 {
        return None;
    }
    let Command::Admin(command) = &line.command else {
        return None;
    };
    let (dn, done) = match command {
        AdminCommand::Stop(dn) => (*dn, NodeCommand::Stop),
        AdminCommand::Start(dn) => (*dn, NodeCommand::Start),
        AdminCommand::Wipe(dn) => (*dn, NodeCommand::Wipe),
        AdminCommand::Close | AdminCommand::Containers | AdminCommand::Drain => return None,
    };
    Some(Commanded { dn, done })
}
