//! How a line asks the manager.

ghost use Rattle.std.specs.Prelude.{◌≡◌, ◌≢◌, ◌↔◌, ◌+◌, true, IfSome, IsTrue, None, Some};
ghost use Rattle.oz_at_work.specs.AtWork.{id_of};
ghost use Rattle.oz_at_work.specs.Part.{Gone, IsAtWorkIn, IsLinePart, StaysAtWork};
ghost use Rattle.oz_at_work.specs.inner.Short.{IsShort};
ghost use Rattle.oz_client.specs.declared.step.Step.TheVariants as steps;
ghost use Rattle.oz_core.specs.Asks.{is_script};
ghost use Rattle.oz_requests.specs.declared.request.Family.TheVariants.{Service};
ghost use Rattle.oz_requests.specs.Families.{family_of};
ghost use Rattle.oz_turn.specs.Seat.{seen_of};

use crate::at_work::LineAtWork;
use crate::outcome::Did;
use crate::shared::Shared;
use oz_asker::story_length;
use oz_buffer::{Ledger, Opened};
use oz_client::Step;
use oz_core::SERVICE_CLIENT;
use oz_fields::TryClone;
use oz_node_admin::take_down_halted;
use oz_om::{Loaded, Refusal};
use oz_requests::{Answer, AskId, Family, Request};
use oz_turn::{Ring, Seat};
use oz_world::{Disk, Gate};
use std::alloc::Global;
use std::sync::Wait;

impl<'s> LineAtWork<'s> {
    /// The line asks its next request, for which its stripe is granted blocks where it has none. Where that is refused
    /// for good, or where no block is granted, it is told so next.
    pub(crate) fn ask<D: Disk, O: Opened, L: Loaded, R: Ring, W: Wait, G: Gate>(
        &mut self,
        shared: &Shared<'_, D, O, L, R, W, G>,
        seat: &mut Seat<Ledger<O>>,
        by: u16,
    ) -> Did
        requires part { IsLinePart R.turn by seat.old }
        requires works { IsAtWorkIn O.Opened (seen_of seat.old) self.old }
        ensures gone { Gone R.turn by seat.old seat.new }
        ensures stays { StaysAtWork O.Opened (seen_of seat.new) (result ≡ Did.WentOn) self.old self.new }
        ensures unended { result ≢ Did.Ended }
    {
        match self.ask_once(shared, seat, by) {
            Some(did) => did,
            None => self.ask_for_more(shared, seat, by),
        }
    }

    /// Its stripe had no block for it: datanodes that have halted are taken for down, and it asks again, knowing how long the
    /// story is, and where there is none still, once more behind a grant. Where others took what was granted it asks later.
    fn ask_for_more<D: Disk, O: Opened, L: Loaded, R: Ring, W: Wait, G: Gate>(
        &mut self,
        shared: &Shared<'_, D, O, L, R, W, G>,
        seat: &mut Seat<Ledger<O>>,
        by: u16,
    ) -> Did
        requires part { IsLinePart R.turn by seat.old }
        requires works { IsAtWorkIn O.Opened (seen_of seat.old) self.old }
        ensures gone { Gone R.turn by seat.old seat.new }
        ensures stays { StaysAtWork O.Opened (seen_of seat.new) (result ≡ Did.WentOn) self.old self.new }
        ensures unended { result ≢ Did.Ended }
    {
        let (rt, turn, servers) = (shared.rt, shared.turn, shared.servers);
        let (scm, nodes, count) = (&servers.scm, &servers.nodes, servers.node_count());
        if take_down_halted(rt, shared.alloc, turn, scm, nodes, seat, count).is_err() {
            self.cut(self.asked, Answer::OutOfMemory);
            return Did::WentOn;
        }
        let place = story_length(rt, turn, seat, by);
        if let Some(did) = self.ask_once(shared, seat, by) {
            return did;
        }
        if let Some(did) = self.be_granted(shared, seat, by, place) {
            return did;
        }
        match self.ask_once(shared, seat, by) {
            Some(did) => did,
            None => Did::Waits,
        }
    }

    /// The line asks its next request once. Where its stripe has no block for it there is nothing to tell.
    pub(crate) fn ask_once<D: Disk, O: Opened, L: Loaded, R: Ring, W: Wait, G: Gate>(
        &mut self,
        shared: &Shared<'_, D, O, L, R, W, G>,
        seat: &mut Seat<Ledger<O>>,
        by: u16,
    ) -> Option<Did>
        requires part { IsLinePart R.turn by seat.old }
        requires works { IsAtWorkIn O.Opened (seen_of seat.old) self.old }
        ensures gone { Gone R.turn by seat.old seat.new }
        ensures stays { StaysAtWork O.Opened (seen_of seat.new) (result ≡ Some Did.WentOn) self.old self.new }
        ensures same { result ≡ None → self.new ≡ self.old }
        ensures short { result ≡ None → O.coherent → IsShort O.opening (seen_of seat.new) self.new }
        ensures unended { result ≢ Some Did.Ended }
    {
        let (rt, alloc, turn) = (shared.rt, shared.alloc, shared.turn);
        let Some((id, request)) = self.next_ask(alloc) else {
            self.cut(self.asked, Answer::OutOfMemory);
            return Some(Did::WentOn);
        };
        match shared
            .servers
            .manager
            .ask(rt, alloc, turn, seat, by, id, request, self.said)
        {
            Ok(reply) => {
                self.reply(shared, seat, by, id.step, reply);
                Some(Did::WentOn)
            }
            Err(Refusal::PoolEmpty { .. }) => None,
            Err(refusal) => Some(self.refuse(shared, seat, by, id.step, refusal)),
        }
    }

    /// A copy of what it asks next, with its id. There is none where there is no memory, where the line has asked too
    /// often, or where it is a request of the manager's own.
    fn next_ask(&self, alloc: Global) -> Option<(AskId, Request)>
        ensures id { IfSome result (λ asks. asks.0 ≡ id_of self.now.line (self.now.asked + 1)) }
        ensures script { IfSome result (λ asks. is_script asks.0 ≡ true) }
        ensures next { IfSome result (λ asks. self.now.next ≡ steps.Ask asks.1) }
        ensures of_client { IfSome result (λ asks. family_of asks.1 ≢ Service) }
    {
        let Step::Ask(request) = &self.next else {
            return None;
        };
        if is_own(request) {
            return None;
        }
        let id = self.next_id()?;
        let Ok(copy) = request.try_clone(alloc) else {
            return None;
        };
        Some((id, copy))
    }

    /// The id of its next Ask. There is none of the service job, and where the line has asked too often.
    pub(crate) fn next_id(&self) -> Option<AskId>
        ensures id { IfSome result (λ id. id ≡ id_of self.now.line (self.now.asked + 1)) }
        ensures script { IfSome result (λ id. is_script id ≡ true) }
    {
        if self.line.client == SERVICE_CLIENT {
            return None;
        }
        let step = self.asked.checked_add(1)?;
        Some(self.id(step))
    }
}

/// Whether the manager alone asks such requests.
fn is_own(request: &Request) -> bool
    ensures { IsTrue result ↔ family_of request.now ≡ Service }
{
    matches!(request.family(), Family::Service)
}
