//! How a line's stripe is granted blocks, or the line is refused.

ghost use Rattle.std.specs.Prelude.{◌≡◌, ◌≢◌, ◌<◌, ◌≤◌, ◌+◌, true, length, IfSome, None, Some};
ghost use Rattle.oz_at_work.specs.AtWork.{id_of};
ghost use Rattle.oz_at_work.specs.Part.{Gone, IsAtWorkIn, StaysAtWork};
ghost use Rattle.oz_at_work.specs.inner.Short.{IsShort, WantsBlock};
ghost use Rattle.oz_core.specs.Asks.{is_script};
ghost use Rattle.oz_core.specs.Steps.{was_told_ok};
ghost use Rattle.oz_names.specs.declared.limits.TheConstants.{STRIPES};
ghost use Rattle.oz_turn.specs.Seat.{IsReady, seen_of};

use crate::at_work::LineAtWork;
use crate::outcome::Did;
use crate::refused::Refused;
use crate::shared::Shared;
use crate::stills::Stills;
use oz_buffer::{Ledger, Opened};
use oz_client::Step;
use oz_line_blocks::{Granting, grant_for};
use oz_names::stripe_of;
use oz_om::Loaded;
use oz_requests::{Answer, AskId, Exclude, Request};
use oz_turn::{Ring, Seat};
use oz_world::{Disk, Gate};
use std::sync::Wait;

/// A block that is wanted: of this stripe, for this id, and none that is excluded.
struct Wanted<'e> {
    id: AskId,
    stripe: u8,
    exclude: &'e Exclude,
}

impl<'s> LineAtWork<'s> {
    /// Has its stripe granted blocks, which had none for its next Ask when the story had so many events, or more. Where none
    /// is granted the line knows with what it is refused. There is nothing to tell where it may ask again.
    pub(crate) fn be_granted<D: Disk, O: Opened, L: Loaded, R: Ring, W: Wait, G: Gate>(
        &mut self,
        shared: &Shared<'_, D, O, L, R, W, G>,
        seat: &mut Seat<Ledger<O>>,
        by: u16,
        place: u64,
    ) -> Option<Did>
        requires ready { IsReady R.turn by seat.old }
        requires works { IsAtWorkIn O.Opened (seen_of seat.old) self.old }
        requires short { O.coherent → IsShort O.opening (seen_of seat.old) self.old }
        requires reached { place ≤ length (seen_of seat.old) }
        ensures gone { Gone R.turn by seat.old seat.new }
        ensures stays { StaysAtWork O.Opened (seen_of seat.new) (result ≡ Some Did.WentOn) self.old self.new }
        ensures same { result ≡ None → self.new ≡ self.old }
        ensures unended { result ≢ Some Did.Ended }
    {
        let Some(wanted) = self.wanted() else {
            self.cut(self.asked, Answer::OutOfMemory);
            return Some(Did::WentOn);
        };
        let Wanted {
            id,
            stripe,
            exclude,
        } = wanted;
        match grant_for(
            shared.rt,
            shared.alloc,
            shared.turn,
            &shared.servers.scm,
            seat,
            by,
            id,
            stripe,
            exclude,
            place,
        ) {
            Ok(Granting::Granted | Granting::Moved) => None,
            Ok(Granting::Refused(answer, still)) if !is_ok(&answer) => {
                self.refused = Some(Refused {
                    answer,
                    asked: id.step,
                    still: Stills::two(still),
                });
                Some(Did::WentOn)
            }
            Ok(Granting::Refused(_, _)) | Err(_) => {
                self.cut(id.step, Answer::OutOfMemory);
                Some(Did::WentOn)
            }
        }
    }

    /// The block that its next Ask wants, if it wants one.
    fn wanted(&self) -> Option<Wanted<'_>>
        ensures id { IfSome result (λ wanted. wanted.id ≡ id_of self.now.line (self.now.asked + 1)) }
        ensures script { IfSome result (λ wanted. is_script wanted.id ≡ true) }
        ensures stripe { IfSome result (λ wanted. wanted.stripe < STRIPES) }
        ensures wants { IfSome result (λ wanted. WantsBlock self.now.next wanted.stripe wanted.exclude.now) }
    {
        let Step::Ask(
            Request::AllocateBlock {
                volume,
                exclude,
                ..
            },
        ) = &self.next
        else {
            return None;
        };
        Some(Wanted {
            id: self.next_id()?,
            stripe: stripe_of(volume.bytes()),
            exclude,
        })
    }
}

fn is_ok(answer: &Answer) -> bool
    ensures { result ≡ was_told_ok (Some answer.now) }
{
    matches!(answer, Answer::Ok(_))
}
