//! What is decided while the turn is held, over the rows of one stripe.

ghost use Rattle.std.specs.Prelude.{◌≡◌, ◌↔◌, [], None, IfOk, IfErr, IfSome, IsTrue, true};
ghost use Rattle.oz_om.specs.Held.{IsGrantOf, IsHeld, IsMade, IsPickFor, IsPickedGrant};
ghost use Rattle.oz_om.specs.Opens.{Opens};
ghost use Rattle.oz_om.specs.Refusals.{RefusalHolds};
ghost use Rattle.oz_om_session.specs.Picks.{IsPick};
ghost use Rattle.oz_rows.specs.Rows.{IsBlock};

use crate::decider::{Outcome, decide};
use crate::draft::Made;
use crate::finding::open_ask;
use crate::refusal::Refusal;
use oz_buffer::{Ledger, Opened};
use oz_core::Event;
use oz_decision::Decision;
use oz_fields::{Block, GREATEST_BLOCK_NUMBER, OutOfMemory};
use oz_locks::{Loaded, Stripe, a_pool_has_what_is_free};
use oz_requests::{AskId, Reply, Request};
use oz_turn::{Ring, Told};
use std::alloc::Global;

/// Decides what an id asked at a place, over the newest rows of the stripe. None where no Ask stands there that the
/// stripe may decide.
pub(crate) fn make<O: Opened, L: Loaded, R: Ring>(
    alloc: Global,
    stripe: &mut Stripe<Ledger<O>, L, R>,
    ledger: &Ledger<O>,
    place: usize,
    id: AskId,
) -> Result<Option<Made>, Refusal>
    requires opens { Opens O.coherent O.opening O.bytes L.rows L.last_index L.coherent L.keeps }
    requires held { IsHeld O.coherent O.opening O.bytes O.script L.rows stripe.old ledger.now.story }
    ensures same { stripe.new ≡ record stripe.old { pool = stripe.new.pool; known = stripe.new.known } }
    ensures made { IfOk result (λ found. IfSome found (λ made.
        IsMade L.coherent stripe.new ledger.now.story place id made.decision)) }
    ensures granted { IfOk result (λ found. IfSome found (λ made.
        IsGrantOf stripe.new.pool made.decision.reply made.granted)) }
    ensures quiet { IfOk result (λ found. IfSome found (λ made. made.decision.bytes ≡ [] → made.granted ≡ None)) }
    ensures refused { IfErr result (RefusalHolds O.coherent O.opening ledger.now.story id) }
{
    a_pool_has_what_is_free();
    let Some(request) = open_ask(ledger, place, id, stripe.number()) else {
        return Ok(None);
    };
    let pick = match pick_for(stripe, ledger, request) {
        Ok(pick) => pick,
        Err(_) => return Err(Refusal::OutOfMemory),
    };
    match decide(alloc, stripe.cached(), request, pick) {
        Ok(Outcome::Decided(decision)) => match grant_of(&decision.reply, pick) {
            Some(granted) => Ok(Some(Made { decision, granted })),
            None => Err(Refusal::OutOfMemory),
        },
        Ok(Outcome::NoBlock) => Err(Refusal::PoolEmpty {
            stripe: stripe.number(),
        }),
        Ok(Outcome::NotYet) | Err(_) => Err(Refusal::OutOfMemory),
    }
}

/// The block for a session that wants one, of all Grants to the stripe in the story.
fn pick_for<O: Opened, L: Loaded, R: Ring>(
    stripe: &mut Stripe<Ledger<O>, L, R>,
    ledger: &Ledger<O>,
    request: &Request,
) -> Result<Option<(Block, u8)>, OutOfMemory>
    requires opens { Opens O.coherent O.opening O.bytes L.rows L.last_index L.coherent L.keeps }
    requires held { IsHeld O.coherent O.opening O.bytes O.script L.rows stripe.old ledger.now.story }
    ensures same { stripe.new ≡ record stripe.old { pool = stripe.new.pool; known = stripe.new.known } }
    ensures picked { IfOk result (IsPickFor L.coherent stripe.new request.now) }
    ensures numbers { IfOk result IsPick }
{
    let Request::AllocateBlock { exclude, .. } = request else {
        return Ok(None);
    };
    stripe.grant(ledger.entries())?;
    match stripe.pick(exclude) {
        Some(free) if has_numbers(free.block) => Ok(Some((free.block, free.pipeline))),
        Some(_) => Err(OutOfMemory),
        None => Ok(None),
    }
}

/// Whether a block's numbers are as a row may have them.
fn has_numbers(block: Block) -> bool
    ensures { IsTrue result ↔ IsBlock block }
{
    1 <= block.container
        && block.container <= GREATEST_BLOCK_NUMBER
        && 1 <= block.local
        && block.local <= GREATEST_BLOCK_NUMBER
}

/// The block that a reply grants, if any, where it is the picked one.
fn grant_of(reply: &Reply, pick: Option<(Block, u8)>) -> Option<Option<Block>>
    ensures { IfSome result (λ granted. IsPickedGrant reply.now pick granted) }
{
    match (reply, pick) {
        (Reply::Granted(block, _), Some((picked, _))) if *block == picked => Some(Some(picked)),
        (Reply::Granted(_, _), _) => None,
        _ => Some(None),
    }
}
