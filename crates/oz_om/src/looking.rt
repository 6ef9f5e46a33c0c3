//! A look at one stripe: its seat sees the story, and what the story says is flushed is in the tables.

ghost use Rattle.std.specs.Prelude.{◌≡◌};
ghost use Rattle.oz_cache.specs.Cache.{newest};
ghost use Rattle.oz_core.specs.Manager.{durable_index};
ghost use Rattle.oz_locks.specs.Pins.{untold};
ghost use Rattle.oz_locks.specs.Stripe.{IsAtRest};
ghost use Rattle.oz_om.specs.Keeps.{KeepsRows};
ghost use Rattle.oz_om.specs.Opens.{Opens};
ghost use Rattle.oz_om.specs.Shown.{HasSeen};
ghost use Rattle.oz_turn.specs.Seat.{IsReady, seen_of};
ghost use Rattle.oz_turn.specs.Turn.{turn_id};

use crate::telling::bring_down;
use oz_buffer::{Ledger, Opened};
use oz_locks::{Loaded, Stripe, ToldLines};
use oz_turn::{Ring, Seat, Turn};
use std::sync::Wait;

/// What a ledger tells of lines.
#[derive(Drop)]
struct Lines<'a, O: Opened> {
    ledger: &'a Ledger<O>,
}

impl<'a, O: Opened> ToldLines for Lines<'a, O> {
    ghost story = { λ lines. lines.ledger.now.story };

    fn is_told(&self, client: u16, line: u16) -> bool {
        self.ledger.is_told(client, line)
    }
}

/// Takes the turn once. The asker's seat, whose number is `by`, and the stripe's have then seen the same story; pins of lines
/// that are told there are gone, and what is flushed there is in the tables. Answers the last index that is flushed.
pub(crate) fn look<O: Opened, L: Loaded, R: Ring, W: Wait>(
    rt: &W,
    turn: &Turn<Ledger<O>>,
    stripe: &mut Stripe<Ledger<O>, L, R>,
    seat: &mut Seat<Ledger<O>>,
    by: u16,
) -> u64
    requires turn { turn_id turn.now ≡ R.turn }
    requires opens { Opens O.coherent O.opening O.bytes L.rows L.last_index L.coherent L.keeps }
    requires rests { IsAtRest L.last_index L.coherent L.keeps stripe.old }
    requires ready { IsReady R.turn by seat.old }
    ensures rests { IsAtRest L.last_index L.coherent L.keeps stripe.new }
    ensures number { stripe.new.number ≡ stripe.old.number }
    ensures shown { HasSeen R.turn O.coherent O.opening O.bytes O.script by seat.old seat.new }
    ensures seen { stripe.new.seen ≡ seen_of seat.new }
    ensures mine { stripe.new.mine ≡ stripe.old.mine }
    ensures pins { stripe.new.pins ≡ untold (seen_of seat.new) stripe.old.pins }
    ensures durable { result ≡ durable_index O.opening (seen_of seat.new) }
    ensures keeps { KeepsRows O.coherent O.opening L.rows stripe.new.number stripe.new.mine (seen_of seat.new) (newest stripe.new.cache) }
{
    let (ledger, held) = stripe.take(rt, turn);
    ledger.all_follow();
    let durable = ledger.durable_index();
    stripe.unpin_told(&Lines { ledger: &ledger });
    stripe.show(turn, seat);
    stripe.give_back(turn, ledger, held);
    bring_down(stripe, durable);
    durable
}
