//! Whether a story has of a line what its worker knows.

ghost use Rattle.std.specs.Prelude.{◌≡◌, ◌↔◌, [], IsTrue, drop};
ghost use Rattle.oz_turn.specs.Seat.{IsReady, seen_of};
ghost use Rattle.oz_turn.specs.Turn.{turn_id};
ghost use Rattle.oz_underway.specs.UnderWay.{HaveAnswered};
ghost use Rattle.oz_line_blocks.specs.writing.Written.{IsStill};
ghost use Rattle.oz_line_blocks.specs.Seats.{SawStory};

use crate::writing::answering::all_stand;
use oz_buffer::{Ledger, Opened};
use oz_client::Written;
use oz_core::Event;
use oz_fields::Block;
use oz_requests::AskId;
use oz_turn::{Seat, Told, Turn};
use std::sync::Wait;

/// Whether the line asked nothing after this, and so much is said of its blocks. `by` is the seat's number.
pub(crate) fn is_still<O: Opened, W: Wait>(
    rt: &W,
    turn: &Turn<Ledger<O>>,
    seat: &mut Seat<Ledger<O>>,
    by: u16,
    id: AskId,
    said: u64,
) -> bool
    requires { IsReady (turn_id turn.now) by seat.old }
    ensures looked { SawStory O.Opened (turn_id turn.now) by seat.old seat.new }
    ensures still { IsTrue result ↔ IsStill id said (seen_of seat.new) }
{
    let (ledger, held) = turn.take(rt, seat);
    ledger.all_follow();
    let still = stands_still(&ledger, id, said);
    turn.give_back(seat, ledger, held);
    still
}

/// Whether that is so, and the answers of a block's members stand in the story behind so many events, which alone it looks at.
pub(crate) fn have_answered<O: Opened, W: Wait>(
    rt: &W,
    turn: &Turn<Ledger<O>>,
    seat: &mut Seat<Ledger<O>>,
    by: u16,
    id: AskId,
    block: Block,
    members: [u8; 3],
    written: &Written,
    from: u64,
    said: u64,
) -> bool
    requires { IsReady (turn_id turn.now) by seat.old }
    ensures looked { SawStory O.Opened (turn_id turn.now) by seat.old seat.new }
    ensures still { IsTrue result ↔ (IsStill id said (seen_of seat.new)
        × HaveAnswered (drop from (seen_of seat.new)) id block members written.now.answers) }
{
    let (ledger, held) = turn.take(rt, seat);
    ledger.all_follow();
    let still = stands_still(&ledger, id, said);
    let since = behind(ledger.entries(), from);
    let answered = still && all_stand(since, id, block, members, written);
    turn.give_back(seat, ledger, held);
    answered
}

fn stands_still<O: Opened>(ledger: &Ledger<O>, id: AskId, said: u64) -> bool
    ensures { IsTrue result ↔ IsStill id said ledger.now.story }
{
    ledger.last_ask(id.client, id.line) == Some(id) && ledger.times_said(id.client, id.line) == said
}

/// The events behind so many.
fn behind(story: &[Event], from: u64) -> &[Event]
    ensures { result.now ≡ drop from story.now }
{
    let from = from as usize;
    if from >= story.len() {
        return &[];
    }
    &story[from..]
}
