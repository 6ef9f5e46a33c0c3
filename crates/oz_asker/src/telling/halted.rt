//! Datanodes that have halted and are up still.

ghost use Rattle.std.specs.Prelude.{◌≡◌, ◌≢◌, ◌↔◌, ◌<◌, [], IfSome, IfNone, IsTrue};
ghost use Rattle.oz_asker.specs.telling.Tells.{HaltedAreDown, IsLeftUp, NoneIsLeftUp};
ghost use Rattle.oz_buffer.specs.Buffer.{AllFollow, Follows};
ghost use Rattle.oz_nodes.specs.declared.nodes.TheConstants.{MOST_NODES};
ghost use Rattle.oz_requests.specs.declared.answer.Answer.TheVariants as answers;
ghost use Rattle.oz_turn.specs.Seat.{IsReady, mine_of, room_of, seen_of};
ghost use Rattle.oz_turn.specs.Told.{BeginsWith};
ghost use Rattle.oz_turn.specs.Turn.{turn_id};

use oz_buffer::{Ledger, Opened};
use oz_core::Node;
use oz_nodes::MOST_NODES;
use oz_requests::Answer;
use oz_turn::{Seat, Turn};
use std::sync::Wait;

/// The first datanode that has halted and is up still. The turn is taken once, and no other lock. `by` is the seat's number.
pub fn left_up<O: Opened, W: Wait>(
    rt: &W,
    turn: &Turn<Ledger<O>>,
    seat: &mut Seat<Ledger<O>>,
    by: u16,
) -> Option<u8>
    requires { IsReady (turn_id turn.now) by seat.old }
    ensures ready { IsReady (turn_id turn.now) by seat.new }
    ensures room { room_of seat.new ≡ room_of seat.old }
    ensures goes_on { BeginsWith (seen_of seat.new) (seen_of seat.old) }
    ensures mine { mine_of seat.new ≡ mine_of seat.old }
    ensures follow { AllFollow (Follows O.coherent O.opening O.bytes O.script) [] (seen_of seat.new) }
    ensures few { IfSome result (λ dn. dn < MOST_NODES) }
    ensures left { IfSome result (λ dn. IsLeftUp (seen_of seat.new) dn) }
    ensures down { IfNone result (NoneIsLeftUp (seen_of seat.new)) }
{
    let (ledger, held) = turn.take(rt, seat);
    ledger.all_follow();
    let left = first_left_up(&ledger);
    turn.give_back(seat, ledger, held);
    left
}

/// The first datanode that keeps a line from being told this, since it has halted and is up still: there is none where the answer
/// is that there is no memory.
pub(crate) fn keeps_untold<O: Opened>(ledger: &Ledger<O>, answer: &Answer) -> Option<u8>
    ensures other { IfSome result (λ _. answer.now ≢ answers.OutOfMemory) }
    ensures few { IfSome result (λ dn. dn < MOST_NODES) }
    ensures left { IfSome result (λ dn. IsLeftUp ledger.now.story dn) }
    ensures down { IfNone result (HaltedAreDown ledger.now.story answer.now) }
{
    match answer {
        Answer::OutOfMemory => None,
        _ => first_left_up(ledger),
    }
}

/// The first datanode that has halted and is up still. It looks at each that there may be, and never walks the story.
fn first_left_up<O: Opened>(ledger: &Ledger<O>) -> Option<u8>
    ensures few { IfSome result (λ dn. dn < MOST_NODES) }
    ensures left { IfSome result (λ dn. IsLeftUp ledger.now.story dn) }
    ensures down { IfNone result (NoneIsLeftUp ledger.now.story) }
{
    for dn in 0..MOST_NODES as u8 {
        if is_left_up(ledger, dn) {
            return Some(dn);
        }
    }
    None
}

/// Whether a datanode has halted, and is up still.
fn is_left_up<O: Opened>(ledger: &Ledger<O>, dn: u8) -> bool
    ensures { IsTrue result ↔ IsLeftUp ledger.now.story dn }
{
    ledger.halt(Node::Datanode(dn)).is_some() && ledger.is_up(dn)
}
