//! What the story in hand has of the manager's end: whether it has halted, and what is stable.

ghost use Rattle.std.specs.Prelude.{◌↔◌, IsTrue};
ghost use Rattle.oz_core.specs.Law.{IsInTime};
ghost use Rattle.oz_asker.specs.telling.Tells.{AllIsStable, CauseStands, HadStopped};

use oz_buffer::{Ledger, Opened};
use oz_core::Node;
use oz_requests::{Answer, AskId};

/// Whether what the answer says of the manager's end holds.
pub(crate) fn cause_stands<O: Opened>(
    ledger: &Ledger<O>,
    client: u16,
    line: u16,
    last: Option<AskId>,
    answer: &Answer,
) -> bool
    ensures { IsTrue result ↔ CauseStands O.opening ledger.now.story client line last answer.now }
{
    match answer {
        Answer::Unacknowledged => {
            ledger.halt(Node::Manager).is_some() && !is_stable(ledger, client, line)
        }
        Answer::ManagerStopped => had_stopped(ledger, last),
        _ => true,
    }
}

/// Whether the answer may be told now, by what is stable.
pub(crate) fn is_in_time<O: Opened>(
    ledger: &Ledger<O>,
    client: u16,
    line: u16,
    answer: &Answer,
) -> bool
    ensures { IsTrue result ↔ IsInTime O.opening ledger.now.story client line answer.now }
{
    match answer {
        Answer::Unacknowledged => {
            is_stable(ledger, client, line) || ledger.halt(Node::Manager).is_some()
        }
        Answer::OutOfMemory => true,
        _ => is_stable(ledger, client, line),
    }
}

/// Whether all that was decided for a line is stable.
pub(crate) fn is_stable<O: Opened>(ledger: &Ledger<O>, client: u16, line: u16) -> bool
    ensures { IsTrue result ↔ AllIsStable O.opening ledger.now.story client line }
{
    ledger.line_index(client, line) <= ledger.durable_index()
}

/// Whether the manager had halted when this was asked last; of a line that asked nothing, whether it has halted.
pub(crate) fn had_stopped<O: Opened>(ledger: &Ledger<O>, last: Option<AskId>) -> bool
    ensures { IsTrue result ↔ HadStopped ledger.now.story last }
{
    match last {
        Some(id) => ledger.asked_late(id),
        None => ledger.halt(Node::Manager).is_some(),
    }
}
