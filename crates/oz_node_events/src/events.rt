//! Which event comes of a note.

ghost use Rattle.std.specs.Prelude.{◌≡◌};
ghost use Rattle.oz_core.specs.Seats.{datanode_seat};
ghost use Rattle.oz_buffer.specs.Buffer.{IsNote};
ghost use Rattle.oz_node_events.specs.Led.{IsUncommanded};
ghost use Rattle.oz_node_events.specs.Noting.{event_of};

use oz_core::{EventKind, Node};
use oz_replicas::Note;
use oz_requests::AskId;

/// What is told of a note for an ask whose piece begins at `first` in its line's data.
pub(crate) fn kind_of(id: AskId, first: u64, note: Note) -> EventKind
    ensures kind { result ≡ (event_of id first note).kind }
    ensures noted { IsNote result }
    ensures uncommanded { IsUncommanded result }
{
    match note {
        Note::Put { dn, block, length } => EventKind::Put {
            dn,
            block,
            id,
            first,
            length,
        },
        Note::Refused { dn, block, refusal } => EventKind::Refused {
            dn,
            block,
            id,
            refusal,
        },
        Note::Halt { dn, count } => {
            let node = Node::Datanode(dn);
            EventKind::Halt { node, count }
        }
        Note::Bad { dn, block } => EventKind::Bad { dn, block, id },
    }
}
