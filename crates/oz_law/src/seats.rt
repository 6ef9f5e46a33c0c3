//! Whose a seat is.

ghost use Rattle.std.specs.Prelude.{◌↔◌, IsTrue};
ghost use Rattle.oz_core.specs.Seats.{IsLineSeat, IsDatanodeSeat, IsNodeSeat};

use oz_core::{Node, Opening};

pub const FLUSHER_SEAT: u16 = 0;

const CALLER_SEAT: u16 = 2;

pub const SCM_SEAT: u16 = 3;

const FIRST_DATANODE_SEAT: u16 = 4;

const FIRST_WORKER_SEAT: u16 = 36;

pub fn is_line_seat(seat: u16) -> bool
    ensures { IsTrue result ↔ IsLineSeat seat }
{
    seat == CALLER_SEAT || seat >= FIRST_WORKER_SEAT
}

pub fn is_datanode_seat(opening: &Opening, dn: u8, seat: u16) -> bool
    ensures { IsTrue result ↔ IsDatanodeSeat opening.now dn seat }
{
    usize::from(dn) < opening.nodes.len() && seat == FIRST_DATANODE_SEAT + u16::from(dn)
}

pub fn is_node_seat(opening: &Opening, node: Node, seat: u16) -> bool
    ensures { IsTrue result ↔ IsNodeSeat opening.now node seat }
{
    match node {
        Node::Manager => seat == FLUSHER_SEAT,
        Node::Scm => seat == SCM_SEAT,
        Node::Datanode(dn) => is_datanode_seat(opening, dn, seat),
    }
}
