//! What is read, for whom, and where.

use crate::reading::lack::Doubted;
use oz_fields::Piece;
use oz_requests::AskId;

/// A piece that is read for an ask of a line at the members of its block, but for those that were doubted before. `by` is
/// the number of the worker's seat.
#[derive(Clone, Copy)]
pub(crate) struct Wanted {
    pub by: u16,
    pub id: AskId,
    pub piece: Piece,
    pub members: [u8; 3],
    pub doubted: Doubted,
}
