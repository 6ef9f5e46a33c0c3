//! What a label stands for.

use oz_fields::{List, Name, Piece};

/// What the last line that opened a label wrote: the session that it opened, on which key, and its pieces in order.
#[derive(Drop)]
pub struct Label {
    pub volume: Name,
    pub bucket: Name,
    pub key: Name,
    pub session: u64,
    pub pieces: List<Piece>,
}
