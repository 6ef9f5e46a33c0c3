//! With what a line is refused.

use crate::stills::Stills;
use oz_requests::Answer;

/// What a line is told whose next step can't be done now: as long as it has asked so often, and this stays as
/// it is.
#[derive(Drop)]
pub struct Refused {
    pub(crate) answer: Answer,
    pub(crate) asked: u16,
    pub(crate) still: Stills,
}
