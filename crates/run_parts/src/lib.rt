//! Cases of runs: what a run is given, what it is to leave, and what the plain programs of the law say of it.
//!
//! Which statements a case has is said in `docs/CASES.md`. A statement comes to one word of `Said`; what differs is added to a text that
//! whoever judges has, so that no call hands one back.
#![tactic(auto)]

mod bytes;
mod changes;
mod history;
mod inputs;
mod law;
mod opened;
mod patterns;
mod places;
mod rows;
mod said;
mod same;
mod stage;
mod texts;
mod wants;

pub use inputs::take;
pub use law::judge_law;
pub use places::{Bytes, Place, bytes_at};
pub use said::Said;
pub use stage::{Left, Stage};
pub use wants::want;
