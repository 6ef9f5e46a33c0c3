//! Cases of requests over rows: what the plain program of one thread replies to each, what is decided of it, and what is to be
//! done next with what was deleted, by a walk over the rows and by a sweep beside them.
//!
//! Which statements a case has is said at the heads of `requests.rt`, `drawn.rt` and `reclaiming.rt`.
#![tactic(auto)]

mod asked;
mod drawn;
mod full;
mod given;
mod knowing;
mod lines;
mod reclaiming;
mod requests;
mod rows;
mod said;
mod store;
mod sweeping;
mod wrong;

pub use requests::judge_requests;
