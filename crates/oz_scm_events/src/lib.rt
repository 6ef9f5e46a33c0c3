//! The storage container manager behind a lock, with its seat of the turn: its events say what it does. Each is appended
//! while the lock is held, once what it names is stable.
#![tactic(auto)]

mod acking;
mod cell;
mod granting;
mod laws;
mod logging;
mod noting;
mod reading;
mod readying;
mod retiring;
mod stepping;
mod tracking;

pub use acking::AckFault;
pub use cell::ScmCell;
pub use laws::{
    a_datanode_alone_tells_that_it_runs, a_need_stays_until_a_grant, a_refusal_is_of_the_story,
    the_scm_alone_tells,
};
pub use oz_scm::{Grant, GrantFault, Scm};
pub use stepping::StepFault;
