//! Workers: each serves the lines of its clients, one after another, from a seat of its own.
#![tactic(auto)]

mod client;
mod flusher;
mod job;
mod labels;
mod laws;
mod passing;
mod pausing;
mod resting;
mod serving;
mod together;
mod worker;

pub use job::Job;
pub use laws::{
    a_clients_lines_are_numbered, a_label_is_opened_by_the_last_line, each_client_has_one_worker,
};
pub use oz_at_work::{Parts, Servers, Shared};
pub use together::{finish, work_together};
pub use worker::Worker;
