//! The service job: what nothing reaches any more goes, step by step.

mod asking;
mod fault;
mod logging;
mod naming;
mod parts;
mod passing;
mod purging;
mod sending;
mod service;

pub use crate::pass::fault::PassFault;
pub use crate::pass::parts::Parts;
pub use crate::pass::passing::Passed;
pub use crate::pass::service::Service;
