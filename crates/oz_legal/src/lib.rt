//! Whether an event may follow a story, and where a story first breaks the law: plain and slow programs, there for tests.
#![tactic(auto)]

mod enabling;
mod manager_law;
mod parts;
mod stories;

pub use enabling::enabled;
pub use manager_law::{ask_is_enabled, decide_is_enabled, purge_ask_is_enabled};
pub use stories::legal;
