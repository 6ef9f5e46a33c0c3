//! Whether the manager may be asked, decide, or ask for a deletion: plain and slow programs, there for tests.
mod asking;
mod deciding;
mod granting;
mod late;
mod pinned;
mod purging;
mod replies;
mod seats;

pub use asking::ask_is_enabled;
pub use deciding::decide_is_enabled;
pub use purging::purge_ask_is_enabled;
