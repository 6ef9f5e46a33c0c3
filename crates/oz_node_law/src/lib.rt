//! Whether a datanode may put, refuse and delete blocks, and a line may have written one: plain and slow programs, for
//! tests.
#![tactic(auto)]

mod deletes;
mod granted;
mod lengths;
mod membership;
mod refused;
mod room;
mod written;

pub use deletes::delete_is_enabled;
pub use granted::put_is_enabled;
pub use membership::members;
pub use refused::refused_is_enabled;
pub use room::given;
pub use written::wrote_is_enabled;
