//! Tables from the bodies of a manager's journal.
mod body;
mod building;
mod fault;
mod laws;
mod needs;

pub use building::build;
pub use fault::BuildFault;
pub use laws::bodies_make_one_thing;
