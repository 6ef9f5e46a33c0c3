//! What is due of a container by a view of it. A view is looked at and left as it is.

mod copies;
mod event;
mod holders;
mod view;

pub use copies::plan;
pub use event::step;
pub use holders::sources;
pub use view::{CopyOrder, View};
