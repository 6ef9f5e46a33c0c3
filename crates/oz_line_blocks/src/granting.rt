//! A line's stripe, which has no block left for it, is granted more; or it is known what the line is to be told.
mod granting;
mod looking;

pub use granting::{Granting, grant_for};
