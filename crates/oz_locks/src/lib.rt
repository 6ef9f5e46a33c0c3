//! The rows of the manager in sixteen stripes, each behind a lock of its own, with the seat whose Decides they are.
#![tactic(auto)]

mod laws;
mod loaded;
mod pins;
mod pool;
mod reclaim;
mod resting;
mod stripe;
mod stripes;

pub use laws::{a_pool_has_what_is_free, stripes_stay_in_order};
pub use loaded::Loaded;
pub use pins::{Pin, ToldLines, pins_for};
pub use pool::FreeBlock;
pub use resting::Resting;
pub use stripe::Stripe;
pub use stripes::{StripeGuard, Stripes};
