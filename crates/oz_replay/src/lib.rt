//! What a story makes of the manager's namespace, and which blocks it used: plain and slow programs, there for tests.
#![tactic(auto)]

mod asked;
mod buckets;
mod leaving;
mod replay;
mod used;

pub use asked::{is_id, pending};
pub use replay::{kept_up_to, namespace_of};
pub use used::{are_used_up_to, has_block, is_used};
