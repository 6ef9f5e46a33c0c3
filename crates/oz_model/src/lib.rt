//! The namespace as one thread sees it: what it replies to each request, and what is left. The programs here are plain
//! and slow, and there for tests to compare with.
#![tactic(auto)]

mod answering;
mod keys;
mod laws;
mod reaching;
mod scope;
mod sessions;
mod snapshots;
mod volumes;
mod words;

pub use answering::answer;
pub use laws::{
    a_refusal_or_a_service_request_changes_nothing, a_reply_rests_on_its_stripe,
    names_are_tested_first, only_a_granted_block_comes_into_reach,
};
pub use oz_namespace::{Bucket, NameMap, Namespace, NumberMap, Session, Snapshot};
pub use reaching::reach;
pub use scope::Scope;
