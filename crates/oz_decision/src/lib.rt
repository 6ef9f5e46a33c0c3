//! What every decision on a request owes, over rows.
#![tactic(auto)]

mod decision;
mod draft;
mod left;
mod lookups;
mod sessions;
mod versions;
mod walking;

pub use decision::{Decision, LONGEST_BATCH};
pub use draft::Draft;
pub use left::put_deleted;
pub use lookups::{
    bucket_count, bucket_names, has_row, key_count, missing_bucket, session_count, snapshot_count,
};
pub use sessions::{is_good, missing_session, session_blocks};
pub use versions::{is_version, version_blocks};
pub use walking::keys_between;
