//! Where a key stands.

use oz_fields::Name;

/// A key: its volume, its bucket and its own name, all lent.
#[derive(Clone, Copy)]
pub(crate) struct KeyPath<'n> {
    pub volume: &'n Name,
    pub bucket: &'n Name,
    pub key: &'n Name,
}
