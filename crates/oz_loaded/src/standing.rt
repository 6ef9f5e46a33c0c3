//! The namespace that rows stand for, made of tables with these rows.
mod buckets;
mod entries;
mod laws;
mod namespace;
mod volumes;

pub use laws::parts_show_their_namespace;
pub use namespace::namespace_of;
