//! The requests that change a key that is there, decided over rows: it goes, or it gets another name.
mod deciding;
mod deleting;
mod keys;
mod noting;
mod numbers;
mod passing;
mod path;
mod renaming;

pub use deciding::decide_change;
