//! What a line waits for.

/// What a line waits for. Lines are given by their places among all lines, counted from 0.
#[derive(Clone, Copy, Debug)]
pub struct Waits {
    /// The client whose line it is.
    pub client: u16,
    /// The line before of its client.
    pub before: Option<usize>,
    /// The line that it names.
    pub after: Option<usize>,
}
