//! What comes of a case.

/// What differs from what a case wants, a line each, and whether the values of the last `each` behind this one needn't be tried, as
/// where no call was left that fails.
#[derive(Debug, Drop)]
pub struct Judged {
    pub differs: Vec<String>,
    pub is_last: bool,
}
