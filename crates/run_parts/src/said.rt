//! What a statement of a case comes to.

use oz_world::OutOfMemory;

/// What a statement comes to.
#[derive(Clone, Copy, Debug, PartialEq, Eq)]
pub enum Said {
    Well,
    /// It can't be read.
    Unread,
    /// Something else came than it wants, as the text beside it says.
    Differs,
    /// It holds, and the values behind this one needn't be tried.
    Last,
}

impl Said {
    /// Well where this could be read.
    pub fn if_read(is_read: bool) -> Said {
        if is_read { Said::Well } else { Said::Unread }
    }
}

/// Well where this is so, and else adds what was wanted and what came in its place.
pub fn differs_unless(
    is_so: bool,
    wanted: &str,
    came: &str,
    why: &mut String,
) -> Result<Said, OutOfMemory> {
    if is_so {
        return Ok(Said::Well);
    }
    write!(why, "wanted {wanted}, came {came}")?;
    Ok(Said::Differs)
}
