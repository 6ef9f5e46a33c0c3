//! The lines of a statement's block.

use crate::fill::filled;
use crate::sweep::range_of;
use std::alloc::{AllocError, Global};

/// The name, the numbers and the text of a line `@NAME LOW..HIGH TEXT`.
fn many_of(line: &str) -> Option<(&str, (u64, u64), &str)> {
    let (name, behind) = line.strip_prefix('@')?.split_once(' ')?;
    let (range, text) = behind.split_once(' ')?;
    Some((name, range_of(range)?, text))
}

/// Adds a line to a block, or the lines that it stands for.
pub(crate) fn add_line(
    alloc: Global,
    block: &mut Vec<String>,
    line: &str,
) -> Result<(), AllocError> {
    let Some((name, (low, high), text)) = many_of(line) else {
        block.push(String::from_str(alloc, line)?)?;
        return Ok(());
    };
    for number in low..=high {
        block.push(filled(alloc, text, name, number)?)?;
    }
    Ok(())
}
