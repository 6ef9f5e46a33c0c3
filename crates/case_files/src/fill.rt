//! Numbers in the places that a text leaves for them.

use std::alloc::{AllocError, Global};

/// The number that stands for what `${` and `}` enclose, where it speaks of this name.
fn number_for(inner: &str, name: &str, value: u64) -> Option<u64> {
    let rest = inner.strip_prefix(name)?;
    if rest.is_empty() {
        return Some(value);
    }
    if let Some(more) = rest.strip_prefix('+') {
        return Some(value.saturating_add(more.parse::<u64>().ok()?));
    }
    let less = rest.strip_prefix('-')?;
    Some(value.saturating_sub(less.parse::<u64>().ok()?))
}

/// Adds what stands behind a `${`.
fn add_part(text: &mut String, part: &str, name: &str, value: u64) -> Result<(), AllocError> {
    if let Some((inner, behind)) = part.split_once('}')
        && let Some(number) = number_for(inner, name, value)
    {
        write!(text, "{number}")?;
        return text.push_str(behind);
    }
    text.push_str("${")?;
    text.push_str(part)
}

/// The text with a number in the place of `${NAME}`, and with others in the places of `${NAME+N}` and `${NAME-N}`, which
/// stop at 2^64 - 1 and at 0.
pub fn filled(alloc: Global, text: &str, name: &str, value: u64) -> Result<String, AllocError> {
    let mut made = String::new(alloc);
    let mut is_first = true;
    for part in text.split("${") {
        if is_first {
            made.push_str(part)?;
        } else {
            add_part(&mut made, part, name, value)?;
        }
        is_first = false;
    }
    Ok(made)
}
