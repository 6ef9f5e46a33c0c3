//! Names in texts that show values.

use std::alloc::AllocError;

const FRONT: &str = "Name { bytes: [";

const BEHIND: &str = "] }";

/// Adds the bytes of a name.
fn add_name(text: &mut String, bytes: &str) -> Result<(), AllocError> {
    text.push('"')?;
    for byte in bytes.split(", ") {
        if let Ok(byte) = byte.parse::<u8>() {
            text.push(char::from(byte))?;
        }
    }
    text.push('"')
}

/// Adds a value as it is shown, with each name as its bytes, between quotes. The text is empty before.
pub fn add_named(text: &mut String, shown: &str) -> Result<(), AllocError> {
    for part in shown.split(FRONT) {
        match part.split_once(BEHIND) {
            Some((bytes, rest)) if !text.is_empty() => {
                add_name(text, bytes)?;
                text.push_str(rest)?;
            }
            _ => text.push_str(part)?,
        }
    }
    Ok(())
}
