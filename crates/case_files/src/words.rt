//! The words of a text that has marks between them.

use std::alloc::{AllocError, Global};

/// Whether a letter stands in a word.
fn is_in_word(letter: char) -> bool {
    letter == '_' || letter.is_ascii_alphanumeric()
}

/// The words of a text, with a blank between two. They are of letters, digits and `_`, and all else only parts them: those of
/// `Halt { node: Scm, count: 1 }` are `Halt node Scm count 1`.
pub fn words_in(alloc: Global, text: &str) -> Result<String, AllocError> {
    let mut words = String::new(alloc);
    let mut is_parted = false;
    for letter in text.chars() {
        if !is_in_word(letter) {
            is_parted = true;
            continue;
        }
        if is_parted && !words.is_empty() {
            words.push(' ')?;
        }
        words.push(letter)?;
        is_parted = false;
    }
    Ok(words)
}
