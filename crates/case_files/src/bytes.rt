//! Bytes as words.

use std::alloc::{AllocError, Global};

fn digit(byte: u8) -> Option<u8> {
    match byte {
        b'0'..=b'9' => Some(byte - b'0'),
        b'a'..=b'f' => Some(byte - b'a' + 10),
        _ => None,
    }
}

/// Adds the bytes of hexadecimal digits, and says whether they are such.
fn add_digits(bytes: &mut Vec<u8>, digits: &[u8]) -> Result<bool, AllocError> {
    for pair in digits.chunks(2) {
        let byte = match pair {
            [high, low] => digit(*high).zip(digit(*low)),
            _ => None,
        };
        let Some((high, low)) = byte else {
            return Ok(false);
        };
        bytes.push(high.wrapping_mul(16).wrapping_add(low))?;
    }
    Ok(true)
}

/// Adds the bytes of a word, and says whether it is one.
fn add_word(bytes: &mut Vec<u8>, word: &str) -> Result<bool, AllocError> {
    if let Some(text) = word.strip_prefix('\'') {
        bytes.extend_from_slice(text.as_bytes())?;
        return Ok(true);
    }
    add_digits(bytes, word.as_bytes())
}

/// Adds the bytes of a word so often, and says whether it is one.
fn add_times(bytes: &mut Vec<u8>, word: &str, times: u64) -> Result<bool, AllocError> {
    for _ in 0..times {
        if !add_word(bytes, word)? {
            return Ok(false);
        }
    }
    Ok(true)
}

/// The bytes of words, and nothing where one isn't of this form: pairs of hexadecimal digits, small letters among them, as
/// `00ff`; or the bytes of a text behind a `'`, as `'vol1`; or one of both behind a number, as `16*00`, so many times.
pub fn bytes_of(alloc: Global, words: &str) -> Result<Option<Vec<u8>>, AllocError> {
    let mut bytes = Vec::new(alloc);
    for word in words.split(' ') {
        let is_well = match word.split_once('*') {
            Some((times, word)) => match times.parse::<u64>() {
                Ok(times) => add_times(&mut bytes, word, times)?,
                Err(_) => false,
            },
            None => add_word(&mut bytes, word)?,
        };
        if !is_well {
            return Ok(None);
        }
    }
    Ok(Some(bytes))
}
