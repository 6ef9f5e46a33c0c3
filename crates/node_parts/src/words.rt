//! Words and numbers in a line.

use crate::told::Stuck;
use case_files::{bytes_of, values_of};
use std::alloc::{AllocError, Global};

/// The first word, and those behind it.
pub fn parted(text: &str) -> (&str, &str) {
    match text.split_once(' ') {
        Some((first, behind)) => (first, behind),
        None => (text, ""),
    }
}

/// A call, and what it is to come to.
pub fn answered(line: &str) -> (&str, &str) {
    match line.split_once(" => ") {
        Some((call, wanted)) => (call, wanted),
        None => (line, ""),
    }
}

pub fn number(word: &str) -> Result<u64, Stuck> {
    match word.parse::<u64>() {
        Ok(number) => Ok(number),
        Err(_) => Err(Stuck::Unread),
    }
}

/// A number that has 32 bits.
pub fn size(word: &str) -> Result<u32, Stuck> {
    match word.parse::<u32>() {
        Ok(number) => Ok(number),
        Err(_) => Err(Stuck::Unread),
    }
}

/// A number that has 8 bits.
pub fn small(word: &str) -> Result<u8, Stuck> {
    match word.parse::<u8>() {
        Ok(number) => Ok(number),
        Err(_) => Err(Stuck::Unread),
    }
}

fn parts_of(alloc: Global, word: &str) -> Result<Vec<String>, AllocError> {
    let mut parts = Vec::new(alloc);
    for part in word.split(',') {
        parts.push(String::from_str(alloc, part)?)?;
    }
    Ok(parts)
}

/// The numbers of a word as `0,3..5`, none for `-`.
pub fn numbers(alloc: Global, word: &str) -> Result<Vec<u64>, Stuck> {
    if word == "-" {
        return Ok(Vec::new(alloc));
    }
    match values_of(alloc, &parts_of(alloc, word)?)? {
        Some(numbers) => Ok(numbers),
        None => Err(Stuck::Unread),
    }
}

/// The same of numbers that have 8 bits.
pub fn smalls(alloc: Global, word: &str) -> Result<Vec<u8>, Stuck> {
    let mut smalls = Vec::new(alloc);
    for number in &numbers(alloc, word)? {
        match u8::try_from(*number) {
            Ok(small) => smalls.push(small)?,
            Err(_) => return Err(Stuck::Unread),
        }
    }
    Ok(smalls)
}

/// The bytes that words say.
pub fn bytes(alloc: Global, words: &str) -> Result<Vec<u8>, Stuck> {
    match bytes_of(alloc, words)? {
        Some(bytes) => Ok(bytes),
        None => Err(Stuck::Unread),
    }
}
