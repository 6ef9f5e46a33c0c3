//! The words of the command line.

ghost use Rattle.std.specs.Prelude.{◌≡◌, [], IfOk};
ghost use Rattle.std.specs.Str.{IsUtf8};
ghost use Rattle.std.specs.String.{string_bytes};

use oz_world::OutOfMemory;
use std::alloc::Global;
use std::env::FillError;
use std::rt::Env;

/// The most bytes that Linux takes for a word, with the zero behind it.
const LONGEST_WORD: usize = 131_072;

/// A word of the command line. One that isn't UTF-8 is read as the empty word, which the grammar refuses
/// wherever it stands.
fn word(alloc: Global, bytes: &[u8]) -> Result<String, OutOfMemory>
    ensures text { IfOk result (λ word. IsUtf8 bytes.now → string_bytes word ≡ bytes.now) }
    ensures no_text { IfOk result (λ word. (IsUtf8 bytes.now → ⊥) → string_bytes word ≡ []) }
{
    match str::from_utf8(bytes) {
        Ok(text) => String::from_str(alloc, text),
        Err(_) => Ok(String::new(alloc)),
    }
}

/// The words of the command line behind the program's name.
pub fn words_given<R: Env>(rt: &R, alloc: Global) -> Result<Vec<String>, OutOfMemory> {
    let mut room = vec![in alloc; 0u8; LONGEST_WORD]?;
    let mut words = Vec::new(alloc);
    for i in 1..usize::MAX {
        match rt.arg(i, &mut room) {
            Ok(length) => words.push(word(alloc, &room[..length])?)?,
            Err(FillError::TooLong) => words.push(String::new(alloc))?,
            Err(FillError::NotPresent) => break,
        }
    }
    Ok(words)
}
