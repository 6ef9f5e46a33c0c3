//! The words of what a line puts.

ghost use Rattle.std.specs.Prelude.{◌≡◌, IfOk};
ghost use Rattle.oz_command.specs.Commands.{fill_of, payload_of, text_of};
ghost use Rattle.oz_command.specs.Words.{words};

use crate::command::Data;
use crate::numbers::number_in;
use crate::payload::{LONGEST_FILL, LONGEST_TEXT};
use crate::words::{only_word, split_word};
use oz_fields::{Name, OutOfMemory};
use std::alloc::Global;

#[tactic(auto, unfolding(crate::specs::Commands::payload_of))]
pub fn payload_of(alloc: Global, line: &[u8]) -> Result<Option<Data>, OutOfMemory>
    ensures { IfOk result (λ payload. payload ≡ payload_of (words line.now)) }
{
    let Some((form, rest)) = split_word(line) else {
        return Ok(None);
    };
    if form == b"text".as_slice() {
        return text_of(alloc, rest);
    }
    if form == b"fill".as_slice() {
        return Ok(fill_of(rest));
    }
    Ok(None)
}

#[tactic(auto, unfolding(crate::specs::Commands::text_of))]
fn text_of(alloc: Global, line: &[u8]) -> Result<Option<Data>, OutOfMemory>
    ensures { IfOk result (λ payload. payload ≡ text_of (words line.now)) }
{
    let Some(text) = only_word(line) else {
        return Ok(None);
    };
    if text.len() > LONGEST_TEXT {
        return Ok(None);
    }
    Ok(Some(Data::Text(Name::copy(alloc, text)?)))
}

#[tactic(auto, unfolding(crate::specs::Commands::fill_of))]
fn fill_of(line: &[u8]) -> Option<Data>
    ensures { result ≡ fill_of (words line.now) }
{
    let Some((number, rest)) = split_word(line) else {
        return None;
    };
    let Some(size) = only_word(rest) else {
        return None;
    };
    let Some(number) = number_in(number, 0, u64::MAX) else {
        return None;
    };
    let Some(size) = number_in(size, 0, u64::from(LONGEST_FILL)) else {
        return None;
    };
    Some(Data::Fill {
        number,
        length: size as u32,
    })
}
