//! Which keys of a bucket are listed.

ghost use Rattle.std.specs.Prelude.{◌≡◌, IfOk};
ghost use Rattle.oz_command.specs.Commands.{bound_of, range_of};
ghost use Rattle.oz_command.specs.Words.{words};

use crate::numbers::number_in;
use crate::words::{only_word, split_word};
use oz_fields::{Name, OutOfMemory};
use std::alloc::Global;

/// The longest prefix and the longest start of a list of keys, in bytes.
pub const LONGEST_BOUND: usize = 1_024;

/// Most keys that a list may ask for.
pub const GREATEST_COUNT: u64 = 1_000;

/// So many keys are listed where the line says no number.
pub const COUNT_IF_NONE: u16 = 100;

/// Which keys are listed: at most `count` of those that begin with `prefix` and stand behind `start`.
#[derive(Debug, Drop)]
pub struct KeyRange {
    pub prefix: Name,
    pub start: Name,
    pub count: u16,
}

#[tactic(auto, unfolding(crate::specs::Commands::range_of))]
pub fn range_of(alloc: Global, line: &[u8]) -> Result<Option<KeyRange>, OutOfMemory>
    ensures { IfOk result (λ range. range ≡ range_of (words line.now)) }
{
    let Some((prefix, rest)) = split_word(line) else {
        return Ok(Some(KeyRange {
            prefix: Name::copy(alloc, b"")?,
            start: Name::copy(alloc, b"")?,
            count: COUNT_IF_NONE,
        }));
    };
    let Some((start, rest)) = split_word(rest) else {
        return Ok(None);
    };
    let Some(count) = only_word(rest) else {
        return Ok(None);
    };
    let Some(prefix) = bound_of(alloc, prefix)? else {
        return Ok(None);
    };
    let Some(start) = bound_of(alloc, start)? else {
        return Ok(None);
    };
    let Some(count) = number_in(count, 1, GREATEST_COUNT) else {
        return Ok(None);
    };
    Ok(Some(KeyRange {
        prefix,
        start,
        count: count as u16,
    }))
}

/// A prefix or a start, `-` alone being none.
#[tactic(auto, unfolding(crate::specs::Commands::bound_of))]
fn bound_of(alloc: Global, word: &[u8]) -> Result<Option<Name>, OutOfMemory>
    ensures { IfOk result (λ bound. bound ≡ bound_of word.now) }
{
    if word == b"-".as_slice() {
        return Ok(Some(Name::copy(alloc, b"")?));
    }
    if word.len() > LONGEST_BOUND {
        return Ok(None);
    }
    Ok(Some(Name::copy(alloc, word)?))
}
