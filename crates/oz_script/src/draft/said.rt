//! The words of a whole line: its client, the line that it waits for, and its command.

ghost use Rattle.std.specs.Prelude.{◌≡◌, IfOk};
ghost use Rattle.oz_command.specs.Words.{words};
ghost use Rattle.oz_script.specs.draft.Said.{said_of, said_behind, said_after};

use oz_command::{Command, command_of, is_client_name, number_in, split_word};
use oz_fields::{Name, OutOfMemory};
use std::alloc::Global;

/// The greatest number of a line that an `after` may name.
pub const GREATEST_AFTER: u64 = 65_535;

/// What the words of a line say.
#[derive(Debug, Drop)]
pub struct Said {
    pub client: Name,
    /// The client and the number of the line that has to be told before, as the line names them.
    pub after: Option<(Name, u16)>,
    pub command: Command,
}

/// What the words behind the client's name say, if they say anything.
#[tactic(auto, unfolding(crate::specs::draft::Said::said_of))]
pub fn said_of(alloc: Global, client: &[u8], line: &[u8]) -> Result<Option<Said>, OutOfMemory>
    ensures { IfOk result (λ said. said ≡ said_of client.now (words line.now)) }
{
    if !is_client_name(client) {
        return Ok(None);
    }
    said_behind(alloc, client, line)
}

#[tactic(auto, unfolding(crate::specs::draft::Said::said_behind))]
fn said_behind(alloc: Global, client: &[u8], line: &[u8]) -> Result<Option<Said>, OutOfMemory>
    ensures { IfOk result (λ said. said ≡ said_behind client.now (words line.now)) }
{
    let Some((word, rest)) = split_word(line) else {
        return Ok(None);
    };
    if word == b"after".as_slice() {
        return said_after(alloc, client, rest);
    }
    let Some(command) = command_of(alloc, line)? else {
        return Ok(None);
    };
    let client = Name::copy(alloc, client)?;
    Ok(Some(Said {
        client,
        after: None,
        command,
    }))
}

#[tactic(auto, unfolding(crate::specs::draft::Said::said_after))]
fn said_after(alloc: Global, client: &[u8], line: &[u8]) -> Result<Option<Said>, OutOfMemory>
    ensures { IfOk result (λ said. said ≡ said_after client.now (words line.now)) }
{
    let Some((other, rest)) = split_word(line) else {
        return Ok(None);
    };
    let Some((number, rest)) = split_word(rest) else {
        return Ok(None);
    };
    if !is_client_name(other) {
        return Ok(None);
    }
    let Some(number) = number_in(number, 0, GREATEST_AFTER) else {
        return Ok(None);
    };
    let Some(command) = command_of(alloc, rest)? else {
        return Ok(None);
    };
    let client = Name::copy(alloc, client)?;
    let other = Name::copy(alloc, other)?;
    Ok(Some(Said {
        client,
        after: Some((other, number as u16)),
        command,
    }))
}
