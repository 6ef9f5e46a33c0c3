//! What a transfer does with the answer of its line.

ghost use Rattle.std.specs.Prelude.{◌≡◌, ◌⊎◌, if◌then◌else◌};
ghost use Rattle.oz_cluster.specs.files.Endings.{EndsSo};
ghost use Rattle.oz_cluster.specs.files.Finding.{IsFound};
ghost use Rattle.oz_cluster.specs.files.Streams.{stream};
ghost use Rattle.oz_cluster.specs.files.Telling.{refusal_text};
ghost use Rattle.oz_running.specs.Printed.{Says, memory_fault};
ghost use Rattle.oz_world.specs.Faults.{Rose};

use crate::files::asked::Asked;
use crate::files::outcome::Outcome;
use crate::files::told::{last_told, refusal};
use crate::files::words::Way;
use crate::stop::say;
use crate::streams::write_all;
use crate::texts;
use oz_core::Event;
use oz_requests::{Answer, Values};
use oz_world::Sink;
use std::alloc::Global;

/// What an answer is to a transfer.
pub enum Found<'a> {
    /// The bytes are written.
    Kept,
    /// These bytes were read.
    Read(&'a [u8]),
    /// Something else.
    Other,
}

/// Writes the bytes that were read, or says what else the line was told, and answers how the transfer ends.
pub fn finish_transfer<K: Sink, E: Sink>(
    alloc: Global,
    asked: Asked<'_>,
    story: &[Event],
    any_halted: bool,
    out: &mut K,
    errors: &mut E,
) -> Outcome
    ensures ends { EndsSo asked.entry.size asked.entry.key.now story.now any_halted
        (stream (K.held out.old) (K.held out.new) (Rose (K.faults out.old) (K.faults out.new)))
        (stream (E.held errors.old) (E.held errors.new) (Rose (E.faults errors.old) (E.faults errors.new)))
        asked.entry.way result }
    ensures unwritten { asked.entry.way ≡ Way.Put → out.new ≡ out.old }
{
    let Some(answer) = last_told(story) else {
        say(errors, texts::out_of_memory_text().as_bytes());
        return Outcome::OutOfMemory;
    };
    match found_in(asked.way, asked.size, answer) {
        Found::Kept => served(any_halted),
        Found::Read(read) => match write_all(out, read) {
            Ok(()) => served(any_halted),
            Err(_) => Outcome::Unwritten,
        },
        Found::Other => say_refusal(alloc, asked.key, answer, errors),
    }
}

/// What an answer is to a transfer this way of so many bytes.
fn found_in<'a>(way: Way, size: u64, answer: &'a Answer) -> Found<'a>
    ensures { IsFound way size answer.now result }
{
    let Answer::Ok(values) = answer else {
        return Found::Other;
    };
    match way {
        Way::Put => match values {
            Values::Length(count) if *count == size => Found::Kept,
            _ => Found::Other,
        },
        Way::Get => match values {
            Values::Bytes(read) => Found::Read(read.items()),
            _ => Found::Other,
        },
    }
}

/// How a transfer ends that was served.
fn served(any_halted: bool) -> Outcome
    ensures { result ≡ (if any_halted then Outcome.Disk else Outcome.Done) }
{
    if any_halted {
        Outcome::Disk
    } else {
        Outcome::Done
    }
}

/// Says what the line was told, and answers how the transfer ends.
fn say_refusal<E: Sink>(alloc: Global, key: &str, answer: &Answer, errors: &mut E) -> Outcome
    ensures { let rose = Rose (E.faults errors.old) (E.faults errors.new) in
        ((result ≡ Outcome.Refused)
        × Says (refusal_text key.now answer.now) (E.held errors.old) (E.held errors.new) rose)
        ⊎ ((result ≡ Outcome.OutOfMemory) × Says memory_fault (E.held errors.old) (E.held errors.new) rose) }
{
    let Ok(text) = refusal(alloc, key, answer) else {
        say(errors, texts::out_of_memory_text().as_bytes());
        return Outcome::OutOfMemory;
    };
    say(errors, &text);
    Outcome::Refused
}
