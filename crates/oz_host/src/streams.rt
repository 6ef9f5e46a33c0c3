//! The standard streams.

ghost use Rattle.std.specs.Prelude.{◌≡◌, ◌≤◌, ◌⊎◌, None};
ghost use Rattle.oz_world.specs.Calls.{raised};

use oz_world::{Failed, Sink, Source};
use std::fs::File;
use std::io::{Read, Stdin, Write};
use std::rt::Files;

/// Standard input.
#[derive(Drop)]
pub struct StdinSource {
    stdin: Stdin,
    faults: u64,
}

impl StdinSource {
    pub fn new(stdin: Stdin) -> StdinSource
        ensures { result.faults ≡ 0 }
    {
        StdinSource { stdin, faults: 0 }
    }
}

impl Source for StdinSource {
    ghost left = { λ _. None };

    ghost faults = { λ source. source.faults };

    fn faults(&self) -> u64 {
        self.faults
    }

    fn read(&mut self, into: &mut [u8]) -> Result<usize, Failed> {
        match self.stdin.read(into) {
            Ok(count) => Ok(count),
            Err(_) => {
                self.faults = self.faults.saturating_add(1);
                Err(Failed)
            }
        }
    }
}

/// Standard output, or standard error.
#[derive(Drop)]
pub struct WriterSink<W> {
    writer: W,
    faults: u64,
}

impl<W: Write> WriterSink<W> {
    pub fn new(writer: W) -> WriterSink<W>
        ensures { result.faults ≡ 0 }
    {
        WriterSink { writer, faults: 0 }
    }
}

impl<W: Write + Drop> WriterSink<W> {
    /// Writes a text, and answers the program's status: 0, or 4 where it can't be written.
    pub fn tell(mut self, text: &str) -> u8
        ensures { (result ≡ 0) ⊎ (result ≡ 4) }
    {
        match self.writer.write_all(text.as_bytes()) {
            Ok(()) => 0,
            Err(_) => 4,
        }
    }
}

impl<W: Write> Sink for WriterSink<W> {
    ghost held = { λ _. None };

    ghost faults = { λ sink. sink.faults };

    fn faults(&self) -> u64 {
        self.faults
    }

    fn write(&mut self, bytes: &[u8]) -> Result<usize, Failed> {
        match self.writer.write(bytes) {
            Ok(count) if count > 0 => Ok(count),
            _ => {
                self.faults = self.faults.saturating_add(1);
                Err(Failed)
            }
        }
    }
}

/// What stands in the place of standard streams that are closed.
#[derive(Drop)]
pub struct ClosedStreams {
    input: Option<File>,
    output: Option<File>,
    errors: Option<File>,
}

/// Takes the places of the standard streams that are closed, so that no file that is opened later is
/// taken for one. A folder can be neither read nor written, so those streams fail.
pub fn take_closed_streams<R: Files<File = File>>(rt: &R) -> ClosedStreams {
    ClosedStreams {
        input: File::open(rt, "/").ok(),
        output: File::open(rt, "/").ok(),
        errors: File::open(rt, "/").ok(),
    }
}
