//! `oz_files`, the program that puts a file into a key of the store, or gets one out: its words, real files for disks, and
//! the standard streams.
#![tactic(auto)]

ghost use Rattle.std.specs.Prelude.{◌≡◌, ◌≤◌, ℕ, map, vec_len};
ghost use Rattle.std.specs.String.{string_bytes};
ghost use Rattle.oz_host.specs.file_types.words.Way.{Way as AnyWay};
ghost use Rattle.oz_host.specs.files.Words.{IsTransfer, IsTransferWith};
ghost use Rattle.oz_command.specs.declared.paths.KeyPath.{KeyPath};

mod folder;

use folder::disks_for;
use oz_host::{
    Disks, Ended, Outcome, StdinSource, WriterSink, let_go, take_closed_streams, transfer,
    words_given, words_of_a_transfer_have_no_fault,
};
use oz_world::{Disk, OpenGate};
use std::alloc::Global;
use std::io::{Stderr, Stdin, Stdout};
use std::process::ExitCode;
use std::sync::Wait;
use std::thread::Threads;

const HELP: &str = "usage: oz_files put DIR /VOLUME/BUCKET/KEY [--nodes N] [--workers N] < FILE
       oz_files get DIR /VOLUME/BUCKET/KEY [--nodes N] [--workers N] > FILE
Puts standard input, at most 1048576 bytes, into a key of the store in the folder DIR, or
writes the bytes of a key to standard output. What else there is to say is said on standard
error. DIR must be there. The options are those of a run, and may stand in either order.
";

const VERSION: &str = "ozone 0.1.0
";

/// Puts or gets a file over these disks, and answers the program's status, with the disks as the transfer left them.
fn serve<D: Disk + Drop + Send, R: Threads + Wait + Sync>(
    rt: &R,
    alloc: Global,
    words: &[String],
    stdin: Stdin,
    stdout: Stdout,
    stderr: Stderr,
    disks: Disks<D>,
) -> (u8, Disks<D>)
    requires nodes { (way : AnyWay) (path : KeyPath) (nodes workers : ℕ) →
        IsTransferWith (map string_bytes words.now) way path nodes workers → vec_len disks.nodes ≡ nodes }
    ensures known { result.0 ≤ 8 }
    ensures refused { result.0 ≡ 2 → IsTransfer (map string_bytes words.now) → ⊥ }
    ensures served { result.0 ≡ 0 → IsTransfer (map string_bytes words.now) }
{
    words_of_a_transfer_have_no_fault();
    let mut source = StdinSource::new(stdin);
    let mut out = WriterSink::new(stdout);
    let mut errors = WriterSink::new(stderr);
    let Ended {
        status,
        story: _,
        disks,
    } = transfer(
        rt,
        alloc,
        words,
        &mut source,
        &mut out,
        &mut errors,
        disks,
        &OpenGate,
    );
    (status, disks)
}

/// The status of a program that finds no memory for its words or its disks.
fn no_memory() -> u8
    ensures { result ≡ 7 }
{
    Outcome::OutOfMemory.number()
}

/// Answers the two words that stand alone, and serves all others over the disks in the folder that they name.
fn main(rt: HostRuntime) -> ExitCode {
    let Ok(words) = words_given(&rt, rt.alloc()) else {
        return ExitCode::from(no_memory());
    };
    match &words[..] {
        [word] if word.as_str() == "--help" => {
            return ExitCode::from(WriterSink::new(rt.stdout()).tell(HELP));
        }
        [word] if word.as_str() == "--version" => {
            return ExitCode::from(WriterSink::new(rt.stdout()).tell(VERSION));
        }
        _ => {}
    }
    let _closed = take_closed_streams(&rt);
    let Ok(disks) = disks_for(&rt, rt.alloc(), &words) else {
        return ExitCode::from(no_memory());
    };
    let (status, disks) = serve(
        &rt,
        rt.alloc(),
        &words,
        rt.stdin(),
        rt.stdout(),
        rt.stderr(),
        disks,
    );
    let_go(disks);
    ExitCode::from(status)
}
