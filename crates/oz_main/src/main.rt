//! `ozone`, the program: its words, real files for disks, and the standard streams.
#![tactic(auto)]

ghost use Rattle.std.specs.Prelude.{◌≡◌, ◌≤◌, ℕ, map, vec_len};
ghost use Rattle.std.specs.String.{string_bytes};
ghost use Rattle.oz_command.specs.command_line.Words.{IsRun, IsRunWith};

mod folder;

use folder::disks_for;
use oz_command::words_of_a_run_have_no_fault;
use oz_host::{
    Disks, Ended, Status, StdinSource, WriterSink, let_go, run, take_closed_streams, words_given,
};
use oz_world::{Disk, OpenGate};
use std::alloc::Global;
use std::io::{Stdin, Stdout};
use std::process::ExitCode;
use std::sync::Wait;
use std::thread::Threads;

const HELP: &str = "usage: ozone run DIR [--nodes N] [--workers N]
Runs the script on standard input over the disks in the folder DIR, and prints the report.
DIR must be there. The options may stand in either order. --nodes says how many datanodes
there are, 3 to 16, and 3 if nothing is said; --workers how many threads serve the clients
of the script, 1 to 16, and 4 if nothing is said.
";

const VERSION: &str = "ozone 0.1.0
";

/// Runs the script over these disks, and answers the program's status, with the disks as the run left them.
fn serve<D: Disk + Drop + Send, R: Threads + Wait + Sync>(
    rt: &R,
    alloc: Global,
    words: &[String],
    stdin: Stdin,
    stdout: Stdout,
    disks: Disks<D>,
) -> (u8, Disks<D>)
    requires nodes { (nodes workers : ℕ) → IsRunWith (map string_bytes words.now) nodes workers →
        vec_len disks.nodes ≡ nodes }
    ensures known { result.0 ≤ 7 }
    ensures refused { result.0 ≡ 2 → IsRun (map string_bytes words.now) → ⊥ }
    ensures served { result.0 ≡ 0 → IsRun (map string_bytes words.now) }
{
    words_of_a_run_have_no_fault();
    let mut source = StdinSource::new(stdin);
    let mut out = WriterSink::new(stdout);
    let Ended {
        status,
        story: _,
        disks,
    } = run(rt, alloc, words, &mut source, &mut out, disks, &OpenGate);
    (status, disks)
}

/// The status of a program that finds no memory for its words or its disks.
fn no_memory() -> u8
    ensures { result ≡ 7 }
{
    Status::OutOfMemory.number()
}

/// Answers the two words that stand alone, and runs all others over the disks in the folder that they name.
fn main(rt: HostRuntime) -> ExitCode {
    let Ok(words) = words_given(&rt, rt.alloc()) else {
        return ExitCode::from(no_memory());
    };
    match &words[..] {
        [word] if word.as_str() == "--help" => {
            return ExitCode::from(WriterSink::new(rt.stdout()).tell(HELP));
        }
        [word] if word.as_str() == "--version" => {
            return ExitCode::from(WriterSink::new(rt.stdout()).tell(VERSION));
        }
        _ => {}
    }
    let _closed = take_closed_streams(&rt);
    let Ok(disks) = disks_for(&rt, rt.alloc(), &words) else {
        return ExitCode::from(no_memory());
    };
    let (status, disks) = serve(&rt, rt.alloc(), &words, rt.stdin(), rt.stdout(), disks);
    let_go(disks);
    ExitCode::from(status)
}
