//! Goes through the cases in its folder that are whole runs over disks in memory, and prints what came of each.
#![tactic(auto)]

mod gate;
mod going;
mod judge;
mod nodes;

use case_files::{Counts, Statement, go_through};
use judge::judge;
use std::process::ExitCode;
use std::{env, io};

/// The words are the names of the cases to go through, without `.case`; with no word it goes through all.
fn main(rt: HostRuntime) -> io::Result<ExitCode> {
    let mut names = Vec::new(rt.alloc());
    for word in env::args(&rt)?.skip(1) {
        names.push(word)?;
    }
    let Counts { failed, .. } = go_through(&rt, &names, &|case: &[Statement]| judge(&rt, case))?;
    Ok(if failed == 0 {
        ExitCode::SUCCESS
    } else {
        ExitCode::FAILURE
    })
}
