//! The script of a transfer, which is one line.

ghost use Rattle.std.specs.Prelude.{◌≡◌, IfOk};
ghost use Rattle.oz_cluster.specs.files.Asked.{command_for, script_for};
ghost use Rattle.oz_cluster.specs.files.Reading.{path_of};
ghost use Rattle.oz_script.specs.lines.Numbered.{IsNumbered};

use crate::files::words::Way;
use oz_command::{Command, Data};
use oz_fields::{List, Name, OutOfMemory};
use oz_names::Parts;
use oz_script::{Line, Script};
use std::alloc::Global;

/// What is asked: which way the bytes go, by which word the key is named, and how many bytes were given.
#[derive(Clone, Copy)]
pub struct Asked<'a> {
    pub way: Way,
    pub key: &'a str,
    pub size: u64,
}

/// The script of a transfer, with these bytes for a put.
pub fn script_for(
    alloc: Global,
    way: Way,
    path: Parts<'_>,
    given: &[u8],
) -> Result<Script, OutOfMemory>
    ensures script { IfOk result (λ script. script ≡ script_for way (path_of path.entry) given.now) }
    ensures numbered { IfOk result IsNumbered }
{
    let mut clients = Vec::with_capacity(alloc, 1)?;
    clients.push_reserved(Name::copy(alloc, b"a")?);
    let mut lines = Vec::with_capacity(alloc, 1)?;
    lines.push_reserved(Line {
        client: 1,
        number: 1,
        after: None,
        command: command_for(alloc, way, path, given)?,
    });
    Ok(Script {
        clients: List::of(clients),
        lines: List::of(lines),
    })
}

/// What its line wants.
fn command_for(
    alloc: Global,
    way: Way,
    path: Parts<'_>,
    given: &[u8],
) -> Result<Command, OutOfMemory>
    ensures { IfOk result (λ command. command ≡ command_for way (path_of path.entry) given.now) }
{
    let volume = Name::copy(alloc, path.volume)?;
    let bucket = Name::copy(alloc, path.bucket)?;
    let key = Name::copy(alloc, path.rest)?;
    match way {
        Way::Put => Ok(Command::KeyPut {
            volume,
            bucket,
            key,
            payload: Data::Text(Name::copy(alloc, given)?),
        }),
        Way::Get => Ok(Command::KeyGet {
            volume,
            bucket,
            snapshot: None,
            key,
        }),
    }
}
