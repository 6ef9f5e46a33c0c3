//! Cases of `names`.
//!
//! - `plain BYTES`: what the tests of names of volumes, of buckets and of snapshots say, `OK` or a code each.
//! - `key BYTES`: what the test of key names says.
//! - `stripe BYTES`: the stripe of a volume of this name.
//! - `cut PARTS BYTES`: the volume, the bucket and the rest of a path that is cut into so many parts, or `no path`.

use crate::told::is_bare;
use case_files::{Statement, bytes_of};
use oz_names::{Code, bucket_name, key_name, snapshot_name, split_path, stripe_of, volume_name};
use std::alloc::{AllocError, Global};
use std::str;

fn told(answer: Result<(), Code>) -> &'static str {
    match answer {
        Ok(()) => "OK",
        Err(code) => code.text(),
    }
}

fn text_of(bytes: &[u8]) -> &str {
    str::from_utf8(bytes).unwrap_or("?")
}

/// What the tests of names say of one.
fn say_plain(name: &[u8], came: &mut String) -> Result<(), AllocError> {
    let volume = told(volume_name(name));
    let bucket = told(bucket_name(name));
    let snapshot = told(snapshot_name(name));
    write!(came, "{volume}, {bucket}, {snapshot}\n")
}

/// The parts of a path.
fn say_cut(path: &[u8], parts: u8, came: &mut String) -> Result<bool, AllocError> {
    if !(1..=3).contains(&parts) {
        return Ok(false);
    }
    match split_path(path, parts) {
        Some(cut) => write!(
            came,
            "[{}] [{}] [{}]\n",
            text_of(cut.volume),
            text_of(cut.bucket),
            text_of(cut.rest)
        )?,
        None => came.push_str("no path\n")?,
    }
    Ok(true)
}

fn say_path(alloc: Global, said: &str, came: &mut String) -> Result<bool, AllocError> {
    let Some((parts, words)) = said.split_once(' ') else {
        return Ok(false);
    };
    match (parts.parse::<u8>(), bytes_of(alloc, words)?) {
        (Ok(parts), Some(path)) => say_cut(&path, parts, came),
        _ => Ok(false),
    }
}

/// Adds what comes of a statement, and says whether it can be read.
pub fn say_name(
    alloc: Global,
    statement: &Statement,
    said: &str,
    came: &mut String,
) -> Result<bool, AllocError> {
    if !is_bare(&statement.block) {
        return Ok(false);
    }
    if statement.word(0) == "cut" {
        return say_path(alloc, said, came);
    }
    let Some(name) = bytes_of(alloc, said)? else {
        return Ok(false);
    };
    match statement.word(0) {
        "plain" => say_plain(&name, came)?,
        "key" => write!(came, "{}\n", told(key_name(&name)))?,
        "stripe" => write!(came, "{}\n", stripe_of(&name))?,
        _ => return Ok(false),
    }
    Ok(true)
}
