//! Requests and replies as text.

use crate::wrong::Wrong;
use case_files::bytes_of;
use oz_fields::{Block, List, Name, Piece};
use oz_requests::{Reply, Request};
use std::alloc::{AllocError, Global};
use story_parts::{Words, request};

/// The case can't be read, or doesn't hold, as this line says.
pub fn cannot(why: &mut String, line: &str) -> Result<(), Wrong> {
    why.push_str(line)?;
    Err(Wrong::Line)
}

/// Adds the bytes of a word as text, and says whether it is one.
fn add_bytes(alloc: Global, text: &mut String, word: &str) -> Result<bool, AllocError> {
    match bytes_of(alloc, word)? {
        Some(bytes) => {
            text.push_str(String::from_utf8_lossy(alloc, bytes.as_slice())?.as_str())?;
            Ok(true)
        }
        None => Ok(false),
    }
}

/// Adds the name that these words say, which stand between commas.
fn add_said_name(
    alloc: Global,
    text: &mut String,
    said: &str,
    why: &mut String,
) -> Result<(), Wrong> {
    for word in said.split(',') {
        if !add_bytes(alloc, text, word)? {
            write!(why, "no name is written so: `{said}`")?;
            return Err(Wrong::Line);
        }
    }
    Ok(())
}

/// Adds the words of a request with a tab between two. A word `name:WORDS` is the name whose bytes these words are, with a comma
/// between two.
fn spell(alloc: Global, text: &mut String, said: &str, why: &mut String) -> Result<(), Wrong> {
    for word in said.split(' ') {
        if !text.is_empty() {
            text.push('\t')?;
        }
        match word.strip_prefix("name:") {
            Some(name) => add_said_name(alloc, text, name, why)?,
            None => text.push_str(word)?,
        }
    }
    Ok(())
}

/// The request that a case says so.
pub fn request_of(alloc: Global, said: &str, why: &mut String) -> Result<Request, Wrong> {
    let mut text = String::new(alloc);
    spell(alloc, &mut text, said, why)?;
    let mut words = Words::new(text.as_str(), '\t');
    let request = request(alloc, &mut words)?;
    if words.are_read() {
        return Ok(request);
    }
    write!(why, "no request is written so: `{said}`")?;
    Err(Wrong::Line)
}

/// Adds a name as a word, `-` where it is empty.
pub fn add_name(alloc: Global, text: &mut String, name: &Name) -> Result<(), AllocError> {
    if name.bytes().is_empty() {
        return text.push('-');
    }
    text.push_str(String::from_utf8_lossy(alloc, name.bytes())?.as_str())
}

fn add_names(alloc: Global, text: &mut String, names: &[Name]) -> Result<(), AllocError> {
    if names.is_empty() {
        return text.push('-');
    }
    let mut is_first = true;
    for name in names {
        if !is_first {
            text.push(',')?;
        }
        is_first = false;
        add_name(alloc, text, name)?;
    }
    Ok(())
}

/// Adds pieces with commas between them, or `-` for none.
pub fn add_pieces(text: &mut String, pieces: &[Piece]) -> Result<(), AllocError> {
    if pieces.is_empty() {
        return text.push('-');
    }
    let mut is_first = true;
    for Piece { block, length } in pieces {
        if !is_first {
            text.push(',')?;
        }
        is_first = false;
        write!(text, "{}.{}:{length}", block.container, block.local)?;
    }
    Ok(())
}

/// Adds blocks with commas between them, or `-` for none.
pub fn add_blocks(text: &mut String, blocks: &[Block]) -> Result<(), AllocError> {
    if blocks.is_empty() {
        return text.push('-');
    }
    let mut is_first = true;
    for Block { container, local } in blocks {
        if !is_first {
            text.push(',')?;
        }
        is_first = false;
        write!(text, "{container}.{local}")?;
    }
    Ok(())
}

fn add_names_reply(alloc: Global, text: &mut String, names: &List<Name>) -> Result<(), AllocError> {
    text.push_str("names ")?;
    add_names(alloc, text, names.items())
}

fn add_pieces_reply(text: &mut String, pieces: &List<Piece>) -> Result<(), AllocError> {
    text.push_str("pieces ")?;
    add_pieces(text, pieces.items())
}

/// Adds a reply, as cases and stories have it.
fn add_reply(alloc: Global, text: &mut String, reply: &Reply) -> Result<(), AllocError> {
    match reply {
        Reply::Done => text.push_str("done"),
        Reply::Count(count) => write!(text, "count {count}"),
        Reply::Counts(it) => { write!(text, "counts {} {} {}", it.keys, it.sessions, it.snapshots) }
        Reply::Names(names) => add_names_reply(alloc, text, names),
        Reply::Session(number) => write!(text, "session {number}"),
        Reply::Granted(block, pipeline) => {
            write!(
                text,
                "granted {}.{} {pipeline}",
                block.container, block.local
            )
        }
        Reply::Pieces(pieces) => add_pieces_reply(text, pieces),
        Reply::Code(code) => text.push_str(code.text()),
    }
}

/// A reply, as cases and stories have it.
pub fn reply_text(alloc: Global, reply: &Reply) -> Result<String, AllocError> {
    let mut text = String::new(alloc);
    add_reply(alloc, &mut text, reply)?;
    Ok(text)
}
