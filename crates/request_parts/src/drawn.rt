//! Requests that are drawn.
//!
//! `drawn STATE STREAM COUNT LEAST MOST` has a block of requests, of which each time one is drawn. In it a name that a statement
//! `among NAME WORD..` has stands for one of its words, `SESSION` for the volume, the bucket, the key and the number of a
//! session, mostly one of the last four, `PIECES` for most of that session's blocks, each with a length, and `DELETED` for the
//! volume and the key of a deleted row. So many requests change something.

ghost use Rattle.oz_rows.specs.Rows.{IsBlock};

use crate::asked::{Asked, ask};
use crate::rows::{row_lines, stand_alike};
use crate::said::cannot;
use crate::store::{Store, flush, some_words};
use crate::sweeping::sweep;
use crate::wrong::Wrong;
use case_files::Statement;
use oz_fields::Block;
use rand_core::utils::NextWord;
use rand_pcg::Pcg32;
use std::alloc::{AllocError, Global};

/// What a case draws from: its words, and the requests of the statement.
#[derive(Clone, Copy)]
struct Source<'a> {
    case: &'a [Statement],
    requests: &'a [String],
}

/// Where the generator begins, and how many requests are drawn.
fn start_of(statement: &Statement) -> Option<(u64, u64, u64)> {
    Some((
        statement.number(1)?,
        statement.number(2)?,
        statement.number(3)?,
    ))
}

/// Draws requests and asks them of both programs, one after another.
pub fn drawn<'a>(
    alloc: Global,
    case: &'a [Statement],
    store: &mut Store,
    statement: &'a Statement,
) -> Result<(), Wrong> {
    let (Some((state, stream, count)), Some(least), Some(most)) = (
        start_of(statement),
        statement.number(4),
        statement.number(5),
    ) else {
        return cannot(&mut store.why, "what is drawn has five numbers");
    };
    let source = Source {
        case,
        requests: &statement.block,
    };
    let mut words = Pcg32::new(state, stream);
    let mut changed = 0u64;
    for _ in 0..count {
        let epoch = store.cached.last_epoch();
        ask_drawn(alloc, source, &mut words, store)?;
        changed = changed.saturating_add(u64::from(store.cached.last_epoch() != epoch));
        if below(&mut words, 4) == 0 {
            flush(&mut store.cached);
            sweep(alloc, store)?;
        }
    }
    if least <= changed && changed <= most {
        return Ok(());
    }
    write!(store.why, "{changed} requests changed something")?;
    Err(Wrong::Line)
}

/// Draws a request, asks it of both programs and compares what they leave.
fn ask_drawn(
    alloc: Global,
    source: Source<'_>,
    words: &mut Pcg32,
    store: &mut Store,
) -> Result<(), Wrong> {
    let text = drawn_text(alloc, source, words, store)?;
    let asked = Asked {
        said: text.as_str(),
        wanted: "any",
    };
    let block = block_of(u32::try_from(store.grants.len()).unwrap_or(0));
    ask(alloc, store, asked, Some((block, 0)))?;
    stand_alike_behind(alloc, store, text.as_str())
}

/// The rows are those of the namespace behind this request.
fn stand_alike_behind(alloc: Global, store: &mut Store, request: &str) -> Result<(), Wrong> {
    let line = String::from_str(alloc, store.why.as_str())?;
    write!(store.why, "{request}: ")?;
    stand_alike(alloc, store)?;
    store.why = line;
    Ok(())
}

/// A block by its number, in a container of four blocks each.
fn block_of(number: u32) -> Block
    ensures { IsBlock result }
{
    let number = u64::from(number);
    Block {
        container: 1 + number / 4,
        local: 1 + number,
    }
}

fn below(words: &mut Pcg32, bound: u32) -> u32 {
    words.next_word().checked_rem(bound).unwrap_or(0)
}

/// One of these words.
fn one_of<'a>(words: &mut Pcg32, among: &'a [String]) -> &'a str {
    let bound = u32::try_from(among.len()).unwrap_or(0);
    match among.get(below(words, bound) as usize) {
        Some(word) => word.as_str(),
        None => "",
    }
}

/// The next request.
fn drawn_text(
    alloc: Global,
    source: Source<'_>,
    words: &mut Pcg32,
    store: &Store,
) -> Result<String, AllocError> {
    let mut text = String::new(alloc);
    for word in one_of(words, source.requests).split(' ') {
        if !text.is_empty() {
            text.push(' ')?;
        }
        add_word(alloc, source, words, store, &mut text, word)?;
    }
    Ok(text)
}

/// Adds what stands for a word of a request.
fn add_word(
    alloc: Global,
    source: Source<'_>,
    words: &mut Pcg32,
    store: &Store,
    text: &mut String,
    word: &str,
) -> Result<(), AllocError> {
    match word {
        "SESSION" => add_session(source, words, store, text),
        "PIECES" => {
            let session = some_words(alloc, text.as_str(), 4)?;
            text.push_str(drawn_pieces(alloc, words, store, session.as_str())?.as_str())
        }
        "DELETED" => add_deleted(alloc, words, store, text),
        _ => text.push_str(drawn_word(source, words, word)),
    }
}

/// Adds the volume of a deleted row, and the row as a Purge names it; one that isn't there where there is none.
fn add_deleted(
    alloc: Global,
    words: &mut Pcg32,
    store: &Store,
    text: &mut String,
) -> Result<(), AllocError> {
    let rows = row_lines(alloc, &store.cached)?;
    match one_of(words, &rows.deleted) {
        "" => text.push_str("vol-a bk-a:0:k:1"),
        row => text.push_str(row),
    }
}

/// One of the words that a name stands for, or the word itself.
fn drawn_word<'a>(source: Source<'a>, words: &mut Pcg32, word: &'a str) -> &'a str {
    for statement in source.case {
        if statement.word(0) == "among" && statement.word(1) == word {
            return one_of(words, statement.words.get(2..).unwrap_or(&[]));
        }
    }
    word
}

/// Adds one of the last sessions that were opened; it may be gone by now. Seldom it adds one that may never have been.
fn add_session(
    source: Source<'_>,
    words: &mut Pcg32,
    store: &Store,
    text: &mut String,
) -> Result<(), AllocError> {
    let back = below(words, 4) as usize;
    if below(words, 8) > 0
        && let Some(session) = store.opened.iter().rev().nth(back)
    {
        return text.push_str(session.as_str());
    }
    for name in ["VOLUME", "BUCKET", "KEY"] {
        text.push_str(drawn_word(source, words, name))?;
        text.push(' ')?;
    }
    write!(text, "{}", below(words, 9))
}

/// Pieces in most of the session's blocks, in either order; seldom one in another block, or with a length that no piece has.
fn drawn_pieces(
    alloc: Global,
    words: &mut Pcg32,
    store: &Store,
    session: &str,
) -> Result<String, AllocError> {
    let is_behind = below(words, 2) == 0;
    let mut text = String::new(alloc);
    for grant in &store.grants {
        if grant.session.as_str() == session && below(words, 4) > 0 {
            let length = below(words, 65_537).saturating_add(1);
            text = with_piece(alloc, text, is_behind, grant.block, length)?;
        }
    }
    if below(words, 16) == 0 {
        let block = block_of(below(words, 64));
        text = with_piece(alloc, text, is_behind, block, 1)?;
    }
    if text.is_empty() {
        text.push('-')?;
    }
    Ok(text)
}

/// The list with a further piece at its end or at its head.
fn with_piece(
    alloc: Global,
    list: String,
    is_behind: bool,
    block: Block,
    length: u32,
) -> Result<String, AllocError> {
    let Block { container, local } = block;
    if list.is_empty() {
        format!(in alloc; "{container}.{local}:{length}")
    } else if is_behind {
        format!(in alloc; "{list},{container}.{local}:{length}")
    } else {
        format!(in alloc; "{container}.{local}:{length},{list}")
    }
}
