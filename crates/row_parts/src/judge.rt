//! Going through the statements of a case.

use crate::cache::say_of_cache;
use crate::names::say_name;
use crate::rows::say_bytes;
use crate::tables::say_of_tables;
use crate::told::{compare, given, tell, tell_unread};
use case_files::{Judged, Statement};
use oz_cache::Cached;
use oz_tables::Tables;
use std::alloc::{AllocError, Global};

/// What a case is about: tables, and newer rows above others.
#[derive(Drop)]
struct Store {
    tables: Tables,
    cached: Cached,
}

/// Words may stand behind the first of such a statement.
fn takes_words(verb: &str) -> bool {
    match verb {
        "plain" | "key" | "stripe" | "cut" => true,
        "row" | "kept" | "body" | "swept-row" | "swept-body" => true,
        "part" | "look" | "durable-look" | "flush" => true,
        _ => false,
    }
}

/// Adds to a text what comes of a statement in a case of this part, and says whether it can be read.
fn say(
    alloc: Global,
    part: &str,
    store: &mut Store,
    statement: &Statement,
    came: &mut String,
) -> Result<bool, AllocError> {
    let line = statement.words_from(alloc, 1)?;
    let said = given(line.as_str());
    if !said.is_empty() && !takes_words(statement.word(0)) {
        return Ok(false);
    }
    match part {
        "names" => say_name(alloc, statement, said, came),
        "rows" => say_bytes(alloc, statement, said, came),
        "tables" => say_of_tables(alloc, &mut store.tables, statement, came),
        "cache" => say_of_cache(alloc, &mut store.cached, statement, said, came),
        _ => Ok(false),
    }
}

fn judge_one(
    alloc: Global,
    part: &str,
    store: &mut Store,
    statement: &Statement,
    differs: &mut Vec<String>,
) -> Result<(), AllocError> {
    let mut came = String::new(alloc);
    match say(alloc, part, store, statement, &mut came) {
        Ok(true) => compare(alloc, differs, statement, came.as_str()),
        Ok(false) => tell_unread(alloc, differs, statement, came.as_str()),
        Err(_) => tell(
            alloc,
            differs,
            statement.line,
            "a call answered that memory ran out",
            "",
        ),
    }
}

/// Judges a case, whose first word is `names`, `rows`, `tables` or `cache`.
pub fn judge_rows(alloc: Global, case: &[Statement]) -> Result<Judged, AllocError> {
    let mut differs = Vec::new(alloc);
    let mut store = Store {
        tables: Tables::new(alloc),
        cached: Cached::over(alloc, Tables::new(alloc)),
    };
    if let Some(first) = case.first() {
        for statement in case.iter().skip(1) {
            judge_one(alloc, first.word(0), &mut store, statement, &mut differs)?;
        }
    }
    Ok(Judged {
        differs,
        is_last: false,
    })
}
