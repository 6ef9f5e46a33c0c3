//! Which part of the store a case is of.

use crate::commands::judge_commands;
use crate::scripts::judge_scripts;
use crate::steps::judge_steps;
use crate::stories::judge_stories;
use crate::unread::{holds, unread};
use crate::views::judge_views;
use crate::words::judge_words;
use case_files::{Judged, Statement};
use node_parts::{
    judge_containers, judge_datanode, judge_journal, judge_logs, judge_nodes, judge_scm,
};
use request_parts::judge_requests;
use row_parts::judge_rows;
use std::alloc::{AllocError, Global};

/// Whether a statement of a part takes a block. Those of the parts that aren't named here look themselves.
fn takes_block(part: &str, word: &str) -> bool {
    match part {
        "stories" => matches!(
            word,
            "opening"
                | "after"
                | "may"
                | "may-not"
                | "lawful"
                | "breaks"
                | "prints"
                | "no-events"
                | "no-things"
        ),
        "commands" | "words" => word == "table",
        "containers" | "logs" | "nodes" | "scm" => word == "calls",
        "requests" => matches!(word, "ask" | "plain" | "rows" | "drawn" | "reclaimable"),
        "scripts" => matches!(word, "script" | "is" | "text"),
        "steps" => false,
        "views" => word == "view",
        _ => true,
    }
}

/// The first statement of a case that has a block and takes none.
fn first_odd_block<'a>(part: &str, case: &'a [Statement]) -> Option<&'a Statement> {
    for statement in case {
        if !statement.block.is_empty() && !takes_block(part, statement.word(0)) {
            return Some(statement);
        }
    }
    None
}

/// Judges a case: its first statement says of which part it is.
pub fn judge(alloc: Global, case: &[Statement]) -> Result<Judged, AllocError> {
    let Some(first) = case.first() else {
        return Ok(holds(alloc));
    };
    if let Some(odd) = first_odd_block(first.word(0), case) {
        return unread(alloc, odd, "it takes no block");
    }
    match first.word(0) {
        "stories" => judge_stories(alloc, case),
        "commands" => judge_commands(alloc, case),
        "containers" => judge_containers(alloc, case),
        "datanode" => judge_datanode(alloc, case),
        "journal" => judge_journal(alloc, case),
        "logs" => judge_logs(alloc, case),
        "nodes" => judge_nodes(alloc, case),
        "requests" => judge_requests(alloc, case),
        "scm" => judge_scm(alloc, case),
        "scripts" => judge_scripts(alloc, case),
        "steps" => judge_steps(alloc, case),
        "views" => judge_views(alloc, case),
        "words" => judge_words(alloc, case),
        "cache" | "names" | "rows" | "tables" => judge_rows(alloc, case),
        _ => unread(alloc, first, "no part has this name"),
    }
}
