//! One request, asked of the plain program and decided over rows.

ghost use Rattle.std.specs.Prelude.{IfOk, IsTrue};
ghost use Rattle.oz_om_session.specs.Picks.{IsPick};
ghost use Rattle.oz_rows.specs.Rows.{IsBlock, IsBlockNumber};

use crate::knowing::is_decided_alike;
use crate::rows::stand_alike;
use crate::said::{cannot, reply_text, request_of};
use crate::store::Store;
use crate::sweeping::note_left;
use crate::wrong::Wrong;
use case_files::bytes_of;
use oz_decision::Decision;
use oz_fields::{Block, GREATEST_BLOCK_NUMBER};
use oz_model::answer;
use oz_om::{Outcome, decide};
use oz_requests::{Reply, Request};
use std::alloc::{AllocError, Global};
use story_parts::{Words, reply};

/// A block that no case asks for.
const SPARE: Block = Block {
    container: 1_000,
    local: 1_000_000,
};

/// What is wanted where nothing is said.
const NOT_REFUSED: &str = "not refused";

/// A request of a case, and what it is to come to.
#[derive(Clone, Copy)]
pub struct Asked<'a> {
    pub said: &'a str,
    pub wanted: &'a str,
}

impl<'a> Asked<'a> {
    fn of(text: &'a str) -> Asked<'a> {
        let (said, wanted) = text.split_once(" = ").unwrap_or((text, NOT_REFUSED));
        Asked { said, wanted }
    }

    /// Whether this is what it is to come to: anything for `any`, and all but a code where it isn't said.
    fn is_wanted(&self, reply: &str) -> bool {
        match self.wanted {
            "any" => true,
            NOT_REFUSED => !is_code(reply),
            wanted => wanted == reply,
        }
    }
}

/// Whether a reply is a code, whose letters are great ones.
fn is_code(reply: &str) -> bool {
    reply.starts_with(|letter: char| letter.is_ascii_uppercase())
}

/// Asks these requests of both programs. A request that is to be refused is asked twice, without a picked block and with one.
pub fn ask_all(alloc: Global, store: &mut Store, block: &[String]) -> Result<(), Wrong> {
    for text in block {
        match text.strip_prefix("  ") {
            Some(batch) => is_batch(alloc, store, batch)?,
            None => ask_line(alloc, store, Asked::of(text.as_str()))?,
        }
    }
    stand_alike(alloc, store)
}

/// Asks the request of a line.
fn ask_line(alloc: Global, store: &mut Store, asked: Asked<'_>) -> Result<(), Wrong> {
    ask(alloc, store, asked, pick_in(alloc, asked.wanted)?)?;
    if is_code(asked.wanted) {
        ask(alloc, store, asked, Some((SPARE, 0)))?;
    }
    Ok(())
}

/// The block that a wanted reply grants.
fn pick_in(alloc: Global, wanted: &str) -> Result<Option<(Block, u8)>, AllocError>
    ensures { IfOk result IsPick }
{
    match &reply(alloc, &mut Words::new(wanted, ' '))? {
        Reply::Granted(block, pipeline) if is_block(*block) => Ok(Some((*block, *pipeline))),
        _ => Ok(None),
    }
}

fn is_block(block: Block) -> bool
    ensures { IsTrue result → IsBlock block }
{
    is_number(block.container) && is_number(block.local)
}

fn is_number(number: u64) -> bool
    ensures { IsTrue result → IsBlockNumber number }
{
    1 <= number && number <= GREATEST_BLOCK_NUMBER
}

/// The operations of the last request were these.
fn is_batch(alloc: Global, store: &mut Store, words: &str) -> Result<(), Wrong> {
    if are_said(alloc, store.batch.items(), words)? {
        return Ok(());
    }
    write!(store.why, "wanted the batch `{words}`, there is `")?;
    add_hex(&mut store.why, store.batch.items())?;
    cannot(&mut store.why, "`")
}

/// Whether words say these bytes, and `none` that there are none.
fn are_said(alloc: Global, bytes: &[u8], words: &str) -> Result<bool, AllocError> {
    if words == "none" {
        return Ok(bytes.is_empty());
    }
    match bytes_of(alloc, words)? {
        Some(said) => Ok(said.as_slice() == bytes),
        None => Ok(false),
    }
}

fn add_hex(text: &mut String, bytes: &[u8]) -> Result<(), AllocError> {
    for byte in bytes {
        write!(text, "{byte:02x}")?;
    }
    Ok(())
}

/// Asks a request of both programs, and goes on to what it leaves.
pub fn ask(
    alloc: Global,
    store: &mut Store,
    asked: Asked<'_>,
    pick: Option<(Block, u8)>,
) -> Result<(), Wrong>
    requires { IsPick pick }
{
    let request = request_of(alloc, asked.said, &mut store.why)?;
    match decide(alloc, &store.cached, &request, pick)? {
        Outcome::Decided(decision) => {
            is_decided_alike(alloc, store, &request, &decision)?;
            decided(alloc, store, asked, &request, pick, decision)
        }
        Outcome::NoBlock => is_wanted(store, asked, "no_block"),
        Outcome::NotYet => is_wanted(store, asked, "not_yet"),
    }
}

/// What was decided is what the plain program replies, and both go on to what it leaves.
fn decided(
    alloc: Global,
    store: &mut Store,
    asked: Asked<'_>,
    request: &Request,
    pick: Option<(Block, u8)>,
    decision: Decision,
) -> Result<(), Wrong> {
    are_alike(alloc, store, asked, request, pick, &decision.reply)?;
    if matches!(request, Request::Purge { .. }) {
        store.is_purged = true;
    }
    go_on(alloc, store, decision)?;
    Ok(note_left(alloc, store, request)?)
}

/// What was decided is what the plain program replies, which goes on to what it leaves.
fn are_alike(
    alloc: Global,
    store: &mut Store,
    asked: Asked<'_>,
    request: &Request,
    pick: Option<(Block, u8)>,
    decided: &Reply,
) -> Result<(), Wrong> {
    let plain = replied(alloc, store, request, pick)?;
    compare(alloc, store, asked, decided, &plain)?;
    Ok(store.note(alloc, asked.said, &plain)?)
}

/// What the plain program replies. It goes on to the namespace that is left.
fn replied(
    alloc: Global,
    store: &mut Store,
    request: &Request,
    pick: Option<(Block, u8)>,
) -> Result<Reply, AllocError> {
    let pick = pick.unwrap_or((SPARE, 0));
    let (reply, left) = answer(alloc, &store.namespace, request, Some(pick))?;
    store.namespace = left;
    Ok(reply)
}

/// Both replies are one, and it is wanted.
fn compare(
    alloc: Global,
    store: &mut Store,
    asked: Asked<'_>,
    decided: &Reply,
    plain: &Reply,
) -> Result<(), Wrong> {
    let decided = reply_text(alloc, decided)?;
    let plain = reply_text(alloc, plain)?;
    if asked.is_wanted(decided.as_str()) && decided == plain {
        return Ok(());
    }
    let Asked { said, wanted } = asked;
    write!(
        store.why,
        "{said}: wanted `{wanted}`, over rows `{decided}`, by one thread `{plain}`"
    )?;
    Err(Wrong::Line)
}

fn is_wanted(store: &mut Store, asked: Asked<'_>, came: &str) -> Result<(), Wrong> {
    if asked.is_wanted(came) {
        return Ok(());
    }
    let Asked { said, wanted } = asked;
    write!(store.why, "{said}: wanted `{wanted}`, there came `{came}`")?;
    Err(Wrong::Line)
}

/// Enters what a decision changes. A refusal changes nothing.
fn go_on(alloc: Global, store: &mut Store, decision: Decision) -> Result<(), Wrong> {
    let Decision {
        reply,
        bytes,
        changes,
    } = decision;
    if matches!(&reply, Reply::Code(_)) && !(bytes.is_empty() && changes.is_empty()) {
        return cannot(&mut store.why, "a refusal has operations");
    }
    store.batch = bytes;
    Ok(store.enter(alloc, changes)?)
}

/// Asks these requests of the plain program alone.
pub fn tell_all(alloc: Global, store: &mut Store, block: &[String]) -> Result<(), Wrong> {
    for text in block {
        tell(alloc, store, Asked::of(text.as_str()))?;
    }
    Ok(())
}

/// Asks a request of the plain program.
fn tell(alloc: Global, store: &mut Store, asked: Asked<'_>) -> Result<(), Wrong> {
    let request = request_of(alloc, asked.said, &mut store.why)?;
    let pick = pick_in(alloc, asked.wanted)?;
    let reply = replied(alloc, store, &request, pick)?;
    is_wanted(store, asked, reply_text(alloc, &reply)?.as_str())
}
