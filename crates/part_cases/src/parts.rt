//! Parts of events, which are read as the event is in which they stand.

use crate::found::{Wrong, no_such, story_in};
use oz_core::{Event, EventKind, PutRefusal};
use oz_fields::TryClone;
use oz_requests::Reply;
use std::alloc::{AllocError, Global};

/// The reply of the first event that is decided.
fn first_reply(alloc: Global, story: &[Event]) -> Result<Option<Reply>, AllocError> {
    for event in story {
        if let EventKind::Decide { reply, .. } = &event.kind {
            return Ok(Some(reply.try_clone(alloc)?));
        }
    }
    Ok(None)
}

/// A reply.
pub fn reply_of(alloc: Global, words: &str, why: &mut String) -> Result<Reply, Wrong> {
    let line = format!(in alloc; "20 decide 1.1.1 0 {words} -")?;
    let story = story_in(alloc, line.as_str(), why)?;
    match first_reply(alloc, &story)? {
        Some(reply) => Ok(reply),
        None => no_such(words, why),
    }
}

/// Adds the answer of the first event that tells one, as it is shown, and says whether there is one.
fn add_answer(text: &mut String, story: &[Event]) -> Result<bool, AllocError> {
    for event in story {
        if let EventKind::Told { answer, .. } = &event.kind {
            write!(text, "{answer:?}")?;
            return Ok(true);
        }
    }
    Ok(false)
}

/// Adds what a line is told as it is shown where it is compared.
pub fn add_told(
    alloc: Global,
    text: &mut String,
    words: &str,
    why: &mut String,
) -> Result<(), Wrong> {
    let line = format!(in alloc; "2 told 1 1 {words}")?;
    let story = story_in(alloc, line.as_str(), why)?;
    if add_answer(text, &story)? {
        return Ok(());
    }
    no_such(words, why)
}

/// Adds the request of the first event that asks, as it is shown, and says whether there is one.
fn add_asked(text: &mut String, story: &[Event]) -> Result<bool, AllocError> {
    for event in story {
        if let EventKind::Ask { request, .. } = &event.kind {
            write!(text, "{request:?}")?;
            return Ok(true);
        }
    }
    Ok(false)
}

/// Adds a request as it is shown where it is compared.
pub fn add_request(
    alloc: Global,
    text: &mut String,
    words: &str,
    why: &mut String,
) -> Result<(), Wrong> {
    let line = format!(in alloc; "2 ask 1.1.1 {words}")?;
    let story = story_in(alloc, line.as_str(), why)?;
    if add_asked(text, &story)? {
        return Ok(());
    }
    no_such(words, why)
}

/// Why the first event that refuses a block does so.
fn first_refusal(story: &[Event]) -> Option<PutRefusal> {
    for event in story {
        if let EventKind::Refused { refusal, .. } = &event.kind {
            return Some(*refusal);
        }
    }
    None
}

/// What a member says of a block: `put`, or why it refuses it.
pub fn refusal_of(
    alloc: Global,
    words: &str,
    why: &mut String,
) -> Result<Option<PutRefusal>, Wrong> {
    if words == "put" {
        return Ok(None);
    }
    let line = format!(in alloc; "4 refused 0 1.1 1.1.1 {words}")?;
    let story = story_in(alloc, line.as_str(), why)?;
    match first_refusal(&story) {
        Some(refusal) => Ok(Some(refusal)),
        None => no_such(words, why),
    }
}
