//! What the line of a transfer was told.

ghost use Rattle.std.specs.Prelude.{◌≡◌, None, Some, IfOk, MatchOption};
ghost use Rattle.oz_cluster.specs.files.Asked.{told_in};
ghost use Rattle.oz_cluster.specs.files.Telling.{refusal_text};
ghost use Rattle.oz_core.specs.declared.event.EventKind.TheVariants.{Told};
ghost use Rattle.oz_core.specs.Asks.{answer_to};

use oz_core::{Event, EventKind};
use oz_fields::OutOfMemory;
use oz_report::push_answer;
use oz_requests::Answer;
use std::alloc::Global;

/// The last answer that a story tells the line.
pub fn last_told(story: &[Event]) -> Option<&Answer>
    ensures { MatchOption result (told_in story.now ≡ None) (λ answer. told_in story.now ≡ Some answer.now) }
{
    let mut last = None;
    for event in story {
        if let Some(answer) = answer_of(event) {
            last = Some(answer);
        }
    }
    last
}

/// The answer that an event tells the line.
fn answer_of(event: &Event) -> Option<&Answer>
    ensures { MatchOption result (answer_to 1 1 event.now.kind ≡ None) (λ answer. event.now.kind ≡ Told 1 1 answer.now) }
{
    match &event.kind {
        EventKind::Told {
            client,
            line,
            answer,
        } if *client == 1 && *line == 1 => Some(answer),
        _ => None,
    }
}

/// The line that says why a transfer of this key was refused.
pub fn refusal(alloc: Global, key: &str, answer: &Answer) -> Result<Vec<u8>, OutOfMemory>
    ensures { IfOk result (λ text. text.items ≡ refusal_text key.now answer.now) }
{
    let mut line = Vec::from_slice(alloc, key.as_bytes())?;
    line.extend_from_slice(b": ")?;
    push_answer(alloc, &mut line, answer)?;
    line.extend_from_slice(b"\n")?;
    Ok(line)
}
