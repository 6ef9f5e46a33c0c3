//! Scripts, and the lines for which their lines wait.

ghost use Rattle.std.specs.Prelude.{◌≡◌, ◌++◌, [], ◌∷◌, length, map, IfOk, MatchResult};
ghost use Rattle.std.specs.List.{zip};
ghost use Rattle.oz_script.specs.draft.Drafts.{Fails};
ghost use Rattle.oz_script.specs.lines.Numbered.{IsNumbered};
ghost use Rattle.oz_script.specs.placed.Placed.{after_of, afters_of, line_named, line_with, placed_of, read_of};
ghost use Rattle.oz_script.specs.draft.Tracked.{IsTracked};

use crate::{Cause, Draft, Drafting, Entry, Line, Script, ScriptFault, client_place, draft_of};
use oz_command::Command;
use oz_fields::{List, Name, OutOfMemory};
use std::alloc::Global;

/// A script, and which line of the text each of its lines is, from 1.
#[derive(Debug, Drop)]
pub struct PlacedScript {
    pub script: Script,
    pub places: List<u64>,
}

/// Reads a script, up to the test for lines that wait for themselves: the script, or the first line in none of
/// the forms, too many, or with an unknown label, and else the first whose `after` names no line.
#[tactic(auto, unfolding(crate::specs::placed::Placed::read_of))]
pub fn read_lines(alloc: Global, bytes: &[u8]) -> Result<PlacedScript, ScriptFault>
    ensures exact { MatchResult result (λ placed. read_of bytes.now ≡ Ok placed)
        (λ fault. Fails fault (read_of bytes.now)) }
    ensures numbered { IfOk result (λ placed. IsNumbered placed.script) }
    ensures places { IfOk result (λ placed. length placed.places ≡ length placed.script.lines) }
{
    let drafting = draft_of(alloc, bytes)?;
    placed_of(alloc, drafting)
}

/// The script that a draft makes, with the place of each line.
#[tactic(auto, unfolding(crate::specs::placed::Placed::placed_of))]
fn placed_of(alloc: Global, drafting: Drafting) -> Result<PlacedScript, ScriptFault>
    requires { IsTracked drafting.draft drafting.counts.items drafting.opened }
    ensures { MatchResult result (λ placed. placed_of drafting.draft ≡ Ok placed)
        (λ fault. Fails fault (placed_of drafting.draft)) }
{
    let afters = afters_of(alloc, &drafting)?;
    let Drafting { draft, .. } = drafting;
    let Draft { clients, entries } = draft;
    let places = List::of(places_of(alloc, &entries)?);
    let lines = List::of(lined(alloc, entries, afters)?);
    Ok(PlacedScript {
        script: Script { clients, lines },
        places,
    })
}

fn places_of(alloc: Global, entries: &List<Entry>) -> Result<Vec<u64>, OutOfMemory>
    ensures { IfOk result (λ places. places.items ≡ map (λ entry. entry.place) entries.now) }
{
    let mut places = Vec::with_capacity(alloc, entries.len())?;
    for entry in entries {
        places.push(entry.place)?;
    }
    Ok(places)
}

fn lined(
    alloc: Global,
    entries: List<Entry>,
    afters: List<Option<(u16, u16)>>,
) -> Result<Vec<Line>, OutOfMemory>
    ensures { IfOk result (λ lines. lines.items ≡ map (λ pair. line_with pair.0 pair.1) (zip entries afters)) }
{
    entries
        .into_iter()
        .zip(afters)
        .map(|(entry, after)| line_with(entry, after))
        .collect(alloc)
}

fn line_with(entry: Entry, after: Option<(u16, u16)>) -> Line
    ensures { result ≡ line_with entry after }
{
    let Entry {
        client,
        number,
        command,
        ..
    } = entry;
    Line {
        client,
        number,
        after,
        command,
    }
}

/// The lines for which the lines wait.
fn afters_of(alloc: Global, drafting: &Drafting) -> Result<List<Option<(u16, u16)>>, ScriptFault>
    requires { IsTracked drafting.now.draft drafting.now.counts.items drafting.now.opened }
    ensures { MatchResult result (λ afters. afters_of drafting.now.draft drafting.now.draft.entries ≡ Ok afters)
        (λ fault. Fails fault (afters_of drafting.now.draft drafting.now.draft.entries)) }
{
    let entries = drafting.draft.entries.items();
    let mut afters = List::new(alloc);
    for entry in entries {
        let after = after_of(drafting, entry)?;
        afters = with_after(alloc, afters, after)?;
    }
    Ok(afters)
}

fn with_after(
    alloc: Global,
    mut afters: List<Option<(u16, u16)>>,
    after: Option<(u16, u16)>,
) -> Result<List<Option<(u16, u16)>>, OutOfMemory>
    ensures { IfOk result (λ more. more ≡ afters ++ after ∷ []) }
{
    match afters.push(alloc, after) {
        Ok(()) => Ok(afters),
        Err((_, error)) => Err(error),
    }
}

#[tactic(auto, unfolding(crate::specs::placed::Placed::after_of))]
fn after_of(drafting: &Drafting, entry: &Entry) -> Result<Option<(u16, u16)>, ScriptFault>
    requires { IsTracked drafting.now.draft drafting.now.counts.items drafting.now.opened }
    ensures { MatchResult result (λ after. after_of drafting.now.draft entry.now ≡ Ok after)
        (λ fault. Fails fault (after_of drafting.now.draft entry.now)) }
{
    let Some((name, number)) = &entry.after else {
        return Ok(None);
    };
    let Some(line) = line_named(drafting, name, *number) else {
        return Err(ScriptFault::At {
            line: entry.place,
            cause: Cause::After,
        });
    };
    Ok(Some(line))
}

fn line_named(drafting: &Drafting, name: &Name, number: u16) -> Option<(u16, u16)>
    requires { IsTracked drafting.now.draft drafting.now.counts.items drafting.now.opened }
    ensures { result ≡ line_named drafting.now.draft name.now number }
{
    if number < 1 {
        return None;
    }
    let client = client_place(&drafting.draft.clients, name.bytes());
    if client >= drafting.counts.len() {
        return None;
    }
    if drafting.counts[client] < number {
        return None;
    }
    Some((client as u16 + 1, number))
}
