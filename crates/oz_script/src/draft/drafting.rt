//! The lines of a script as they are written.

ghost use Rattle.std.specs.Prelude.{◌≡◌, ◌<◌, ◌==◌, ◌++◌, [], ◌∷◌, length, IfOk, MatchResult, if◌then◌else◌};
ghost use Rattle.std.specs.List.{position};
ghost use Rattle.std.specs.Option.{option_copied};
ghost use Rattle.std.specs.Str.{bytes_eq};
ghost use Rattle.oz_script.specs.draft.Drafts.{Fails, client_place, draft_of, is_opened, label_used, longer};
ghost use Rattle.oz_script.specs.draft.Drafts.{with_client, with_line, with_said, with_words};
ghost use Rattle.oz_script.specs.draft.Tracked.{IsTracked};

use crate::draft::fault::{Cause, ScriptFault};
use crate::draft::labels::{OpenedLabel, has_label, label_used, with_opened};
use crate::draft::said::{Said, said_of};
use crate::{MOST_CLIENTS, MOST_LINES};
use oz_command::{Command, is_of_words, split_line, split_word};
use oz_fields::{List, Name, OutOfMemory};
use std::alloc::Global;
use std::collections::BTreeSet;

/// A script has at most so many bytes.
pub const MOST_BYTES: usize = 1_048_576;

/// A line with a command, as it is written.
#[derive(Debug, Drop)]
pub struct Entry {
    /// Which line of the text it is, from 1.
    pub place: u64,
    pub client: u16,
    pub number: u16,
    /// The client and the number of the line that has to be told before, as the line names them.
    pub after: Option<(Name, u16)>,
    pub command: Command,
}

/// The lines of a script as they are written. Clients and each client's lines are numbered from 1.
#[derive(Debug, Drop)]
pub struct Draft {
    pub clients: List<Name>,
    pub entries: List<Entry>,
}

/// A draft, how many lines each client has, and which labels it has opened.
#[derive(Debug, Drop)]
pub struct Drafting {
    pub draft: Draft,
    pub counts: Vec<u16>,
    pub opened: BTreeSet<OpenedLabel>,
}

/// Reads the lines, up to the first in none of the forms, too many, or with an unknown label.
pub fn draft_of(alloc: Global, bytes: &[u8]) -> Result<Drafting, ScriptFault>
    ensures exact { MatchResult result (λ found. draft_of bytes.now ≡ Ok found.draft)
        (λ fault. Fails fault (draft_of bytes.now)) }
    ensures tracked { IfOk result (λ found. IsTracked found.draft found.counts.items found.opened) }
{
    if bytes.len() > MOST_BYTES {
        return Err(ScriptFault::At {
            line: 0,
            cause: Cause::Long,
        });
    }
    let mut drafting = Drafting {
        draft: Draft {
            clients: List::new(alloc),
            entries: List::new(alloc),
        },
        counts: Vec::new(alloc),
        opened: BTreeSet::new(alloc),
    };
    let mut place = 1;
    let mut rest = bytes;
    while let Some((line, behind)) = split_line(rest) {
        drafting = with_line(alloc, drafting, place, line)?;
        place += 1;
        rest = behind;
    }
    Ok(drafting)
}

#[tactic(auto, unfolding(crate::specs::draft::Drafts::with_line, crate::specs::draft::Drafts::with_words))]
fn with_line(
    alloc: Global,
    drafting: Drafting,
    place: u64,
    line: &[u8],
) -> Result<Drafting, ScriptFault>
    requires { IsTracked drafting.draft drafting.counts.items drafting.opened }
    ensures exact { MatchResult result (λ next. with_line drafting.draft place line.now ≡ Ok next.draft)
        (λ fault. Fails fault (with_line drafting.draft place line.now)) }
    ensures tracked { IfOk result (λ next. IsTracked next.draft next.counts.items next.opened) }
{
    let form = ScriptFault::At {
        line: place,
        cause: Cause::Form,
    };
    if let [b'#', ..] = line {
        return Ok(drafting);
    }
    if !is_of_words(line) {
        return Err(form);
    }
    let Some((client, words)) = split_word(line) else {
        return Ok(drafting);
    };
    let Some(said) = said_of(alloc, client, words)? else {
        return Err(form);
    };
    with_said(alloc, drafting, place, said)
}

#[tactic(auto, unfolding(crate::specs::draft::Drafts::with_said))]
fn with_said(
    alloc: Global,
    drafting: Drafting,
    place: u64,
    said: Said,
) -> Result<Drafting, ScriptFault>
    requires { IsTracked drafting.draft drafting.counts.items drafting.opened }
    ensures exact { MatchResult result (λ next. with_said drafting.draft place said ≡ Ok next.draft)
        (λ fault. Fails fault (with_said drafting.draft place said)) }
    ensures tracked { IfOk result (λ next. IsTracked next.draft next.counts.items next.opened) }
{
    let client = client_place(&drafting.draft.clients, said.client.bytes());
    if client >= MOST_CLIENTS || drafting.draft.entries.len() >= MOST_LINES {
        return Err(ScriptFault::At {
            line: place,
            cause: Cause::Many,
        });
    }
    if !is_opened(alloc, &drafting, client as u16 + 1, &said.command)? {
        return Err(ScriptFault::At {
            line: place,
            cause: Cause::Label,
        });
    }
    Ok(longer(alloc, drafting, place, client, said)?)
}

/// Which client this is, counted from 0: one that has spoken, or the next.
pub fn client_place(clients: &List<Name>, name: &[u8]) -> usize
    ensures { result ≡ client_place clients.now name.now }
{
    spoken_place(clients, name).unwrap_or(clients.len())
}

fn spoken_place(clients: &List<Name>, name: &[u8]) -> Option<usize>
    ensures { result ≡ position (λ client. bytes_eq client name.now) clients.now }
{
    clients.iter().position(|client| client.bytes() == name)
}

/// A line of the client opens the label that the command takes up, if it takes one up.
fn is_opened(
    alloc: Global,
    drafting: &Drafting,
    client: u16,
    command: &Command,
) -> Result<bool, OutOfMemory>
    requires { IsTracked drafting.now.draft drafting.now.counts.items drafting.now.opened }
    ensures { IfOk result (λ found. found
        ≡ is_opened drafting.now.draft.entries client (label_used command.now)) }
{
    match label_used(command) {
        None => Ok(true),
        Some(label) => has_label(alloc, &drafting.opened, client, label),
    }
}

/// The next line of a client.
fn longer(
    alloc: Global,
    drafting: Drafting,
    place: u64,
    client: usize,
    said: Said,
) -> Result<Drafting, OutOfMemory>
    requires tracked { IsTracked drafting.draft drafting.counts.items drafting.opened }
    requires client { client ≡ client_place drafting.draft.clients said.client }
    requires client_room { client < MOST_CLIENTS }
    requires line_room { length drafting.draft.entries < MOST_LINES }
    ensures exact { IfOk result (λ next. next.draft ≡ longer drafting.draft place client said) }
    ensures tracked { IfOk result (λ next. IsTracked next.draft next.counts.items next.opened) }
{
    let Drafting {
        draft,
        counts,
        opened,
    } = drafting;
    let Draft { clients, entries } = draft;
    let Said {
        client: name,
        after,
        command,
    } = said;
    let (clients, mut counts) = with_client(alloc, clients, counts, client, name)?;
    let number = counts[client] + 1;
    counts[client] = number;
    let opened = with_opened(alloc, opened, client as u16 + 1, &command)?;
    let entry = Entry {
        place,
        client: client as u16 + 1,
        number,
        after,
        command,
    };
    let entries = pushed(alloc, entries, entry)?;
    Ok(Drafting {
        draft: Draft { clients, entries },
        counts,
        opened,
    })
}

/// The clients and their counts, with a new one at the end where it hasn't spoken.
fn with_client(
    alloc: Global,
    clients: List<Name>,
    counts: Vec<u16>,
    client: usize,
    name: Name,
) -> Result<(List<Name>, Vec<u16>), OutOfMemory>
    requires { client ≡ client_place clients name }
    ensures clients { IfOk result (λ found. found.0 ≡ with_client clients name) }
    ensures counts { IfOk result (λ found. found.1.items
        ≡ (if client == length clients then counts.items ++ 0 ∷ [] else counts.items)) }
{
    let mut counts = counts;
    if client != clients.len() {
        return Ok((clients, counts));
    }
    counts.push(0)?;
    let clients = pushed(alloc, clients, name)?;
    Ok((clients, counts))
}

fn pushed<T: Drop>(alloc: Global, mut list: List<T>, item: T) -> Result<List<T>, OutOfMemory>
    ensures { IfOk result (λ longer. longer ≡ list ++ item ∷ []) }
{
    match list.push(alloc, item) {
        Ok(()) => Ok(list),
        Err((_, error)) => Err(error),
    }
}
