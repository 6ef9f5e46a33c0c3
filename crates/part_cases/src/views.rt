//! Cases of what is due of a container that is being closed.
//!
//! - `view STATE UP CLOSED HELD HELD HELD LOGGED`: a container in this state, whose members are the datanodes 4, 5 and 6. Places stand
//!   between commas, from 0 on: those of the members that are up, and of those that have closed their replica. Then come the local
//!   ids that each member holds, and those that are being deleted, rising. `-` is none. The block has the copies that are due, by
//!   their local ids and targets, as `copy SOURCE TARGET LOCAL`, and `next EVENT` or `next nothing`.
//! - `each-view COUNT`: so many views, of all states, all subsets of the members up and closed and all lists of the local ids 1 and
//!   2 that are held or logged, each beside a plain reading of what is due.

ghost use Rattle.std.specs.Prelude.{IsTrue};
ghost use Rattle.std.specs.List.Sorted.{IsStrictlyIncreasing};
ghost use Rattle.oz_repl.specs.repl.View.{AreRising};

use crate::due::{plain_copies, plain_event};
use crate::found::{Wrong, compared, judged, no_such, tell};
use case_files::{Judged, Statement};
use oz_container::{Event, State};
use oz_fields::List;
use oz_repl::{CopyOrder, View, plan, step};
use std::alloc::{AllocError, Global};
use story_parts::Words;

/// The members of each container.
const MEMBERS: [u8; 3] = [4, 5, 6];

/// How many states there are, subsets of three members, and lists of two local ids at most.
const STATES: u64 = 6;

const SUBSETS: u64 = 8;

const LISTS: u64 = 4;

/// How many views these make.
const VIEWS: u64 = 98_304;

/// A row comes to what it says.
fn found(alloc: Global, statement: &Statement, why: &mut String) -> Result<(), Wrong> {
    match statement.word(0) {
        "view" => of_view(alloc, statement, why),
        "each-view" => of_each(alloc, statement, why),
        _ => no_such("no statement begins so", why),
    }
}

/// Tells of a row.
fn tell_row(
    alloc: Global,
    told: &mut Vec<String>,
    statement: &Statement,
) -> Result<(), AllocError> {
    let mut why = String::new(alloc);
    let found = found(alloc, statement, &mut why);
    tell(alloc, told, statement, found, why.as_str())
}

/// Judges a case of views.
pub fn judge_views(alloc: Global, case: &[Statement]) -> Result<Judged, AllocError> {
    let mut told = Vec::new(alloc);
    for statement in case.iter().skip(1) {
        tell_row(alloc, &mut told, statement)?;
    }
    Ok(judged(told))
}

/// What is due of a view is the block of the statement.
fn of_view(alloc: Global, statement: &Statement, why: &mut String) -> Result<(), Wrong> {
    let view = read_view(alloc, statement, why)?;
    let mut came = String::new(alloc);
    if !add_due(alloc, &mut came, &view)? {
        return no_such("its lists don't rise, or have more than two local ids", why);
    }
    let wanted = statement.text(alloc)?;
    compared(wanted.as_str(), came.as_str(), why)
}

/// Adds what is due of a view whose lists rise, and says whether they do.
fn add_due(alloc: Global, text: &mut String, view: &View) -> Result<bool, AllocError> {
    if !are_rising(view) {
        return Ok(false);
    }
    let mut orders = plan(alloc, view)?;
    orders.sort_by_key(|order: &CopyOrder| (order.local, order.target))?;
    add_all(text, &orders, step(view))?;
    Ok(true)
}

fn add_all(
    text: &mut String,
    orders: &[CopyOrder],
    event: Option<Event>,
) -> Result<(), AllocError> {
    for CopyOrder {
        source,
        target,
        local,
    } in orders {
        write!(text, "copy {source} {target} {local}\n")?;
    }
    match event {
        Some(event) => write!(text, "next {event:?}\n"),
        None => text.push_str("next nothing\n"),
    }
}

fn are_rising(view: &View) -> bool
    ensures { IsTrue result → AreRising view.now }
{
    view.held.iter().all(|held| is_rising(held.items())) && is_rising(view.logged.items())
}

/// Whether these rise, and are at most two.
fn is_rising(locals: &[u64]) -> bool
    ensures { IsTrue result → IsStrictlyIncreasing locals.now }
{
    match locals {
        [] | [_] => true,
        [one, other] => one < other,
        _ => false,
    }
}

// ---- a view

fn read_view(alloc: Global, statement: &Statement, why: &mut String) -> Result<View, Wrong> {
    let mut words = Words::new(statement.word(1), ' ');
    let state = words.state();
    if !words.are_read() {
        return no_such(statement.word(1), why);
    }
    Ok(View {
        state,
        members: MEMBERS,
        up: places(statement.word(2)),
        closed: places(statement.word(3)),
        held: [
            locals(alloc, statement.word(4), why)?,
            locals(alloc, statement.word(5), why)?,
            locals(alloc, statement.word(6), why)?,
        ],
        logged: locals(alloc, statement.word(7), why)?,
    })
}

/// Which of the three places stand there.
fn places(said: &str) -> [bool; 3] {
    let stands = |place: &str| said.split(',').any(|word| word == place);
    [stands("0"), stands("1"), stands("2")]
}

fn locals(alloc: Global, said: &str, why: &mut String) -> Result<List<u64>, Wrong> {
    match numbers(alloc, said)? {
        Some(locals) => Ok(List::of(locals)),
        None => no_such(said, why),
    }
}

/// Numbers between commas, `-` for none; nothing where one isn't a number.
fn numbers(alloc: Global, said: &str) -> Result<Option<Vec<u64>>, AllocError> {
    let mut numbers = Vec::new(alloc);
    if said == "-" {
        return Ok(Some(numbers));
    }
    for word in said.split(',') {
        match word.parse::<u64>() {
            Ok(number) => numbers.push(number)?,
            Err(_) => return Ok(None),
        }
    }
    Ok(Some(numbers))
}

// ---- all views

/// All views come to what they come to by the plain reading, each after another.
fn of_each(alloc: Global, statement: &Statement, why: &mut String) -> Result<(), Wrong> {
    if statement.number(1) != Some(VIEWS) {
        write!(why, "there are {VIEWS} views")?;
        return Err(Wrong::Differs);
    }
    for number in 0..VIEWS {
        of_number(alloc, number, why)?;
    }
    Ok(())
}

/// The view of a number comes to what it comes to by the plain reading.
fn of_number(alloc: Global, number: u64, why: &mut String) -> Result<(), Wrong> {
    let view = view_numbered(alloc, number)?;
    let mut plain = String::new(alloc);
    add_plain(alloc, &mut plain, &view)?;
    let mut came = String::new(alloc);
    let is_due = add_due(alloc, &mut came, &view)?;
    if is_due && came == plain {
        return Ok(());
    }
    let came = is_due.then_some(came.as_str());
    write!(why, "of {view:?} {came:?} came")?;
    Err(Wrong::Differs)
}

/// Adds what is due of a view by the plain reading.
fn add_plain(alloc: Global, text: &mut String, view: &View) -> Result<(), AllocError> {
    let orders = plain_copies(alloc, view)?;
    add_all(text, &orders, plain_event(view))
}

fn view_numbered(alloc: Global, number: u64) -> Result<View, AllocError> {
    let (state, rest) = (number % STATES, number / STATES);
    let (up, rest) = (rest % SUBSETS, rest / SUBSETS);
    let (closed, rest) = (rest % SUBSETS, rest / SUBSETS);
    Ok(View {
        state: state_numbered(state),
        members: MEMBERS,
        up: bits(up),
        closed: bits(closed),
        held: [
            listed(alloc, rest % LISTS)?,
            listed(alloc, rest / LISTS % LISTS)?,
            listed(alloc, rest / LISTS / LISTS % LISTS)?,
        ],
        logged: listed(alloc, rest / LISTS / LISTS / LISTS % LISTS)?,
    })
}

fn state_numbered(number: u64) -> State {
    match number {
        0 => State::Open,
        1 => State::Closing,
        2 => State::QuasiClosed,
        3 => State::Closed,
        4 => State::Deleting,
        _ => State::Deleted,
    }
}

/// The three lowest bits.
fn bits(number: u64) -> [bool; 3] {
    [number % 2 == 1, number / 2 % 2 == 1, number / 4 % 2 == 1]
}

/// The list of the local ids 1 and 2 whose bits these are.
fn listed(alloc: Global, number: u64) -> Result<List<u64>, AllocError> {
    let mut locals = Vec::new(alloc);
    if number % 2 == 1 {
        locals.push(1)?;
    }
    if number / 2 % 2 == 1 {
        locals.push(2)?;
    }
    Ok(List::of(locals))
}
