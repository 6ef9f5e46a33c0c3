//! The lines that come back to themselves.

ghost use Rattle.std.specs.Prelude.{◌≡◌, [], map, IfOk};
ghost use Rattle.std.specs.HashMap.{get};
ghost use Rattle.oz_script.specs.circles.Circles.{IsFirstBack};
ghost use Rattle.oz_script.specs.lines.Numbered.{AreNumbered};
ghost use Rattle.oz_script.specs.Finding.{FindsLines, is_same_name, waits_of};
ghost use Rattle.oz_script.specs.Waiting.{WaitsFor};

use crate::circles::{Waits, first_circle};
use crate::lines::Line;
use oz_fields::{List, OutOfMemory};
use std::alloc::Global;
use std::collections::HashMap;

/// The place of the first line that comes back to itself, counted from 0, if there is one.
pub fn first_back(alloc: Global, lines: &List<Line>) -> Result<Option<usize>, OutOfMemory>
    requires { AreNumbered [] lines.now }
    ensures { IfOk result (λ found. IsFirstBack (WaitsFor lines.now) found) }
{
    let places = places_of(alloc, lines)?;
    let waits = waits_of(alloc, lines, &places)?;
    first_circle(alloc, &waits)
}

/// The place of each line, by the numbers of its client and of itself.
fn places_of(alloc: Global, lines: &List<Line>) -> Result<HashMap<(u16, u16), usize>, OutOfMemory>
    requires { AreNumbered [] lines.now }
    ensures { IfOk result (λ places. FindsLines lines.now (get is_same_name places)) }
{
    let mut places = HashMap::new(alloc);
    for (place, line) in lines.items().iter().enumerate() {
        places.insert((line.client, line.number), place)?;
    }
    Ok(places)
}

fn waits_of(
    alloc: Global,
    lines: &List<Line>,
    places: &HashMap<(u16, u16), usize>,
) -> Result<Vec<Waits>, OutOfMemory>
    ensures { IfOk result (λ waits. waits.items ≡ map (waits_of (get is_same_name places.now)) lines.now) }
{
    lines
        .iter()
        .map(|line| line_waits(line, places))
        .collect(alloc)
}

fn line_waits(line: &Line, places: &HashMap<(u16, u16), usize>) -> Waits
    ensures { result ≡ waits_of (get is_same_name places.now) line.now }
{
    Waits {
        client: line.client,
        before: place_of(places, (line.client, line.number.saturating_sub(1))),
        after: line.after.and_then(|name| place_of(places, name)),
    }
}

fn place_of(places: &HashMap<(u16, u16), usize>, name: (u16, u16)) -> Option<usize>
    ensures { result ≡ get is_same_name places.now name }
{
    places.get(&name).copied()
}
