//! The script of some bytes, or its first fault.

ghost use Rattle.std.specs.Prelude.{◌≡◌, ◌<◌, ℕ, length, None, IfOk};
ghost use Rattle.std.specs.List.{slice_index};
ghost use Rattle.oz_script.specs.circles.Circles.{ComesBack};
ghost use Rattle.oz_script.specs.lines.Numbered.{IsNumbered};
ghost use Rattle.oz_script.specs.placed.Served.{later_index};
ghost use Rattle.oz_script.specs.Parsing.{Gives, ParsesTo};
ghost use Rattle.oz_script.specs.Waiting.{WaitsFor};

use crate::draft::{Cause, ScriptFault};
use crate::lines::Script;
use crate::placed::{PlacedScript, later_index, read_lines};
use crate::waiting::first_back;
use oz_fields::List;
use std::alloc::Global;

/// Reads a script. Its faults are tested in this order: too many bytes; the first line in none of the forms, too many or
/// with an unknown label; the first whose `after` names no line; the first that comes back to itself by going to the
/// line before of its client and to the one that its `after` names; the first that isn't served yet.
pub fn parse(alloc: Global, bytes: &[u8]) -> Result<Script, ScriptFault>
    ensures exact { Gives result (ParsesTo bytes.now) }
    ensures numbered { IfOk result (λ script. IsNumbered script) }
    ensures no_circle { IfOk result (λ script. (line : ℕ) → ComesBack (WaitsFor script.lines) line → ⊥) }
    ensures served { IfOk result (λ script. later_index script.lines ≡ None) }
{
    let PlacedScript { script, places } = read_lines(alloc, bytes)?;
    if let Some(line) = first_back(alloc, &script.lines)? {
        return Err(fault_at(&places, line, Cause::Circle));
    }
    if let Some(line) = later_index(&script.lines) {
        return Err(fault_at(&places, line, Cause::Later));
    }
    Ok(script)
}

fn fault_at(places: &List<u64>, line: usize, cause: Cause) -> ScriptFault
    requires { line < length places.now }
    ensures { result ≡ ScriptFault.At (slice_index places.now line) cause }
{
    ScriptFault::At {
        line: places.items()[line],
        cause,
    }
}
