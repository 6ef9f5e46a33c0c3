//! What holds of all that lines write.

ghost use Rattle.std.specs.Prelude.{◌≡◌, ◌≤◌, List, ◌++◌, length, Contains};
ghost use Rattle.oz_core.specs.declared.event.Event.{Event as AnyEvent};
ghost use Rattle.oz_core.specs.declared.opening.Opening.{Opening as AnyOpening};
ghost use Rattle.oz_core.specs.Contents.{OpeningBytes, written_for};
ghost use Rattle.oz_core.specs.Fits.{Fits};
ghost use Rattle.oz_core.specs.Law.{IsLegal};
ghost use Rattle.oz_core.specs.Steps.{pieces_needed};
ghost use Rattle.oz_kept.specs.Held.{LinesAreApart};
ghost use Rattle.oz_script.specs.declared.lines.script.Line.{Line as AnyLine};
ghost use Rattle.oz_script.specs.declared.lines.script.Script.{Script as AnyScript};

/// Once as many blocks are written for a line as its data has pieces, none is written for it any more, where no two lines of
/// the script have one client and one number.
pub fn what_was_written_is_final()
    ensures { (opening : AnyOpening) (bytes : OpeningBytes) (script : AnyScript) (story behind : List AnyEvent) (line : AnyLine) →
        LinesAreApart script → IsLegal opening (story ++ behind) → Fits opening bytes script (story ++ behind) →
        Contains script.lines line → pieces_needed line.command ≤ length (written_for line.client line.number story) →
        written_for line.client line.number (story ++ behind) ≡ written_for line.client line.number story }
{}
