//! That legal stories leave something.

ghost use Rattle.std.specs.Prelude.{ℕ, List, take};
ghost use Rattle.oz_script.specs.declared.lines.script.Script.{Script as AnyScript};
ghost use Rattle.oz_core.specs.declared.event.Event.{Event as AnyEvent};
ghost use Rattle.oz_core.specs.declared.opening.Opening.{Opening as AnyOpening};
ghost use Rattle.oz_core.specs.Coherent.{IsCoherent};
ghost use Rattle.oz_core.specs.Contents.{OpeningBytes};
ghost use Rattle.oz_core.specs.Fits.{Fits};
ghost use Rattle.oz_core.specs.Law.{IsLegal};
ghost use Rattle.oz_kept.specs.reopened.Left.{IsLeft, MayBeLast};

/// At each place a legal story that fits a script leaves an opening, over a coherent opening, with the manager at each
/// index from the stable one to the last that was decided.
pub fn every_legal_story_leaves_an_opening()
    ensures { (opening : AnyOpening) (bytes : OpeningBytes) (script : AnyScript) (story : List AnyEvent)
        (place most : ℕ) →
        IsCoherent opening bytes → IsLegal opening story → Fits opening bytes script story →
        MayBeLast opening (take place story) most →
        (left : AnyOpening) × (given : OpeningBytes)
        × IsLeft opening bytes script (take place story) most left given }
{}
