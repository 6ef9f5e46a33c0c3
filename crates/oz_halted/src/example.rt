//! That nodes may have one body more.

ghost use Rattle.oz_core.specs.Coherent.{IsCoherent};
ghost use Rattle.oz_core.specs.Fits.{Fits};
ghost use Rattle.oz_core.specs.Law.{IsLegal};
ghost use Rattle.oz_halted.specs.Example.{opening, bytes, script, story, left};
ghost use Rattle.oz_halted.specs.Further.{MayBeLeftByAll};
ghost use Rattle.oz_kept.specs.Held.{LinesAreApart};
ghost use Rattle.oz_kept.specs.reopened.Left.{IsLeft};

/// The example meets the premises: two nodes halt, and each has one body more. The events alone leave another opening.
pub fn two_nodes_have_one_body_more()
    ensures coherent { IsCoherent opening bytes }
    ensures apart { LinesAreApart script }
    ensures legal { IsLegal opening story }
    ensures fits { Fits opening bytes script story }
    ensures may_be_left { MayBeLeftByAll opening bytes script story 0 left bytes }
    ensures not_as_told { IsLeft opening bytes script story 0 left bytes → ⊥ }
{}
