//! What holds of all that legal stories may leave.

ghost use Rattle.std.specs.Prelude.{◌≡◌, ℕ, true, false, List, Contains, take};
ghost use Rattle.oz_fields.specs.declared.block.Block.{Block as AnyBlock};
ghost use Rattle.oz_script.specs.declared.lines.script.Script.{Script as AnyScript};
ghost use Rattle.oz_core.specs.declared.event.Event.{Event as AnyEvent};
ghost use Rattle.oz_core.specs.declared.event.EventKind.TheVariants.{Delete};
ghost use Rattle.oz_core.specs.declared.event.Node.TheVariants.{Datanode};
ghost use Rattle.oz_core.specs.declared.opening.Opening.{Opening as AnyOpening};
ghost use Rattle.oz_core.specs.Coherent.{IsCoherent};
ghost use Rattle.oz_core.specs.Contents.{OpeningBytes};
ghost use Rattle.oz_core.specs.Fits.{Fits};
ghost use Rattle.oz_core.specs.Law.{IsLegal};
ghost use Rattle.oz_core.specs.Nodes.{holds, was_held};
ghost use Rattle.oz_kept.specs.Held.{LinesAreApart};
ghost use Rattle.oz_kept.specs.reopened.Left.{IsLeft};
ghost use Rattle.oz_halted.specs.Further.{HasOneMore, IsOfLog, MayBeLeftByAll};
ghost use Rattle.oz_halted.specs.Missing.{LogIsNumbered, MayHaveLost};

/// What a stop at any place may leave is a coherent opening, with the manager at any index from the stable one to the
/// last that was decided, also where any of the storage container manager and the datanodes that halted have one body
/// more each. No two lines of the script have one client and one number.
pub fn what_a_stop_may_leave_is_coherent()
    ensures { (opening : AnyOpening) (bytes : OpeningBytes) (script : AnyScript) (story : List AnyEvent)
        (place most : ℕ) (left : AnyOpening) (given : OpeningBytes) →
        IsCoherent opening bytes → LinesAreApart script → IsLegal opening story → Fits opening bytes script story →
        MayBeLeftByAll opening bytes script (take place story) most left given → IsCoherent left given }
{}

/// What a further Delete takes is of a transaction that was logged, and nothing that is left reaches it.
pub fn a_further_delete_takes_nothing_that_is_reached()
    ensures { (opening : AnyOpening) (bytes : OpeningBytes) (script : AnyScript) (story : List AnyEvent)
        (place most : ℕ) (left : AnyOpening) (given : OpeningBytes) (dn number local : ℕ) (locals : List ℕ)
        (longer : List AnyEvent) (more : HasOneMore opening bytes script (Datanode dn) (take place story) longer) →
        IsCoherent opening bytes → IsLegal opening story →
        MayBeLeftByAll opening bytes script (take place story) most left given →
        more.further ≡ Delete dn number locals → Contains locals local →
        IsOfLog opening (take place story) left number local }
{}

/// A block that a datanode holds by the story is missing only where the datanode halted, and where its deletion is logged
/// or the further event is a Wipe. No two transactions of the opening's log have one number, and none is above the last.
pub fn only_what_is_being_deleted_may_be_missing()
    ensures { (opening : AnyOpening) (bytes : OpeningBytes) (script : AnyScript) (story : List AnyEvent)
        (place most : ℕ) (left : AnyOpening) (given : OpeningBytes) (dn : ℕ) (block : AnyBlock) →
        LogIsNumbered opening → IsLegal opening story →
        MayBeLeftByAll opening bytes script (take place story) most left given →
        holds opening (take place story) dn block ≡ true → was_held left dn block ≡ false →
        MayHaveLost opening bytes script (take place story) dn block }
{}

/// What a story leaves is among what it may leave.
pub fn what_a_story_leaves_it_may_leave()
    ensures { (opening : AnyOpening) (bytes : OpeningBytes) (script : AnyScript) (story : List AnyEvent)
        (most : ℕ) (left : AnyOpening) (given : OpeningBytes) →
        IsLeft opening bytes script story most left given → MayBeLeftByAll opening bytes script story most left given }
{}
