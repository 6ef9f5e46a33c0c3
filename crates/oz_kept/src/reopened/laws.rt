//! What holds of all that legal stories leave.

ghost use Rattle.std.specs.Prelude.{◌≡◌, ℕ, true, List, [], IsSome, Contains, take};
ghost use Rattle.std.specs.FinMap.{get};
ghost use Rattle.oz_fields.specs.declared.block.Block.{Block as AnyBlock};
ghost use Rattle.oz_script.specs.declared.lines.script.Script.{Script as AnyScript};
ghost use Rattle.oz_core.specs.declared.event.Event.{Event as AnyEvent};
ghost use Rattle.oz_core.specs.declared.opening.Opening.{Opening as AnyOpening};
ghost use Rattle.oz_core.specs.Coherent.{IsCoherent, IdsAreFresh, IsOnDisk, LogIsCoherent};
ghost use Rattle.oz_core.specs.Contents.{OpeningBytes};
ghost use Rattle.oz_core.specs.Fits.{Fits};
ghost use Rattle.oz_core.specs.Law.{IsLegal};
ghost use Rattle.oz_core.specs.Nodes.{was_held};
ghost use Rattle.oz_core.specs.Scm.{members};
ghost use Rattle.oz_kept.specs.Held.{LinesAreApart};
ghost use Rattle.oz_kept.specs.reopened.Left.{IsLeft, NumbersAreApart};

/// No id that is on a disk after a stop at any place is granted again: the next id is above all that the manager's disk
/// names, at any index that it may have come to, and above all that the datanodes hold.
pub fn what_a_stop_leaves_has_fresh_ids()
    ensures { (opening : AnyOpening) (bytes : OpeningBytes) (script : AnyScript) (story : List AnyEvent)
        (place most : ℕ) (left : AnyOpening) (given : OpeningBytes) →
        IsCoherent opening bytes → IsLegal opening story → Fits opening bytes script story →
        IsLeft opening bytes script (take place story) most left given → IdsAreFresh left }
{}

/// Nothing reaches what is still being deleted after a stop at any place, and its ids were granted.
pub fn what_a_stop_leaves_deletes_nothing_that_is_reached()
    ensures { (opening : AnyOpening) (bytes : OpeningBytes) (script : AnyScript) (story : List AnyEvent)
        (place most : ℕ) (left : AnyOpening) (given : OpeningBytes) →
        IsCoherent opening bytes → IsLegal opening story → Fits opening bytes script story →
        IsLeft opening bytes script (take place story) most left given → LogIsCoherent left }
{}

/// Each block that is on a disk after a stop at any place lies in a container that was made, and on its members alone.
pub fn what_a_stop_leaves_is_placed()
    ensures made { (opening : AnyOpening) (bytes : OpeningBytes) (script : AnyScript) (story : List AnyEvent)
        (place most : ℕ) (left : AnyOpening) (given : OpeningBytes) (block : AnyBlock) →
        IsCoherent opening bytes → IsLegal opening story → Fits opening bytes script story →
        IsLeft opening bytes script (take place story) most left given →
        IsOnDisk left block → IsSome (get left.containers block.container) }
    ensures placed { (opening : AnyOpening) (bytes : OpeningBytes) (script : AnyScript) (story : List AnyEvent)
        (place most : ℕ) (left : AnyOpening) (given : OpeningBytes) (block : AnyBlock) (dn : ℕ) →
        IsCoherent opening bytes → IsLegal opening story → Fits opening bytes script story →
        IsLeft opening bytes script (take place story) most left given →
        was_held left dn block ≡ true → Contains (members left [] block.container) dn }
{}

/// What a stop at any place leaves is a coherent opening, with the manager at any index from the stable one to the last
/// that was decided, where no two lines of the script have one client and one number.
pub fn what_a_stop_leaves_is_coherent()
    ensures { (opening : AnyOpening) (bytes : OpeningBytes) (script : AnyScript) (story : List AnyEvent)
        (place most : ℕ) (left : AnyOpening) (given : OpeningBytes) →
        IsCoherent opening bytes → LinesAreApart script → IsLegal opening story → Fits opening bytes script story →
        IsLeft opening bytes script (take place story) most left given → IsCoherent left given }
{}

/// A coherent opening is what the empty story leaves of it, where no two transactions of its log have one number.
pub fn the_empty_story_leaves_its_opening()
    ensures { (opening : AnyOpening) (bytes : OpeningBytes) (script : AnyScript) →
        IsCoherent opening bytes → NumbersAreApart opening →
        IsLeft opening bytes script [] opening.last_index opening bytes }
{}
