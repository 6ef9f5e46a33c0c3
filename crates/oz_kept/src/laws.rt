//! What holds of all legal stories.

ghost use Rattle.std.specs.Prelude.{◌≡◌, ◌≤◌, ◌<◌, ◌⊎◌, ℕ, true, List, Some, Contains, slice_get, take};
ghost use Rattle.oz_fields.specs.declared.block.Block.{Block as AnyBlock};
ghost use Rattle.oz_model.specs.Reach.{IsReached};
ghost use Rattle.oz_core.specs.declared.event.Event.{Event as AnyEvent};
ghost use Rattle.oz_core.specs.declared.event.EventKind.TheVariants.{Log, Delete};
ghost use Rattle.oz_core.specs.declared.opening.Opening.{Opening as AnyOpening};
ghost use Rattle.oz_core.specs.Coherent.{IsCoherent, LogIsCoherent};
ghost use Rattle.oz_core.specs.Contents.{HasContent, OpeningBytes};
ghost use Rattle.oz_core.specs.Fits.{Fits};
ghost use Rattle.oz_core.specs.Law.{IsLegal};
ghost use Rattle.oz_core.specs.Manager.{IsUsed, namespace_at};
ghost use Rattle.oz_core.specs.Scm.{is_logged_at_opening};
ghost use Rattle.oz_core.specs.Nodes.{holds};
ghost use Rattle.oz_kept.specs.Held.{HasBytes, LinesAreApart};
ghost use Rattle.oz_kept.specs.Purges.{IsPurgeAt, WasLetGo};
ghost use Rattle.oz_script.specs.lines.Numbered.{IsNumbered};
ghost use Rattle.oz_script.specs.declared.lines.script.Script.{Script as AnyScript};

/// A block that was used, and that nothing reaches at a place of a legal story, isn't reached at any later place.
pub fn what_left_reach_never_returns()
    ensures { (opening : AnyOpening) (story : List AnyEvent) (block : AnyBlock) (place later : ℕ) →
        IsLegal opening story → place ≤ later →
        IsUsed opening (take place story) block → (IsReached (namespace_at opening story place) block → ⊥) →
        IsReached (namespace_at opening story later) block → ⊥ }
{}

/// A block of a PurgeAsk isn't reached from there on. One of a Log has a PurgeAsk before it, and so has one of a Delete,
/// unless it is of a transaction of the opening: such a block isn't reached at all.
pub fn what_is_being_deleted_is_not_reached()
    ensures purged { (opening : AnyOpening) (story : List AnyEvent) (block : AnyBlock) (place later : ℕ) →
        IsLegal opening story → IsPurgeAt story block place → place ≤ later →
        IsReached (namespace_at opening story later) block → ⊥ }
    ensures logged { (opening : AnyOpening) (story : List AnyEvent) (place seat number container local : ℕ)
        (locals : List ℕ) →
        IsLegal opening story →
        slice_get story place ≡ Some (record { seat = seat; kind = Log number container locals }) →
        Contains locals local →
        (before : ℕ) × (before < place)
        × IsPurgeAt story (record { container = container; local = local }) before }
    ensures deleted { (opening : AnyOpening) (story : List AnyEvent) (place seat dn number local : ℕ) (locals : List ℕ) →
        IsLegal opening story →
        slice_get story place ≡ Some (record { seat = seat; kind = Delete dn number locals }) →
        Contains locals local → WasLetGo opening story place number local }
    ensures at_opening { (opening : AnyOpening) (story : List AnyEvent) (block : AnyBlock) (later : ℕ) →
        LogIsCoherent opening → IsLegal opening story → is_logged_at_opening opening block ≡ true →
        IsReached (namespace_at opening story later) block → ⊥ }
{}

/// At each place of a legal story that fits a script, each datanode that holds a block has the block's content, over an
/// opening whose parts agree. A block has one content, where no two lines of the script have one client and one number;
/// and so it is in each script that was read.
pub fn holders_have_one_content()
    ensures each { (opening : AnyOpening) (bytes : OpeningBytes) (script : AnyScript) (story : List AnyEvent)
        (block : AnyBlock) (dn place : ℕ) →
        IsCoherent opening bytes → IsLegal opening story → Fits opening bytes script story →
        holds opening (take place story) dn block ≡ true →
        (content : List ℕ) × HasBytes opening bytes script (take place story) block dn content
        × HasContent opening bytes script (take place story) block content }
    ensures one { (opening : AnyOpening) (bytes : OpeningBytes) (script : AnyScript) (story : List AnyEvent)
        (block : AnyBlock) (content other : List ℕ) →
        IsCoherent opening bytes → LinesAreApart script → IsLegal opening story →
        HasContent opening bytes script story block content → HasContent opening bytes script story block other →
        content ≡ other }
    ensures read { (script : AnyScript) → IsNumbered script → LinesAreApart script }
{}
