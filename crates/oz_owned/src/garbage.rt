//! That what nothing reaches and no line works on stays so.

ghost use Rattle.std.specs.Prelude.{◌≡◌, ◌↔◌, ◌≤◌, ℕ, List, [], ◌∷◌, ◌++◌, Contains, take};
ghost use Rattle.oz_fields.specs.declared.block.Block.{Block as AnyBlock};
ghost use Rattle.oz_requests.specs.declared.reply.Reply.{Reply as AnyReply};
ghost use Rattle.oz_requests.specs.declared.request.AskId.{AskId as AnyId};
ghost use Rattle.oz_model.specs.Reach.{IsReached};
ghost use Rattle.oz_core.specs.declared.event.Event.{Event as AnyEvent};
ghost use Rattle.oz_core.specs.declared.event.EventKind.TheVariants.{Decide};
ghost use Rattle.oz_core.specs.declared.opening.Opening.{Opening as AnyOpening};
ghost use Rattle.oz_core.specs.Law.{IsLegal};
ghost use Rattle.oz_core.specs.Manager.{IsGarbage, IsUsed, kept_up_to, last_index, namespace_at, namespace_of, pinned};
ghost use Rattle.oz_owned.specs.Left.{LeftAt};

/// A used block that nothing reaches at a place of a legal story isn't reached at a later place, nor by what a stop would
/// leave there at an index that isn't below that of the first place. If no line works on it there, none does later. So
/// garbage stays garbage.
pub fn garbage_stays_garbage()
    ensures unreached { (opening : AnyOpening) (story : List AnyEvent) (block : AnyBlock) (place later : ℕ) →
        IsLegal opening story → place ≤ later → IsUsed opening (take place story) block →
        (IsReached (namespace_at opening story place) block → ⊥) →
        IsReached (namespace_at opening story later) block → ⊥ }
    ensures unkept { (opening : AnyOpening) (story : List AnyEvent) (block : AnyBlock) (place later most : ℕ) →
        IsLegal opening story → place ≤ later → IsUsed opening (take place story) block →
        (IsReached (namespace_at opening story place) block → ⊥) → last_index opening (take place story) ≤ most →
        IsReached (kept_up_to opening most (take later story)) block → ⊥ }
    ensures unpinned { (opening : AnyOpening) (story : List AnyEvent) (block : AnyBlock) (place later : ℕ) →
        IsLegal opening story → place ≤ later → IsUsed opening (take place story) block →
        (IsReached (namespace_at opening story place) block → ⊥) →
        (Contains (pinned (take place story)) block → ⊥) → Contains (pinned (take later story)) block → ⊥ }
    ensures garbage { (opening : AnyOpening) (story : List AnyEvent) (block : AnyBlock) (place later : ℕ) →
        IsLegal opening story → place ≤ later → IsGarbage opening (take place story) block →
        IsGarbage opening (take later story) block }
{}

/// A block left reach at one index alone. At each place of the story where it was used, nothing reached it just where the
/// index had come so far.
pub fn where_a_block_left_decides()
    ensures decides { (opening : AnyOpening) (story : List AnyEvent) (block : AnyBlock) (since place : ℕ) →
        IsLegal opening story → LeftAt opening story block since → IsUsed opening (take place story) block →
        (IsReached (namespace_at opening story place) block → ⊥)
        ↔ (since ≤ last_index opening (take place story)) }
    ensures once { (opening : AnyOpening) (story : List AnyEvent) (block : AnyBlock) (since other : ℕ) →
        IsLegal opening story → LeftAt opening story block since → LeftAt opening story block other → since ≡ other }
{}

/// A block that nothing reached as the run began left reach at 0. One that was reached before a Decide and isn't behind it
/// left at the Decide's index. Once it has left it stays so.
pub fn a_block_leaves_reach_at_a_decide()
    ensures opening { (opening : AnyOpening) (block : AnyBlock) →
        (IsReached opening.namespace block → ⊥) → LeftAt opening [] block 0 }
    ensures now { (opening : AnyOpening) (before : List AnyEvent) (seat index : ℕ) (id : AnyId) (reply : AnyReply)
        (batch : List ℕ) (block : AnyBlock) →
        IsLegal opening (before ++ record { seat = seat; kind = Decide id index reply batch } ∷ []) →
        IsReached (namespace_of opening before) block →
        (IsReached (namespace_of opening (before ++ record { seat = seat; kind = Decide id index reply batch } ∷ [])) block
        → ⊥) →
        LeftAt opening (before ++ record { seat = seat; kind = Decide id index reply batch } ∷ []) block index }
    ensures still { (opening : AnyOpening) (before more : List AnyEvent) (block : AnyBlock) (since : ℕ) →
        IsLegal opening (before ++ more) → LeftAt opening before block since → IsUsed opening before block →
        (IsReached (namespace_of opening before) block → ⊥) → LeftAt opening (before ++ more) block since }
{}
