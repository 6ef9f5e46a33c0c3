//! How much of a story counts up to an index.

ghost use Rattle.std.specs.Prelude.{ℕ, List};
ghost use Rattle.oz_core.specs.declared.event.Event.{Event as AnyEvent};
ghost use Rattle.oz_core.specs.declared.opening.Opening.{Opening as AnyOpening};
ghost use Rattle.oz_core.specs.Law.{IsLegal};
ghost use Rattle.oz_owned.specs.Front.{IsFrontOf};

/// A legal story has a front at each index.
pub fn each_index_has_a_front()
    ensures { (opening : AnyOpening) (story : List AnyEvent) (most : ℕ) → IsLegal opening story →
        (front : List AnyEvent) × IsFrontOf opening most story front }
{}
