//! Who holds a block.

ghost use Rattle.std.specs.Prelude.{◌≡◌, ◌↔◌, ◌<◌, ℕ, true, Some, IsTrue, slice_get};
ghost use Rattle.std.specs.List.Sorted.{IsStrictlyIncreasing};
ghost use Rattle.oz_repl.specs.repl.View.{AreRising, HoldsAt, held_at};
ghost use Rattle.oz_repl.specs.repl.Listed.{is_among, is_holder_at};

use super::view::View;

/// Which members are up and hold the block with this local id, by their places. Where the first of them doesn't give its bytes, a
/// caller goes on to the next.
pub fn sources(view: &View, local: u64) -> [bool; 3]
    requires { AreRising view.now }
    ensures { (place : ℕ) → (slice_get result place ≡ Some true) ↔ HoldsAt view.now local place }
{
    [
        is_holder(view, 0, local),
        is_holder(view, 1, local),
        is_holder(view, 2, local),
    ]
}

/// Whether rising local ids have this one.
pub(super) fn has(locals: &[u64], local: u64) -> bool
    requires { IsStrictlyIncreasing locals.now }
    ensures { result ≡ is_among locals.now local }
{
    locals.binary_search(&local).is_ok()
}

/// Whether the member at a place is up and holds the block.
pub(super) fn is_holder(view: &View, place: usize, local: u64) -> bool
    requires rising { AreRising view.now }
    requires within { place < 3 }
    ensures { result ≡ is_holder_at view.now local place }
{
    view.up[place] && has(view.held[place].items(), local)
}
