//! What holds of stripes in a list, and of pools.

ghost use Rattle.std.specs.Prelude.{◌≡◌, ◌↔◌, ℕ, List, [], ◌∷◌, ◌++◌, length, Contains};
ghost use Rattle.oz_core.specs.declared.event.Event.{Event};
ghost use Rattle.oz_locks.specs.Pool.{IsFree, pool_of};
ghost use Rattle.oz_locks.specs.declared.pool.FreeBlock.{FreeBlock};
ghost use Rattle.oz_locks.specs.Stripe.{StripeView, AreInOrder, IsAtRest};

use crate::loaded::Loaded;

/// Stripes in order stay so where one more is put behind them, and where a list of them is cut.
pub fn stripes_stay_in_order<T, L: Loaded>()
    ensures pushed { (stripes : List (StripeView T)) (stripe : StripeView T)
        → AreInOrder L.last_index L.coherent L.keeps stripes → stripe.number ≡ length stripes
        → IsAtRest L.last_index L.coherent L.keeps stripe
        → AreInOrder L.last_index L.coherent L.keeps (stripes ++ stripe ∷ []) }
    ensures front { (stripes rest : List (StripeView T))
        → AreInOrder L.last_index L.coherent L.keeps (stripes ++ rest)
        → AreInOrder L.last_index L.coherent L.keeps stripes }
    ensures last { (stripes : List (StripeView T)) (stripe : StripeView T)
        → AreInOrder L.last_index L.coherent L.keeps (stripes ++ stripe ∷ [])
        → (stripe.number ≡ length stripes) × IsAtRest L.last_index L.coherent L.keeps stripe }
{}

/// A pool has exactly the blocks that the stripe may grant: those of the Grants to it that none of its own Decides granted.
pub fn a_pool_has_what_is_free()
    ensures { (stripe : ℕ) (known mine : List Event) (free : FreeBlock)
        → Contains (pool_of stripe known mine) free ↔ IsFree stripe known mine free }
{}
