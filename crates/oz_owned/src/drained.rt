//! What a swept stripe has logged, and how the transactions of an ordered log are numbered and acknowledged.

ghost use Rattle.std.specs.Prelude.{◌≡◌, ◌≢◌, ℕ, true, List, ◌++◌, AllPairs, Contains};
ghost use Rattle.oz_dellog.specs.declared.txn.Txn.{Txn as AnyTxn};
ghost use Rattle.oz_fields.specs.declared.block.Block.{Block as AnyBlock};
ghost use Rattle.oz_rows.specs.RowMaps.{Rows as AnyRows};
ghost use Rattle.oz_core.specs.declared.event.Event.{Event as AnyEvent};
ghost use Rattle.oz_core.specs.declared.opening.Opening.{Opening as AnyOpening};
ghost use Rattle.oz_core.specs.Law.{IsLegal};
ghost use Rattle.oz_core.specs.Manager.{IsGarbage, namespace_of, pinned};
ghost use Rattle.oz_core.specs.Scm.{acknowledgers, is_logged, logs, members};
ghost use Rattle.oz_kept.specs.reopened.Left.{NumbersAreApart};
ghost use Rattle.oz_repl.specs.views.Away.{NumbersAreOld};
ghost use Rattle.oz_store.specs.striped.Shares.{share_of};
ghost use Rattle.oz_owned.specs.Own.{IsOwn};
ghost use Rattle.oz_owned.specs.Ordered.{LogIsOrdered};
ghost use Rattle.oz_owned.specs.Swept.{HomesAreKept, NoneIsLeft};

/// Where a look at a stripe's rows at a front, with the pins of a story that goes on from there, leaves no block that isn't
/// reached, pinned or logged by now, each block of the stripe's own that was garbage at the front is logged by now.
pub fn what_is_swept_is_logged()
    ensures { (opening : AnyOpening) (loaded rows : AnyRows) (stripe : ℕ) (front more later : List AnyEvent) →
        IsLegal opening ((front ++ more) ++ later) → HomesAreKept opening loaded stripe front rows →
        NoneIsLeft rows (share_of stripe (namespace_of opening front)) (pinned (front ++ more))
        (λ block. is_logged opening ((front ++ more) ++ later) block ≡ true) →
        (block : AnyBlock) → IsOwn loaded stripe front block → IsGarbage opening front block →
        is_logged opening ((front ++ more) ++ later) block ≡ true }
{}

/// In an ordered log no two transactions have one number, and none has one above the last. Over it the acknowledgers of a
/// number differ at each place, and are members of the container of the transaction that has it.
pub fn an_ordered_log_is_numbered()
    ensures apart { (opening : AnyOpening) → LogIsOrdered opening → NumbersAreApart opening }
    ensures old { (opening : AnyOpening) → LogIsOrdered opening → NumbersAreOld opening }
    ensures once { (opening : AnyOpening) (story : List AnyEvent) (number : ℕ) → LogIsOrdered opening →
        IsLegal opening story → AllPairs ◌≢◌ (acknowledgers opening story number) }
    ensures members { (opening : AnyOpening) (story : List AnyEvent) (txn : AnyTxn) (dn : ℕ) →
        LogIsOrdered opening → IsLegal opening story → Contains (logs opening story) txn →
        Contains (acknowledgers opening story txn.number) dn → Contains (members opening story txn.container) dn }
    ensures one { (opening : AnyOpening) (story : List AnyEvent) (txn other : AnyTxn) → LogIsOrdered opening →
        IsLegal opening story → Contains (logs opening story) txn → Contains (logs opening story) other →
        txn.number ≡ other.number → txn ≡ other }
{}
