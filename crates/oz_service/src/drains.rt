//! When a drain is done, which datanode holds it up, and that both stays.

ghost use Rattle.std.specs.Prelude.{◌≡◌, ◌↔◌, ◌<◌, ◌≤◌, ℕ, true, List, [], ◌++◌, length, None, Contains};
ghost use Rattle.oz_command.specs.declared.command.AdminCommand.TheVariants.{Drain};
ghost use Rattle.oz_command.specs.declared.command.Command.TheVariants.{Admin};
ghost use Rattle.oz_fields.specs.declared.block.Block.{Block as AnyBlock};
ghost use Rattle.oz_reclaim.specs.sweep.History.{History, LeftAt as LeftInRows};
ghost use Rattle.oz_requests.specs.declared.answer.Values.{Values as AnyValues};
ghost use Rattle.oz_rows.specs.RowMaps.{Rows as AnyRows};
ghost use Rattle.oz_script.specs.declared.lines.script.Line.{Line as AnyLine};
ghost use Rattle.oz_core.specs.declared.event.Event.{Event as AnyEvent};
ghost use Rattle.oz_core.specs.declared.event.Node.TheVariants.{Manager, Scm};
ghost use Rattle.oz_core.specs.declared.opening.Opening.{Opening as AnyOpening};
ghost use Rattle.oz_core.specs.Coherent.{IsCoherent, LogIsCoherent};
ghost use Rattle.oz_core.specs.Contents.{OpeningBytes};
ghost use Rattle.oz_core.specs.Drained.{IsDrained};
ghost use Rattle.oz_core.specs.Due.{AdminIsDone, EmptyAreDeleted, IsHeld, IsHolding};
ghost use Rattle.oz_core.specs.Law.{IsLegal};
ghost use Rattle.oz_core.specs.Lines.{IsStart};
ghost use Rattle.oz_core.specs.Manager.{IsGarbage, IsUsed, halt_of, last_index};
ghost use Rattle.oz_core.specs.Scm.{is_logged_at_opening, is_up, logs};
ghost use Rattle.oz_owned.specs.Left.{LeftAt};
ghost use Rattle.oz_owned.specs.Own.{IsOwn};
ghost use Rattle.oz_owned.specs.Stood.{TablesStand};
ghost use Rattle.oz_owned.specs.Ordered.{LogIsOrdered};
ghost use Rattle.oz_repl.specs.views.Away.{StaysAway};
ghost use Rattle.oz_store.specs.Store.{IsStore};
ghost use Rattle.oz_service.specs.Emptied.{ClosedAreDone};
ghost use Rattle.oz_service.specs.Looks.{AreSweptBehind};
ghost use Rattle.oz_service.specs.Settled.{HoldsUp, IsSettled, StillHolds, UpAcknowledged, UpHoldNone, WasLeft};
ghost use Rattle.oz_service.specs.Still.{AllGaveNothing};

/// Where each stripe was swept behind a drain's start and no datanode puts behind a Delete what that took away, over a log that
/// was ordered as the run began: a datanode that is down holds what was garbage at the start just where it holds the drain up.
pub fn who_holds()
    ensures { (opening : AnyOpening) (bytes : OpeningBytes) (loaded : AnyRows) (story start : List AnyEvent)
        (line : AnyLine) → IsLegal opening story → IsStore loaded opening bytes → LogIsOrdered opening →
        IsStart story line start → AreSweptBehind opening loaded start story →
        ((dn : ℕ) → dn < length opening.nodes → StaysAway opening dn story) → (dn : ℕ) →
        IsHolding opening story line dn ↔ HoldsUp opening start story dn }
{}

/// Over a log that is settled besides, the drain is drained where no datanode holds it up.
pub fn what_is_drained()
    ensures { (opening : AnyOpening) (bytes : OpeningBytes) (loaded : AnyRows) (story start : List AnyEvent)
        (line : AnyLine) → IsLegal opening story → IsStore loaded opening bytes → LogIsOrdered opening →
        IsStart story line start → AreSweptBehind opening loaded start story →
        ((dn : ℕ) → dn < length opening.nodes → StaysAway opening dn story) → IsSettled opening story →
        ((dn : ℕ) → HoldsUp opening start story dn → ⊥) → IsDrained opening story line }
{}

/// Where no datanode that is up still holds a block, and neither the manager nor the storage container manager halted, the
/// lowest datanode that holds a drain up is the one that it is held by. It isn't drained then.
pub fn what_is_held()
    ensures held { (opening : AnyOpening) (bytes : OpeningBytes) (loaded : AnyRows) (story start : List AnyEvent)
        (line : AnyLine) (dn : ℕ) → IsLegal opening story → IsStore loaded opening bytes → LogIsOrdered opening →
        IsStart story line start → AreSweptBehind opening loaded start story →
        ((dn : ℕ) → dn < length opening.nodes → StaysAway opening dn story) → UpHoldNone opening story →
        line.command ≡ Admin Drain → halt_of Manager story ≡ None → halt_of Scm story ≡ None →
        HoldsUp opening start story dn → ((lower : ℕ) → lower < dn → HoldsUp opening start story lower → ⊥) →
        IsHeld opening story line dn }
    ensures undone { (opening : AnyOpening) (story start : List AnyEvent) (line : AnyLine) (dn : ℕ) →
        IsStart story line start → HoldsUp opening start story dn → IsDrained opening story line → ⊥ }
{}

/// Where each transaction that isn't retired is acknowledged by the members that are up, one of these still holds blocks just of
/// transactions that the log had as the run began.
pub fn what_is_up_holds_old_blocks_alone()
    ensures { (opening : AnyOpening) (bytes : OpeningBytes) (story : List AnyEvent) (dn : ℕ) (block : AnyBlock) →
        IsLegal opening story → IsCoherent opening bytes → LogIsOrdered opening → UpAcknowledged opening story →
        is_up dn story ≡ true → (it : StillHolds opening story dn block) → Contains (logs opening []) it.txn }
{}

/// A block that a datanode still holds was garbage at a start just where it had left reach there, by the index at which it
/// did, and no line worked on it. So it is of each used block. One that was to be deleted as the run began was garbage at each
/// place, and left reach at 0.
pub fn what_left_reach_was_garbage()
    ensures held { (opening : AnyOpening) (start behind : List AnyEvent) (dn : ℕ) (block : AnyBlock) (since : ℕ) →
        IsLegal opening (start ++ behind) → StillHolds opening (start ++ behind) dn block →
        LeftAt opening (start ++ behind) block since →
        IsGarbage opening start block ↔ WasLeft opening start since block }
    ensures used { (opening : AnyOpening) (start behind : List AnyEvent) (block : AnyBlock) (since : ℕ) →
        IsLegal opening (start ++ behind) → LeftAt opening (start ++ behind) block since →
        IsUsed opening (start ++ behind) block →
        IsGarbage opening start block ↔ WasLeft opening start since block }
    ensures logged { (opening : AnyOpening) (story : List AnyEvent) (block : AnyBlock) →
        LogIsCoherent opening → IsLegal opening story → is_logged_at_opening opening block ≡ true →
        IsGarbage opening story block }
    ensures since { (opening : AnyOpening) (story : List AnyEvent) (block : AnyBlock) →
        LogIsCoherent opening → IsLegal opening story → is_logged_at_opening opening block ≡ true →
        LeftAt opening story block 0 }
{}

/// Where a stripe's tables stood at each index of a story, a block of the stripe's own left reach in the story at the index at
/// which it did by these tables; at 0 one that was there as the run began.
pub fn when_a_block_left_is_told_by_tables()
    ensures { (opening : AnyOpening) (bytes : OpeningBytes) (loaded : AnyRows) (story : List AnyEvent) (stripe since : ℕ)
        (block : AnyBlock) (rows : History) → IsStore loaded opening bytes → IsLegal opening story →
        IsOwn loaded stripe story block →
        ((index : ℕ) → opening.last_index ≤ index → index ≤ last_index opening story →
        TablesStand opening loaded stripe story index (rows index)) →
        LeftInRows rows opening.last_index block since → since ≤ last_index opening story →
        (since ≡ 0 → IsUsed opening [] block) → LeftAt opening story block since }
{}

/// Where by a view of each container that was closed at a drain's start no event of it comes next, the empty ones of them are
/// deleted.
pub fn empty_containers_are_deleted()
    ensures { (opening : AnyOpening) (story start : List AnyEvent) (line : AnyLine) → IsLegal opening story →
        IsStart story line start → ClosedAreDone opening start story → EmptyAreDeleted opening story line }
{}

/// What a drain was done with stays so, and so does what it was held with, as long as neither the flusher, nor the storage
/// container manager, nor a datanode gives an event.
pub fn a_drains_end_stays()
    ensures done { (opening : AnyOpening) (place behind start : List AnyEvent) (line : AnyLine) (it : AnyValues) →
        IsLegal opening (place ++ behind) → AllGaveNothing opening place (place ++ behind) → IsStart place line start →
        AdminIsDone opening place line Drain it → AdminIsDone opening (place ++ behind) line Drain it }
    ensures held { (opening : AnyOpening) (place behind start : List AnyEvent) (line : AnyLine) (dn : ℕ) →
        IsLegal opening (place ++ behind) → AllGaveNothing opening place (place ++ behind) → IsStart place line start →
        IsHeld opening place line dn → IsHeld opening (place ++ behind) line dn }
{}
