//! What a look at a stripe leaves of its garbage, once what it found is logged.

ghost use Rattle.std.specs.Prelude.{◌≡◌, ◌≤◌, ℕ, true, List, ◌++◌, Contains};
ghost use Rattle.oz_fields.specs.declared.block.Block.{Block as AnyBlock};
ghost use Rattle.oz_locks.specs.Pins.{AreNamed, pinned_blocks, untold};
ghost use Rattle.oz_locks.specs.declared.pins.Pin.{Pin as AnyPin};
ghost use Rattle.oz_reclaim.specs.declared.sweep.found.Found.{Found as AnyFound};
ghost use Rattle.oz_rows.specs.RowMaps.{Rows as AnyRows};
ghost use Rattle.oz_core.specs.declared.event.Event.{Event as AnyEvent};
ghost use Rattle.oz_core.specs.declared.opening.Opening.{Opening as AnyOpening};
ghost use Rattle.oz_core.specs.Law.{IsLegal};
ghost use Rattle.oz_core.specs.Manager.{IsGarbage, last_index, pinned};
ghost use Rattle.oz_core.specs.Scm.{is_logged};
ghost use Rattle.oz_core.specs.Seats.{stripe_seat};
ghost use Rattle.oz_core.specs.Stories.{mine};
ghost use Rattle.oz_owned.specs.Own.{IsOwn};
ghost use Rattle.oz_owned.specs.Stood.{StandAt, TablesStand};
ghost use Rattle.oz_service.specs.Looks.{AreLetGo, HasFoundAll, IsSweptBehind};

/// Where a look had the rows that stood at a front, found all of them that may go beside pins of a story that goes on from
/// there, and their blocks are logged by now, each block of the stripe's own that was garbage at the front is logged by now.
pub fn what_a_look_found_is_logged()
    ensures { (opening : AnyOpening) (loaded all : AnyRows) (stripe : ℕ) (front more later : List AnyEvent)
        (pins : List AnyBlock) (found : AnyFound) → IsLegal opening ((front ++ more) ++ later) →
        StandAt opening loaded stripe front all →
        ((one : AnyBlock) → Contains pins one → Contains (pinned (front ++ more)) one) →
        HasFoundAll all pins found →
        AreLetGo all found (λ block. is_logged opening ((front ++ more) ++ later) block ≡ true) →
        (block : AnyBlock) → IsOwn loaded stripe front block → IsGarbage opening front block →
        is_logged opening ((front ++ more) ++ later) block ≡ true }
{}

/// What a stripe pins for lines that its seat didn't see told is pinned in the story that the seat has seen.
pub fn a_stripes_pins_are_pinned()
    ensures { (stripe : ℕ) (seen : List AnyEvent) (pins : List AnyPin) (block : AnyBlock) →
        AreNamed (mine (stripe_seat stripe) seen) pins → Contains (pinned_blocks (untold seen pins)) block →
        Contains (pinned seen) block }
{}

/// A stripe is swept behind a start where a look later on had the tables that it was brought to up to an index, which isn't
/// below the last one at the start; found all deleted rows of them that may go beside pins of the story that it saw; and what
/// it found is logged by now. It stays so.
pub fn a_look_sweeps_its_stripe()
    ensures now { (opening : AnyOpening) (loaded tables : AnyRows) (stripe most : ℕ) (start rest later : List AnyEvent)
        (pins : List AnyBlock) (found : AnyFound) → IsLegal opening ((start ++ rest) ++ later) →
        last_index opening start ≤ most → TablesStand opening loaded stripe (start ++ rest) most tables →
        ((one : AnyBlock) → Contains pins one → Contains (pinned (start ++ rest)) one) →
        HasFoundAll tables pins found →
        AreLetGo tables found (λ block. is_logged opening ((start ++ rest) ++ later) block ≡ true) →
        IsSweptBehind opening loaded stripe start ((start ++ rest) ++ later) }
    ensures still { (opening : AnyOpening) (loaded : AnyRows) (stripe : ℕ) (start story more : List AnyEvent) →
        IsSweptBehind opening loaded stripe start story → IsSweptBehind opening loaded stripe start (story ++ more) }
{}
