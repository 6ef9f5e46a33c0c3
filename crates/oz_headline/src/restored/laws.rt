//! What the rows of all stripes are together, and what the bodies that were taken of them stand for.

ghost use Rattle.std.specs.Prelude.{◌≡◌, ◌++◌, ◌<◌, ◌≤◌, ℕ, List, IfSome};
ghost use Rattle.oz_buffer.specs.Buffer.{buffer_of};
ghost use Rattle.oz_core.specs.declared.event.Event.{Event as AnyEvent};
ghost use Rattle.oz_core.specs.declared.opening.Opening.{Opening as AnyOpening};
ghost use Rattle.oz_core.specs.Contents.{OpeningBytes};
ghost use Rattle.oz_core.specs.Law.{IsLegal};
ghost use Rattle.oz_core.specs.Manager.{flushed_moment, kept_up_to, swapped_index};
ghost use Rattle.oz_decision.specs.Meets.{AreInGrammar};
ghost use Rattle.oz_effects.specs.Build.{Builds};
ghost use Rattle.oz_flusher.specs.Stops.{IsPrefix};
ghost use Rattle.oz_flusher.specs.Taken.{bodies_of};
ghost use Rattle.oz_journal.specs.Grammar.{IsJournal};
ghost use Rattle.oz_namespace.specs.declared.namespace.Namespace.{Namespace as AnyNamespace};
ghost use Rattle.oz_names.specs.declared.limits.TheConstants.{STRIPES};
ghost use Rattle.oz_kept.specs.reopened.Left.{MayBeLast};
ghost use Rattle.oz_rows.specs.declared.entry.RowEntry.{RowEntry as AnyEntry};
ghost use Rattle.oz_rows.specs.RowMaps.{Rows as AnyRows, row_of};
ghost use Rattle.oz_sound.specs.StandsFor.{StandsFor};
ghost use Rattle.oz_store.specs.Store.{IsStore};
ghost use Rattle.oz_turn.specs.Told.{BeginsWith};
ghost use Rattle.oz_headline.specs.restored.Opens.{IsSinceSwap, NoneTakes, OpensUpTo, StandUpTo};
ghost use Rattle.oz_headline.specs.restored.Together.{AllStood, LeadsOn, StandTogether, together};
ghost use Rattle.oz_om.specs.Keeps.{HasRun};

use oz_journal::bytes_stand_for_one_thing;
use oz_tables::bodies_make_one_thing;

/// The rows of the sixteen stripes, each as its seat left them, are together rows of the whole store. These stood at
/// each place of the story, beginning with those that were loaded; and so they did in each beginning of it.
pub fn stripes_stand_together()
    ensures all { (opening : AnyOpening) (bytes : OpeningBytes) (loaded : AnyRows) (story : List AnyEvent)
        (rows : ℕ → AnyRows) →
        IsStore loaded opening bytes → AreInGrammar loaded → IsLegal opening story →
        ((stripe : ℕ) → stripe < STRIPES → HasRun opening loaded story stripe (rows stripe)) →
        AllStood opening loaded story (together rows) }
    ensures places { (opening : AnyOpening) (loaded : AnyRows) (story front : List AnyEvent) (last : AnyRows) →
        AllStood opening loaded story last → BeginsWith story front →
        (now : AnyRows) × AllStood opening loaded front now × StandTogether opening loaded front now }
{}

/// While nothing is taken, what is decided leads on from the rows at a place to those at a later one, as one batch. So
/// it does from the last Swap of a legal story to its end.
pub fn decided_batches_lead_on()
    ensures between { (opening : AnyOpening) (loaded : AnyRows) (front more : List AnyEvent) (last : AnyRows) →
        AllStood opening loaded (front ++ more) last → NoneTakes more →
        (now : AnyRows) × AllStood opening loaded front now × LeadsOn now (buffer_of more) last }
    ensures since { (opening : AnyOpening) (loaded : AnyRows) (story : List AnyEvent) (last : AnyRows) →
        IsLegal opening story → AllStood opening loaded story last → IsSinceSwap opening loaded story last }
{}

/// The bodies that were loaded, and behind them those that a beginning of the story took, stand for the namespace of
/// the whole story up to the index of the last one.
pub fn a_prefix_builds()
    ensures { (opening : AnyOpening) (bodies : List (List ℕ)) (all : List AnyEntry) (story front : List AnyEvent)
        (last : AnyRows) →
        Builds bodies all opening.last_index → IsLegal opening story → AllStood opening (row_of all) story last →
        BeginsWith story front →
        StandUpTo opening story (bodies ++ bodies_of front) (swapped_index opening front) }
{}

/// What a stop leaves of the journal does so too, up to an index that is at least each one that was stable by then.
/// Where all that is stable was so by then, no index that is stable is above it. Whoever loads it gets that namespace,
/// and that index.
pub fn a_stop_leaves_a_prefix()
    ensures opens { (opening : AnyOpening) (bodies : List (List ℕ)) (all : List AnyEntry) (story : List AnyEvent)
        (last : AnyRows) (moment : ℕ) (left : List ℕ) →
        Builds bodies all opening.last_index → IsLegal opening story → AllStood opening (row_of all) story last →
        IsPrefix bodies story moment left →
        OpensUpTo opening story moment left }
    ensures within { (opening : AnyOpening) (story : List AnyEvent) (moment : ℕ) (left : List ℕ)
        (it : OpensUpTo opening story moment left) → IfSome (flushed_moment story) (λ at. at ≤ moment) →
        MayBeLast opening story it.most }
    ensures loads { (opening : AnyOpening) (story : List AnyEvent) (moment : ℕ) (left : List ℕ)
        (it : OpensUpTo opening story moment left) (bodies : List (List ℕ)) (all : List AnyEntry) (last : ℕ)
        (namespace : AnyNamespace) →
        IsJournal left bodies → Builds bodies all last → StandsFor (row_of all) namespace →
        (namespace ≡ kept_up_to opening it.most story) × (last ≡ it.most) }
{
    bytes_stand_for_one_thing();
    bodies_make_one_thing();
}
