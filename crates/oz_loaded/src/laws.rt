//! What the bytes of the manager's disk are loaded as.

ghost use Rattle.std.specs.Prelude.{◌≡◌, ◌↔◌, ◌<◌, ℕ, List, Some, IsSome, Contains, slice_get};
ghost use Rattle.oz_cache.specs.Cache.{CacheView, newest};
ghost use Rattle.oz_fields.specs.declared.block.Block.{Block as AnyBlock};
ghost use Rattle.oz_journal.specs.Grammar.{IsJournal};
ghost use Rattle.oz_loaded.specs.Loads.{IsDamagedDisk, IsLoaded};
ghost use Rattle.oz_loaded.specs.Unseated.{UnseatedView};
ghost use Rattle.oz_namespace.specs.declared.namespace.Namespace.{Namespace as AnyNamespace};
ghost use Rattle.oz_names.specs.declared.limits.TheConstants.{STRIPES};
ghost use Rattle.oz_rows.specs.declared.key.RowKey.{RowKey as AnyKey};
ghost use Rattle.oz_rows.specs.RowMaps.{Rows as AnyRows, row_of};
ghost use Rattle.oz_sound.specs.Sound.{IsSound, IsSoundButRenames};
ghost use Rattle.oz_sound.specs.StandsFor.{StandsFor};
ghost use Rattle.oz_store.specs.Store.{IsInADeletedRow};
ghost use Rattle.oz_sound.specs.stripes.Stripes.{only, stripe_of_key};
ghost use Rattle.oz_store.specs.striped.Shares.{IsOfStripe};

use oz_effects::a_batch_makes_a_body;
use oz_journal::bytes_stand_for_one_thing;
use oz_tables::bodies_make_one_thing;

/// Bytes are loaded as one list of rows, with one last index, or are damaged at one place, and not both.
pub fn a_disk_loads_as_one_thing()
    ensures one { (bytes : List ℕ) (bodies others : List (List ℕ)) (unseated other : UnseatedView) →
        IsJournal bytes bodies → (this : IsLoaded bodies unseated) →
        IsJournal bytes others → (that : IsLoaded others other) →
        (this.all ≡ that.all) × (unseated.last_index ≡ other.last_index) }
    ensures not_both { (bytes : List ℕ) (bodies : List (List ℕ)) (unseated : UnseatedView) (offset : ℕ) →
        IsJournal bytes bodies → IsLoaded bodies unseated → IsDamagedDisk bytes offset → ⊥ }
    ensures one_fault { (bytes : List ℕ) (offset place : ℕ) →
        IsDamagedDisk bytes offset → IsDamagedDisk bytes place → offset ≡ place }
{
    bytes_stand_for_one_thing();
    bodies_make_one_thing();
}

/// The parts are together the whole: each row stands in the part of its stripe, which there is.
pub fn the_parts_are_the_whole()
    ensures there { (bodies : List (List ℕ)) (unseated : UnseatedView) (this : IsLoaded bodies unseated) (key : AnyKey) →
        IsSome (row_of this.all key) → stripe_of_key key < STRIPES }
    ensures same { (bodies : List (List ℕ)) (unseated : UnseatedView) (this : IsLoaded bodies unseated) (key : AnyKey)
        (part : CacheView) → slice_get unseated.parts (stripe_of_key key) ≡ Some part →
        newest part key ≡ row_of this.all key }
{
    a_batch_makes_a_body();
}

/// The blocks that are left are those that a deleted row names.
pub fn what_is_left_stands_in_deleted_rows()
    ensures { (bodies : List (List ℕ)) (unseated : UnseatedView) (this : IsLoaded bodies unseated) (block : AnyBlock) →
        Contains unseated.left block ↔ IsInADeletedRow (row_of this.all) block }
{
    a_batch_makes_a_body();
}

/// Where all rows are sound and stand for a namespace, the rows of one stripe alone are sound and stand for what the
/// namespace has of that stripe; and they are sound but for what renamed rows say where all are.
pub fn a_stripes_rows_are_sound()
    ensures sound { (stripe : ℕ) (all : AnyRows) → IsSound all → IsSound (only stripe all) }
    ensures but_renames { (stripe : ℕ) (all : AnyRows) → IsSoundButRenames all → IsSoundButRenames (only stripe all) }
    ensures stand { (stripe : ℕ) (all : AnyRows) (namespace part : AnyNamespace) →
        StandsFor all namespace → IsOfStripe stripe namespace part → StandsFor (only stripe all) part }
{}
