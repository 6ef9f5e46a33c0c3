//! What bytes stand for.

ghost use Rattle.std.specs.Prelude.{◌≡◌, ◌⊎◌, ℕ, List};
ghost use Rattle.oz_fields.specs.Field.{AreBytes};
ghost use Rattle.oz_journal.specs.Grammar.{IsJournal, IsDamagedAt};
ghost use Rattle.oz_journal.specs.Load.{IsLeftAlone};

/// Bytes stand for one list of bodies, or are damaged at one place.
pub fn bytes_stand_for_one_thing()
    ensures one_reading { (bytes : List ℕ) (bodies others : List (List ℕ)) →
        IsJournal bytes bodies → IsJournal bytes others → bodies ≡ others }
    ensures one_damage { (bytes : List ℕ) (offset place : ℕ) →
        IsDamagedAt bytes offset → IsDamagedAt bytes place → offset ≡ place }
    ensures not_both { (bytes : List ℕ) (bodies : List (List ℕ)) (offset : ℕ) →
        IsJournal bytes bodies → IsDamagedAt bytes offset → ⊥ }
    ensures one_of_them { (bytes : List ℕ) → AreBytes bytes →
        ((bodies : List (List ℕ)) × IsJournal bytes bodies)
        ⊎ ((offset : ℕ) × IsDamagedAt bytes offset) }
{}

/// Bytes that were left alone stand for the same bodies.
pub fn bytes_left_alone_stand_for_the_same()
    ensures { (before after : List ℕ) (bodies : List (List ℕ)) →
        IsLeftAlone before after → IsJournal before bodies → IsJournal after bodies }
{}
