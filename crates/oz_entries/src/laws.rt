//! What holds of all entries.

ghost use Rattle.std.specs.Prelude.{◌≡◌, ◌↔◌, ◌≤◌, ◌<◌, ◌^◌, false, ◌++◌, ◌∷◌, [], ℕ, List, Ok, Some, length, slice_get};
ghost use Rattle.oz_fields.specs.Field.{AreBytes};
ghost use Rattle.oz_entries.specs.declared.entry.Entry.{Entry as AnyEntry};
ghost use Rattle.oz_entries.specs.declared.entry.Entry.TheVariants as entries;
ghost use Rattle.oz_entries.specs.Build.{Makes, FailsAt};
ghost use Rattle.oz_entries.specs.Held.{IsSound};
ghost use Rattle.oz_entries.specs.Entries.{entry_bytes};
ghost use Rattle.oz_entries.specs.Node.{Node, MayFollow, after_entry, is_held};
ghost use Rattle.oz_entries.specs.Reading.{entry_at};

/// An entry that may follow is read, whatever stands behind it; and what is read is an entry that may follow, in its
/// one spelling.
pub fn an_entry_has_one_spelling()
    ensures read_back { (before : Node) (entry : AnyEntry) (rest : List ℕ) → MayFollow before entry →
        entry_at before (entry_bytes entry ++ rest) ≡ Ok (entry, rest) }
    ensures only { (before : Node) (bytes : List ℕ) (entry : AnyEntry) (rest : List ℕ) → AreBytes bytes →
        entry_at before bytes ≡ Ok (entry, rest) →
        MayFollow before entry × (bytes ≡ entry_bytes entry ++ rest) }
{}

/// The bodies of a journal make one thing, or are damaged at one place, which lies in one of them, and not both.
pub fn bodies_make_one_node()
    ensures one_node { (bodies : List (List ℕ)) (node other : Node) →
        Makes bodies node → Makes bodies other → node ≡ other }
    ensures not_both { (bodies : List (List ℕ)) (node : Node) (count place : ℕ) →
        Makes bodies node → FailsAt bodies count place → ⊥ }
    ensures one_fault { (bodies : List (List ℕ)) (count place other at : ℕ) →
        FailsAt bodies count place → FailsAt bodies other at → (count ≡ other) × (place ≡ at) }
    ensures within { (bodies : List (List ℕ)) (count place : ℕ) → FailsAt bodies count place →
        (body : List ℕ) × (slice_get bodies count ≡ Some body) × (place ≤ length body) }
{}

/// An entry that may follow makes one body more.
pub fn an_entry_is_one_body_more()
    ensures { (bodies : List (List ℕ)) (node : Node) (entry : AnyEntry) → Makes bodies node → MayFollow node entry →
        Makes (bodies ++ entry_bytes entry ∷ []) (after_entry entry node) }
{}

/// A slot is in use where a block that is held has it in its row, and belongs to that block alone.
pub fn each_slot_belongs_to_one_block()
    ensures { (bodies : List (List ℕ)) (node : Node) → Makes bodies node → IsSound node }
{}

/// A replica may be dropped where none of its blocks is held, and nowhere else.
pub fn what_is_dropped_holds_nothing()
    ensures { (bodies : List (List ℕ)) (node : Node) (container : ℕ) → Makes bodies node → container < 2 ^ 64 →
        MayFollow node (entries.Drop container)
        ↔ ((local : ℕ) → is_held node (record { container = container; local = local }) ≡ false) }
{}
