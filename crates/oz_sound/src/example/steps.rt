//! That the example's rows stay sound as blocks move among them, and as one gets another name.

ghost use Rattle.std.specs.Prelude.{ℕ, ◌<◌, None, Some, Option as Perhaps};
ghost use Rattle.std.specs.FinMap.{from_entries};
ghost use Rattle.oz_sound.specs.example.Example.{rows, namespace, home, photos, buckets_of_home};
ghost use Rattle.oz_sound.specs.example.Steps.{committing, deleting, granting, renaming, photos_without_cat, new_block};
ghost use Rattle.oz_sound.specs.example.Steps.{crowding, forgetting, standing_twice, undrawn};
ghost use Rattle.oz_fields.specs.declared.block.Block.{Block as AnyBlock};
ghost use Rattle.oz_sound.specs.frames.Apart.{only_in};
ghost use Rattle.oz_sound.specs.frames.Buckets.{with_bucket};
ghost use Rattle.oz_sound.specs.frames.Moves.{BlocksMove};
ghost use Rattle.oz_names.specs.declared.limits.TheConstants.{MOST_KEYS};
ghost use Rattle.oz_rows.specs.RowMaps.{row_of, after_changes};
ghost use Rattle.oz_sound.specs.Kept.{KeepsBlocks};
ghost use Rattle.oz_sound.specs.Sound.{IsSoundButRenames, RenamesAreSound};
ghost use Rattle.oz_sound.specs.StandsFor.{StandsFor};

/// A session becomes a key.
pub fn a_session_commits()
    ensures sound { IsSoundButRenames (after_changes committing (row_of rows)) }
    ensures renames { RenamesAreSound (after_changes committing (row_of rows)) }
    ensures kept { KeepsBlocks (row_of rows) (after_changes committing (row_of rows)) None (λ block. ⊥) }
{}

/// A key becomes a deleted row, and the rows stand for the namespace without it.
pub fn a_key_goes()
    ensures sound { IsSoundButRenames (after_changes deleting (row_of rows)) }
    ensures renames { RenamesAreSound (after_changes deleting (row_of rows)) }
    ensures kept { KeepsBlocks (row_of rows) (after_changes deleting (row_of rows)) None (λ block. ⊥) }
    ensures stands { StandsFor (after_changes deleting (row_of rows))
        (with_bucket namespace home (from_entries buckets_of_home) photos photos_without_cat namespace.stripes) }
{}

/// A session gets a block.
pub fn a_session_gets_a_block()
    ensures sound { IsSoundButRenames (after_changes granting (row_of rows)) }
    ensures kept { KeepsBlocks (row_of rows) (after_changes granting (row_of rows)) (Some new_block) (λ block. ⊥) }
{}

/// A key gets another name, and so does its block. The rows of its bucket alone are sound, with what renamed rows say, and
/// so all of them are.
pub fn a_key_is_renamed()
    ensures alone { IsSoundButRenames (only_in home photos (after_changes renaming (row_of rows))) }
    ensures sound { IsSoundButRenames (after_changes renaming (row_of rows)) }
    ensures renames { RenamesAreSound (after_changes renaming (row_of rows)) }
{}

/// Four batches that no request makes, and that no law of moved blocks takes: a block is lost, it stands in two rows,
/// a number wasn't drawn, and a bucket gets more keys than it may have.
pub fn what_breaks_rows_is_no_move()
    ensures lost { (granted : Perhaps AnyBlock) → BlocksMove (row_of rows) (after_changes forgetting (row_of rows)) granted → ⊥ }
    ensures twice { (granted : Perhaps AnyBlock) → BlocksMove (row_of rows) (after_changes standing_twice (row_of rows)) granted → ⊥ }
    ensures count { (granted : Perhaps AnyBlock) (count : ℕ) → MOST_KEYS < count →
        BlocksMove (row_of rows) (after_changes (crowding count) (row_of rows)) granted → ⊥ }
    ensures number { (granted : Perhaps AnyBlock) → BlocksMove (row_of rows) (after_changes undrawn (row_of rows)) granted → ⊥ }
{}
