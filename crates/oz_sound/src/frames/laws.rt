//! What holds of rows as those of a bucket change and blocks move.

ghost use Rattle.std.specs.Prelude.{◌∷◌, [], ◌++◌, ℕ, List, None, Some, Option as Perhaps};
ghost use Rattle.oz_fields.specs.declared.block.Block.{Block as AnyBlock};
ghost use Rattle.oz_fields.specs.declared.block.Piece.{Piece as AnyPiece};
ghost use Rattle.oz_sound.specs.frames.Apart.{ChangedInOne, only_in};
ghost use Rattle.oz_sound.specs.frames.Buckets.{BucketBecomes, with_bucket};
ghost use Rattle.oz_sound.specs.frames.Moves.{BlocksMove, NamesStay};
ghost use Rattle.oz_sound.specs.frames.Parts.{parted, IsParted, KeepsNumbers};
ghost use Rattle.oz_sound.specs.frames.Sessions.{MayBecome, MayBeDeleted, MayGet, blocks_in};
ghost use Rattle.oz_namespace.specs.declared.namespace.Bucket.{Bucket as AnyBucket};
ghost use Rattle.oz_namespace.specs.declared.namespace.Namespace.{Namespace as AnyNamespace};
ghost use Rattle.oz_namespace.specs.Namespace.{ByName};
ghost use Rattle.oz_rows.specs.declared.key.RowKey.{RowKey as AnyKey};
ghost use Rattle.oz_rows.specs.declared.key.RowKey.TheVariants as keys;
ghost use Rattle.oz_rows.specs.declared.row.Row.{Row as AnyRow};
ghost use Rattle.oz_rows.specs.declared.row.Row.TheVariants as values;
ghost use Rattle.oz_rows.specs.RowMaps.{Rows, after_changes, put};
ghost use Rattle.oz_sound.specs.Kept.{KeepsBlocks};
ghost use Rattle.oz_sound.specs.Sound.{RenamesAreSound, IsSoundButRenames};
ghost use Rattle.oz_sound.specs.StandsFor.{StandsFor};

/// Rows go on standing for a namespace as those of one bucket change, of whatever kinds.
pub fn a_bucket_becomes()
    ensures { (all now : Rows) (namespace : AnyNamespace) (volume : List ℕ) (buckets : ByName AnyBucket)
        (name : List ℕ) (bucket : AnyBucket) (stripes : List ℕ) →
        BucketBecomes all now namespace volume buckets name bucket stripes → StandsFor all namespace →
        StandsFor now (with_bucket namespace volume buckets name bucket stripes) }
{}

/// Rows stay sound where blocks move among keys, open keys and deleted keys, and no block is lost or made. What renamed
/// rows say stays so where no block gets another name.
pub fn moved_blocks_stay_sound()
    ensures sound { (all now : Rows) (granted : Perhaps AnyBlock) →
        BlocksMove all now granted → IsSoundButRenames all → IsSoundButRenames now }
    ensures kept { (all now : Rows) (granted : Perhaps AnyBlock) →
        BlocksMove all now granted → KeepsBlocks all now granted (λ block. ⊥) }
    ensures renames { (all now : Rows) (granted : Perhaps AnyBlock) →
        BlocksMove all now granted → IsSoundButRenames all → NamesStay all now →
        RenamesAreSound all → RenamesAreSound now }
{}

/// Rows that changed in one bucket are sound where the bucket's rows are, alone, and the rows before were.
pub fn rows_of_one_bucket_change()
    ensures sound { (all now : Rows) (volume name : List ℕ) → ChangedInOne all now volume name →
        IsSoundButRenames (only_in volume name now) → IsSoundButRenames all → IsSoundButRenames now }
    ensures renames { (all now : Rows) (volume name : List ℕ) → ChangedInOne all now volume name →
        RenamesAreSound (only_in volume name now) → RenamesAreSound all → RenamesAreSound now }
{}

/// The blocks of one row are parted between it and another: they move.
pub fn a_parted_row_moves()
    ensures { (all : Rows) (from : AnyKey) (left : Perhaps AnyRow) (to : AnyKey) (moved : Perhaps AnyRow) →
        IsParted all from left to moved → IsSoundButRenames all →
        KeepsNumbers all (after_changes (parted from left to moved) all) →
        BlocksMove all (after_changes (parted from left to moved) all) None }
{}

/// A session becomes a key that wasn't there: its blocks are parted, numbers and counts are kept, and names stay.
pub fn a_session_becomes_a_key()
    ensures parted { (all : Rows) (volume bucket key : List ℕ) (number : ℕ) (blocks : List AnyBlock)
        (pieces : List AnyPiece) → MayBecome all volume bucket key number blocks pieces →
        IsParted all (keys.Open volume bucket key number) None
        (keys.Key volume bucket key) (Some (values.Key number pieces)) }
    ensures keeps { (all : Rows) (volume bucket key : List ℕ) (number : ℕ) (blocks : List AnyBlock)
        (pieces : List AnyPiece) → MayBecome all volume bucket key number blocks pieces → IsSoundButRenames all →
        KeepsNumbers all (after_changes (parted (keys.Open volume bucket key number) None
        (keys.Key volume bucket key) (Some (values.Key number pieces))) all) }
    ensures names { (all : Rows) (volume bucket key : List ℕ) (number : ℕ) (blocks : List AnyBlock)
        (pieces : List AnyPiece) → MayBecome all volume bucket key number blocks pieces →
        NamesStay all (after_changes (parted (keys.Open volume bucket key number) None
        (keys.Key volume bucket key) (Some (values.Key number pieces))) all) }
{}

/// A key becomes a deleted row: its blocks are parted, numbers and counts are kept, and names stay.
pub fn a_key_becomes_a_deleted_row()
    ensures parted { (all : Rows) (volume bucket key : List ℕ) (number local : ℕ) (pieces : List AnyPiece) →
        MayBeDeleted all volume bucket key number local pieces →
        IsParted all (keys.Key volume bucket key) None
        (keys.Deleted volume bucket 0 key local) (Some (values.Deleted (blocks_in pieces))) }
    ensures keeps { (all : Rows) (volume bucket key : List ℕ) (number local : ℕ) (pieces : List AnyPiece) →
        MayBeDeleted all volume bucket key number local pieces → IsSoundButRenames all →
        KeepsNumbers all (after_changes (parted (keys.Key volume bucket key) None
        (keys.Deleted volume bucket 0 key local) (Some (values.Deleted (blocks_in pieces)))) all) }
    ensures names { (all : Rows) (volume bucket key : List ℕ) (number local : ℕ) (pieces : List AnyPiece) →
        MayBeDeleted all volume bucket key number local pieces →
        NamesStay all (after_changes (parted (keys.Key volume bucket key) None
        (keys.Deleted volume bucket 0 key local) (Some (values.Deleted (blocks_in pieces)))) all) }
{}

/// A session gets a block whose local id stood nowhere.
pub fn a_granted_block_moves()
    ensures { (all : Rows) (volume bucket key : List ℕ) (number : ℕ) (blocks : List AnyBlock) (new : AnyBlock) →
        MayGet all volume bucket key number blocks new → IsSoundButRenames all →
        BlocksMove all (after_changes (put (keys.Open volume bucket key number)
        (values.Open (blocks ++ new ∷ [])) ∷ []) all) (Some new) }
{}
