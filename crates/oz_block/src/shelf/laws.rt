//! What the list of chunks that were written stands for.

ghost use Rattle.std.specs.Prelude.{◌≡◌, ◌∷◌, [], ℕ, List, false, filter};
ghost use Rattle.oz_fields.specs.declared.block.Block.{Block};
ghost use Rattle.oz_block.specs.shelf.Written.{AreRising, is_at, with_written, written_besides};
ghost use Rattle.oz_block.specs.declared.shelf.written.Written.{Written};

/// Of each place of a block the chunk is listed that was written last, and those of a block rise by their places, in
/// whatever order they were written.
pub fn each_place_has_its_last_chunk()
    ensures own { (written : List Written) (one : Written) →
        filter (is_at one.block one.place) (with_written written one) ≡ one ∷ [] }
    ensures others { (written : List Written) (one : Written) (block : Block) (place : ℕ) →
        is_at block place one ≡ false →
        filter (is_at block place) (with_written written one) ≡ filter (is_at block place) written }
    ensures none { AreRising [] }
    ensures more { (written : List Written) (one : Written) →
        AreRising written → AreRising (with_written written one) }
    ensures fewer { (written : List Written) (block : Block) →
        AreRising written → AreRising (written_besides block written) }
{}
