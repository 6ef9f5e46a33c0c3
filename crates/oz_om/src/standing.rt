//! What the rows of stripes stand for at each place of a run's story, and what their tables are.

ghost use Rattle.std.specs.Prelude.{◌≡◌, ◌⊎◌, ◌<◌, ◌≤◌, ◌++◌, ℕ, List, true};
ghost use Rattle.oz_cache.specs.Cache.{CacheView};
ghost use Rattle.oz_core.specs.declared.event.Event.{Event as AnyEvent};
ghost use Rattle.oz_core.specs.declared.opening.Opening.{Opening as AnyOpening};
ghost use Rattle.oz_core.specs.Contents.{OpeningBytes};
ghost use Rattle.oz_core.specs.Law.{IsLegal};
ghost use Rattle.oz_core.specs.Manager.{IsUsed};
ghost use Rattle.oz_core.specs.Scm.{is_logged};
ghost use Rattle.oz_core.specs.Seats.{stripe_seat};
ghost use Rattle.oz_core.specs.Stories.{mine};
ghost use Rattle.oz_fields.specs.declared.block.Block.{Block as AnyBlock};
ghost use Rattle.oz_locks.specs.Rows.{IsReplayed};
ghost use Rattle.oz_locks.specs.Writes.{writes_of};
ghost use Rattle.oz_names.specs.declared.limits.TheConstants.{STRIPES};
ghost use Rattle.oz_om.specs.Keeps.{AreListed, HasRun};
ghost use Rattle.oz_owned.specs.Stood.{HasStood, TablesStand};
ghost use Rattle.oz_rows.specs.RowMaps.{Rows as AnyRows, row_of};
ghost use Rattle.oz_sound.specs.Kept.{HasHome};
ghost use Rattle.oz_sound.specs.stripes.Stripes.{only};
ghost use Rattle.oz_store.specs.Store.{IsStore};

/// In a run over a store each block that was used by some place of the story has a home there, in a key, an open key or a
/// deleted row of a stripe; or it is logged there.
pub fn a_run_keeps_used_blocks()
    ensures { (opening : AnyOpening) (bytes : OpeningBytes) (loaded : AnyRows) (story front more : List AnyEvent)
        (last : ℕ → AnyRows) (block : AnyBlock) → IsStore loaded opening bytes → IsLegal opening story →
        story ≡ front ++ more →
        ((stripe : ℕ) → stripe < STRIPES → HasRun opening loaded story stripe (last stripe)) →
        IsUsed opening front block →
        ((stripe : ℕ) × (rows : AnyRows) × HasStood opening loaded stripe front rows × HasHome rows block)
        ⊎ (is_logged opening front block ≡ true) }
{}

/// The tables to which a stripe brought its rows up to an index stood at one place of the story, behind which only later
/// indexes were decided. In a run there are such rows for every index.
pub fn a_stripes_tables_stood()
    ensures brought { (opening : AnyOpening) (loaded newest : AnyRows) (stripe flushed : ℕ)
        (given story : List AnyEvent) (cache : CacheView) → IsLegal opening story →
        mine (stripe_seat stripe) story ≡ given → AreListed (only stripe loaded) →
        HasStood opening loaded stripe story newest → opening.last_index ≤ flushed →
        IsReplayed (only stripe loaded) (writes_of given) flushed cache →
        TablesStand opening loaded stripe story flushed (row_of cache.durable.rows) }
    ensures each { (opening : AnyOpening) (loaded rows : AnyRows) (stripe most : ℕ) (story : List AnyEvent) →
        IsLegal opening story → HasRun opening loaded story stripe rows →
        (tables : AnyRows) × TablesStand opening loaded stripe story most tables }
{}
