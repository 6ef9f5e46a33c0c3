//! What a stripe's tables are: rows that stood at one place of the story, behind which only later indexes were decided.

ghost use Rattle.std.specs.Prelude.{◌≡◌, ◌⊎◌, true, ◌<◌, ◌≤◌, ◌&&◌, ℕ, nat_le, nat_lt, List, [], ◌∷◌, ◌++◌, None, Some, Contains};
ghost use Rattle.oz_fields.specs.declared.block.Block.{Block as AnyBlock};
ghost use Rattle.oz_namespace.specs.declared.namespace.Namespace.{Namespace as AnyNamespace};
ghost use Rattle.oz_requests.specs.declared.reply.Reply.{Reply as AnyReply};
ghost use Rattle.oz_requests.specs.declared.request.AskId.{AskId as AnyId};
ghost use Rattle.oz_rows.specs.declared.entry.RowEntry.{RowEntry as AnyEntry};
ghost use Rattle.oz_rows.specs.RowMaps.{AreRows, Rows as AnyRows};
ghost use Rattle.oz_names.specs.declared.limits.TheConstants.{STRIPES};
ghost use Rattle.oz_sound.specs.Kept.{HasHome};
ghost use Rattle.oz_sound.specs.StandsFor.{StandsFor};
ghost use Rattle.oz_sound.specs.stripes.Stripes.{only};
ghost use Rattle.oz_model.specs.Reach.{IsReached};
ghost use Rattle.oz_core.specs.declared.event.Event.{Event as AnyEvent};
ghost use Rattle.oz_core.specs.declared.event.EventKind.TheVariants.{Decide};
ghost use Rattle.oz_core.specs.declared.opening.Opening.{Opening as AnyOpening};
ghost use Rattle.oz_core.specs.Contents.{OpeningBytes};
ghost use Rattle.oz_core.specs.Law.{IsLegal};
ghost use Rattle.oz_core.specs.Manager.{IsUsed, decided_index, kept_block, kept_up_to, namespace_of};
ghost use Rattle.oz_core.specs.Scm.{is_logged};
ghost use Rattle.oz_core.specs.Seats.{stripe_seat};
ghost use Rattle.oz_core.specs.Stories.{all_told, mine};
ghost use Rattle.oz_store.specs.Store.{IsStore};
ghost use Rattle.oz_store.specs.granted.Granted.{handed_out};
ghost use Rattle.oz_owned.specs.Own.{IsOwn};
ghost use Rattle.oz_owned.specs.Stood.{AreWritten, HasStood, IsWritten, StandAt, TablesStand, batches_of};

/// Loaded rows of a stripe that stand for what the opening has of it are its tables as the story begins. They stay that
/// where an event comes that is no Decide of the stripe, where any Decide has an index above theirs, and where the stripe's
/// own Decide writes nothing and rows that stood at each place of the story stand behind it, too.
pub fn tables_stand_as_the_story_goes_on()
    ensures start { (opening : AnyOpening) (loaded : AnyRows) (stripe most : ℕ) →
        StandAt opening loaded stripe [] (only stripe loaded) →
        TablesStand opening loaded stripe [] most (only stripe loaded) }
    ensures others { (opening : AnyOpening) (loaded tables : AnyRows) (stripe most : ℕ) (story : List AnyEvent)
        (event : AnyEvent) → IsLegal opening (story ++ event ∷ []) →
        (event.seat ≡ stripe_seat stripe → decided_index event.kind ≡ None) →
        TablesStand opening loaded stripe story most tables →
        TablesStand opening loaded stripe (story ++ event ∷ []) most tables }
    ensures decides { (opening : AnyOpening) (loaded tables : AnyRows) (stripe most index : ℕ) (story : List AnyEvent)
        (event : AnyEvent) → decided_index event.kind ≡ Some index → most < index →
        TablesStand opening loaded stripe story most tables →
        TablesStand opening loaded stripe (story ++ event ∷ []) most tables }
    ensures writes_nothing { (opening : AnyOpening) (loaded tables : AnyRows) (stripe most index : ℕ)
        (story : List AnyEvent) (id : AnyId) (reply : AnyReply) →
        IsLegal opening (story ++ record { seat = stripe_seat stripe; kind = Decide id index reply [] } ∷ []) →
        (HasStood opening loaded stripe story tables → StandAt opening loaded stripe
        (story ++ record { seat = stripe_seat stripe; kind = Decide id index reply [] } ∷ []) tables) →
        TablesStand opening loaded stripe story most tables → TablesStand opening loaded stripe
        (story ++ record { seat = stripe_seat stripe; kind = Decide id index reply [] } ∷ []) most tables }
{}

/// Rows of a stripe that stood at each place of a story go on standing while its seat gives nothing.
pub fn rows_stand_while_other_seats_act()
    ensures { (opening : AnyOpening) (loaded rows : AnyRows) (stripe : ℕ) (story more : List AnyEvent) →
        IsLegal opening (story ++ more) → mine (stripe_seat stripe) more ≡ [] →
        HasStood opening loaded stripe story rows → HasStood opening loaded stripe (story ++ more) rows }
{}

/// Where the rows of each stripe stood at each place of a story, each block that was used by one of these places has a home
/// there in the rows of a stripe, in a key, an open key or a deleted row; or it is logged there.
pub fn a_used_block_has_a_home_or_is_logged_at_each_place()
    ensures { (opening : AnyOpening) (bytes : OpeningBytes) (loaded : AnyRows) (story front more : List AnyEvent)
        (last : ℕ → AnyRows) (block : AnyBlock) → IsStore loaded opening bytes → IsLegal opening story →
        story ≡ front ++ more →
        ((stripe : ℕ) → stripe < STRIPES → HasStood opening loaded stripe story (last stripe)) →
        IsUsed opening front block →
        ((stripe : ℕ) × (rows : AnyRows) × HasStood opening loaded stripe front rows × HasHome rows block)
        ⊎ (is_logged opening front block ≡ true) }
{}

/// Rows that stood at each place of a story, from those that were loaded, are one at its end. So are those at the front of
/// each index.
pub fn rows_that_stood_are_one()
    ensures end { (opening : AnyOpening) (loaded rows other : AnyRows) (stripe : ℕ) (story : List AnyEvent)
        (listed : List AnyEntry) → AreRows listed (only stripe loaded) →
        HasStood opening loaded stripe story rows →
        HasStood opening loaded stripe story other → rows ≡ other }
    ensures fronts { (opening : AnyOpening) (loaded rows : AnyRows) (stripe most : ℕ) (story : List AnyEvent) →
        IsLegal opening story → HasStood opening loaded stripe story rows →
        (tables : AnyRows) × TablesStand opening loaded stripe story most tables }
{}

/// Where the stripe's rows stood at each place of the story, its tables stand to which the batches of all its Decides were
/// brought up to an index that isn't below that of the opening. So do those that stood to which further ones were brought, up
/// to a later index: all between, or the one that is there.
pub fn brought_tables_stand()
    ensures all { (opening : AnyOpening) (loaded newest tables : AnyRows) (stripe most : ℕ) (story : List AnyEvent)
        (listed : List AnyEntry) → IsLegal opening story → AreRows listed (only stripe loaded) →
        HasStood opening loaded stripe story newest → opening.last_index ≤ most →
        AreWritten (only stripe loaded) (batches_of (λ index. nat_le index most) stripe story) tables →
        TablesStand opening loaded stripe story most tables }
    ensures more { (opening : AnyOpening) (loaded newest tables next : AnyRows) (stripe most later : ℕ)
        (story : List AnyEvent) (listed : List AnyEntry) → IsLegal opening story → AreRows listed (only stripe loaded) →
        HasStood opening loaded stripe story newest → opening.last_index ≤ most → most ≤ later →
        TablesStand opening loaded stripe story most tables →
        AreWritten tables (batches_of (λ index. nat_lt most index && nat_le index later) stripe story) next →
        TablesStand opening loaded stripe story later next }
    ensures one { (opening : AnyOpening) (loaded newest tables next : AnyRows) (stripe most later : ℕ)
        (story : List AnyEvent) (batch : List ℕ) (listed : List AnyEntry) → IsLegal opening story →
        AreRows listed (only stripe loaded) → HasStood opening loaded stripe story newest →
        opening.last_index ≤ most → most ≤ later → TablesStand opening loaded stripe story most tables →
        batches_of (λ index. nat_lt most index && nat_le index later) stripe story ≡ batch ∷ [] →
        IsWritten tables batch next → TablesStand opening loaded stripe story later next }
{}

/// Tables that stand are sound as rows that stood are, at their front. What was handed out before that was kept by its index.
/// A block of the stripe's own that they don't reach wasn't reached there, nor by what a stop would leave at that index.
pub fn what_tables_stand_for()
    ensures place { (opening : AnyOpening) (loaded tables : AnyRows) (stripe most : ℕ) (story : List AnyEvent)
        (it : TablesStand opening loaded stripe story most tables) → StandAt opening loaded stripe it.front tables }
    ensures granted { (opening : AnyOpening) (loaded tables : AnyRows) (stripe most : ℕ) (story : List AnyEvent)
        (block : AnyBlock) (it : TablesStand opening loaded stripe story most tables) →
        Contains (handed_out stripe it.front) block → Contains (all_told (kept_block most) story) block }
    ensures unreached { (opening : AnyOpening) (bytes : OpeningBytes) (loaded tables : AnyRows) (stripe most : ℕ)
        (story : List AnyEvent) (block : AnyBlock) → IsStore loaded opening bytes → IsLegal opening story →
        (it : TablesStand opening loaded stripe story most tables) → IsOwn loaded stripe story block →
        ((namespace : AnyNamespace) → StandsFor tables namespace → IsReached namespace block → ⊥) →
        IsReached (namespace_of opening it.front) block → ⊥ }
    ensures unkept { (opening : AnyOpening) (bytes : OpeningBytes) (loaded tables : AnyRows) (stripe most : ℕ)
        (story : List AnyEvent) (block : AnyBlock) → IsStore loaded opening bytes → IsLegal opening story →
        TablesStand opening loaded stripe story most tables → IsOwn loaded stripe story block →
        ((namespace : AnyNamespace) → StandsFor tables namespace → IsReached namespace block → ⊥) →
        IsReached (kept_up_to opening most story) block → ⊥ }
{}
