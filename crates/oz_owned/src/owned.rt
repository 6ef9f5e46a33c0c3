//! Whose own a block is.

ghost use Rattle.std.specs.Prelude.{◌≡◌, ◌⊎◌, ◌↔◌, ◌<◌, ℕ, true, List, Some, All, Contains, take};
ghost use Rattle.oz_fields.specs.declared.block.Block.{Block as AnyBlock};
ghost use Rattle.oz_names.specs.declared.limits.TheConstants.{STRIPES};
ghost use Rattle.oz_requests.specs.declared.reply.Reply.{Reply as AnyReply};
ghost use Rattle.oz_requests.specs.declared.request.AskId.{AskId as AnyId};
ghost use Rattle.oz_namespace.specs.declared.namespace.Namespace.{Namespace as AnyNamespace};
ghost use Rattle.oz_rows.specs.declared.key.RowKey.{RowKey as AnyKey};
ghost use Rattle.oz_rows.specs.declared.row.Row.{Row as AnyRow};
ghost use Rattle.oz_rows.specs.Rows.{RowFits};
ghost use Rattle.oz_rows.specs.RowMaps.{Rows as AnyRows};
ghost use Rattle.oz_sound.specs.Kept.{HasHome};
ghost use Rattle.oz_sound.specs.StandsFor.{StandsFor};
ghost use Rattle.oz_model.specs.Reach.{IsReached};
ghost use Rattle.oz_core.specs.declared.event.Event.{Event as AnyEvent};
ghost use Rattle.oz_core.specs.declared.event.EventKind.TheVariants.{Decide};
ghost use Rattle.oz_core.specs.declared.opening.Opening.{Opening as AnyOpening};
ghost use Rattle.oz_core.specs.Contents.{OpeningBytes};
ghost use Rattle.oz_core.specs.Law.{IsLegal, MayGo};
ghost use Rattle.oz_core.specs.Manager.{IsUsed, WasUsed, kept_up_to, named_by, namespace_of};
ghost use Rattle.oz_core.specs.Scm.{is_logged, is_logged_at_opening};
ghost use Rattle.oz_store.specs.Store.{IsStore};
ghost use Rattle.oz_store.specs.granted.Granted.{handed_out};
ghost use Rattle.oz_store.specs.striped.Shares.{share_of};
ghost use Rattle.oz_owned.specs.Own.{IsLeftOver, IsOfItsStripe, IsOfSomeStripe, IsOwn};
ghost use Rattle.oz_owned.specs.Swept.{HomesAreKept};

/// What a stripe's share of the namespace reaches is the stripe's own.
pub fn what_a_share_reaches_is_its_stripes_own()
    ensures { (opening : AnyOpening) (bytes : OpeningBytes) (loaded : AnyRows) (story : List AnyEvent) (stripe : ℕ)
        (block : AnyBlock) → IsStore loaded opening bytes → IsLegal opening story →
        IsReached (share_of stripe (namespace_of opening story)) block → IsOwn loaded stripe story block }
{}

/// A block is the own of one stripe, and no two own blocks have one local id.
pub fn a_block_is_the_own_of_one_stripe()
    ensures stripe { (opening : AnyOpening) (bytes : OpeningBytes) (loaded : AnyRows) (story : List AnyEvent)
        (stripe other : ℕ) (block : AnyBlock) → IsStore loaded opening bytes → IsLegal opening story →
        IsOwn loaded stripe story block → IsOwn loaded other story block → stripe ≡ other }
    ensures id { (opening : AnyOpening) (bytes : OpeningBytes) (loaded : AnyRows) (story : List AnyEvent)
        (stripe other : ℕ) (block twin : AnyBlock) → IsStore loaded opening bytes → IsLegal opening story →
        IsOwn loaded stripe story block → IsOwn loaded other story twin → block.local ≡ twin.local → block ≡ twin }
{}

/// What a Decide names is the own of the stripe that decides.
pub fn a_decide_names_its_stripes_own()
    ensures { (opening : AnyOpening) (bytes : OpeningBytes) (loaded : AnyRows) (story : List AnyEvent)
        (seat index : ℕ) (id : AnyId) (reply : AnyReply) (batch : List ℕ) (block : AnyBlock) →
        IsStore loaded opening bytes → IsLegal opening story →
        Contains story (record { seat = seat; kind = Decide id index reply batch }) →
        Contains (named_by reply) block → IsOfItsStripe loaded seat story block }
{}

/// Of a stripe's own, the namespace at a place reaches what the stripe's share of it reaches. So does what a stop would leave
/// of the story at an index, with the share at the place whose namespace that is.
pub fn what_is_reached_of_a_stripes_own_is_in_its_share()
    ensures place { (opening : AnyOpening) (bytes : OpeningBytes) (loaded : AnyRows) (story : List AnyEvent)
        (stripe place : ℕ) (block : AnyBlock) → IsStore loaded opening bytes → IsLegal opening story →
        IsOwn loaded stripe story block → IsReached (namespace_of opening (take place story)) block
        ↔ IsReached (share_of stripe (namespace_of opening (take place story))) block }
    ensures kept { (opening : AnyOpening) (bytes : OpeningBytes) (loaded : AnyRows) (story : List AnyEvent)
        (stripe place most : ℕ) (block : AnyBlock) → IsStore loaded opening bytes → IsLegal opening story →
        IsOwn loaded stripe story block → kept_up_to opening most story ≡ namespace_of opening (take place story) →
        IsReached (kept_up_to opening most story) block
        ↔ IsReached (share_of stripe (namespace_of opening (take place story))) block }
{}

/// A block that was used is the own of a stripe, or was in the log as the run began.
pub fn a_used_block_is_the_own_of_a_stripe()
    ensures { (opening : AnyOpening) (bytes : OpeningBytes) (loaded : AnyRows) (story : List AnyEvent)
        (block : AnyBlock) → IsStore loaded opening bytes → IsLegal opening story → IsUsed opening story block →
        IsOfSomeStripe loaded story block ⊎ (is_logged_at_opening opening block ≡ true) }
{}

/// A block that has a home in rows of the grammar which stand for a namespace is reached or left over. So a stripe's own was
/// used, by what was handed out of it.
pub fn what_has_a_home_was_used()
    ensures home { (all : AnyRows) (namespace : AnyNamespace) (block : AnyBlock) → StandsFor all namespace →
        ((key : AnyKey) (row : AnyRow) → all key ≡ Some row → RowFits key row) → HasHome all block →
        IsReached namespace block ⊎ IsLeftOver all block }
    ensures own { (opening : AnyOpening) (bytes : OpeningBytes) (loaded : AnyRows) (stripe : ℕ)
        (front : List AnyEvent) (granted : List AnyBlock) (block : AnyBlock) → IsStore loaded opening bytes →
        ((key : AnyKey) (row : AnyRow) → loaded key ≡ Some row → RowFits key row) →
        (Contains (handed_out stripe front) block → Contains granted block) → IsOwn loaded stripe front block →
        WasUsed opening granted block }
{}

/// Where the own blocks of each stripe have a home in its rows or are logged, each used block has a home in some stripe's
/// rows, or is logged.
pub fn each_used_block_has_a_home_or_is_logged()
    ensures { (opening : AnyOpening) (bytes : OpeningBytes) (loaded : AnyRows) (story : List AnyEvent)
        (rows : ℕ → AnyRows) (block : AnyBlock) → IsStore loaded opening bytes → IsLegal opening story →
        ((stripe : ℕ) → stripe < STRIPES → HomesAreKept opening loaded stripe story (rows stripe)) →
        IsUsed opening story block →
        ((stripe : ℕ) × HasHome (rows stripe) block) ⊎ (is_logged opening story block ≡ true) }
{}

/// What a Purge may take by the local id of a row's first block is logged, where the stripe asked for blocks of its own to be
/// deleted, and for none of the row without the others.
pub fn what_a_purge_may_take_is_logged()
    ensures { (opening : AnyOpening) (bytes : OpeningBytes) (loaded : AnyRows) (story : List AnyEvent)
        (stripe local : ℕ) (go : MayGo story stripe local) (first block : AnyBlock) (of_row : List AnyBlock) →
        IsStore loaded opening bytes → IsLegal opening story → All (IsOwn loaded stripe story) go.blocks →
        IsOwn loaded stripe story first → first.local ≡ local →
        (Contains go.blocks first → (other : AnyBlock) → Contains of_row other → Contains go.blocks other) →
        Contains of_row block → is_logged opening story block ≡ true }
{}
