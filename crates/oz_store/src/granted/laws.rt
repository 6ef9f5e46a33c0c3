//! What holds of the Grants of all legal stories.

ghost use Rattle.std.specs.Prelude.{◌≡◌, ◌+◌, ◌≤◌, ◌<◌, ℕ, List, ◌++◌, Some, Contains};
ghost use Rattle.oz_fields.specs.declared.block.Block.{Block as AnyBlock};
ghost use Rattle.oz_fields.specs.declared.block.TheConstants.{GREATEST_BLOCK_NUMBER};
ghost use Rattle.oz_requests.specs.declared.request.Exclude.{Exclude as AnyExclude};
ghost use Rattle.oz_core.specs.declared.event.Event.{Event as AnyEvent};
ghost use Rattle.oz_core.specs.declared.opening.Opening.{Opening as AnyOpening};
ghost use Rattle.oz_core.specs.Coherent.{IdsAreFresh, LogIsCoherent};
ghost use Rattle.oz_core.specs.Grants.{IsExcluded, IsSpent};
ghost use Rattle.oz_core.specs.Law.{IsLegal, MayBeGranted};
ghost use Rattle.oz_core.specs.Manager.{IsUsed, granted_block};
ghost use Rattle.oz_core.specs.Scm.{IsOfGrant, containers, next_id};
ghost use Rattle.oz_core.specs.Seats.{stripe_seat};
ghost use Rattle.oz_store.specs.granted.Granted.{AreNumbered, AreOld, IsFree, IsGrantAt, NoneIsFree, handed_out};
ghost use Rattle.oz_rows.specs.declared.key.RowKey.{RowKey as AnyKey};
ghost use Rattle.oz_rows.specs.Rows.{IsBlock};
ghost use Rattle.oz_rows.specs.RowMaps.{Rows};
ghost use Rattle.oz_sound.specs.Sound.{StandsIn};
ghost use Rattle.oz_store.specs.Store.{RowsAreCoherent};

/// A Grant has no id below the opening's next one, none above the limit, and none from the id on that is granted next.
/// Its blocks have numbers as blocks have them, where the opening's containers are numbered and its next id isn't 0.
pub fn grants_fit()
    ensures from { (opening : AnyOpening) (story : List AnyEvent)
        (place stripe container pipeline first count : ℕ) →
        IsLegal opening story → IsGrantAt story place stripe container pipeline first count →
        opening.next_id ≤ first }
    ensures within { (opening : AnyOpening) (story : List AnyEvent)
        (place stripe container pipeline first count : ℕ) →
        IsLegal opening story → IsGrantAt story place stripe container pipeline first count →
        first + count ≤ GREATEST_BLOCK_NUMBER }
    ensures below { (opening : AnyOpening) (story : List AnyEvent)
        (place stripe container pipeline first count : ℕ) →
        IsLegal opening story → IsGrantAt story place stripe container pipeline first count →
        first + count ≤ next_id opening story }
    ensures blocks { (opening : AnyOpening) (story : List AnyEvent) (stripe pipeline : ℕ) (block : AnyBlock) →
        1 ≤ opening.next_id → AreNumbered opening.containers opening.next_id → IsLegal opening story →
        IsOfGrant story stripe block pipeline → IsBlock block }
{}

/// Containers that are numbered from 1 on, below the next id, stay so in a legal story, and the container of a Grant is
/// numbered below the end of the Grant.
pub fn containers_stay_numbered()
    ensures all { (opening : AnyOpening) (story : List AnyEvent) →
        AreNumbered opening.containers opening.next_id → IsLegal opening story →
        AreNumbered (containers opening story) (next_id opening story) }
    ensures granted { (opening : AnyOpening) (story : List AnyEvent)
        (place stripe container pipeline first count : ℕ) →
        AreNumbered opening.containers opening.next_id → IsLegal opening story →
        IsGrantAt story place stripe container pipeline first count →
        (1 ≤ container) × (container < first + count) }
{}

/// A Grant begins no lower than each earlier one ends. So the blocks of later Grants have greater local ids, and two
/// blocks of Grants with one local id are one block, of a Grant to one stripe on one pipeline.
pub fn grants_are_apart()
    ensures in_order { (opening : AnyOpening) (story : List AnyEvent)
        (place stripe container pipeline first count later other with beside from many : ℕ) →
        IsLegal opening story → place < later →
        IsGrantAt story place stripe container pipeline first count →
        IsGrantAt story later other with beside from many → first + count ≤ from }
    ensures parts { (opening : AnyOpening) (front more : List AnyEvent) (stripe pipeline other beside : ℕ)
        (block twin : AnyBlock) →
        IsLegal opening (front ++ more) → IsOfGrant front stripe block pipeline →
        IsOfGrant more other twin beside → block.local < twin.local }
    ensures one { (opening : AnyOpening) (story : List AnyEvent) (stripe pipeline other beside : ℕ)
        (block twin : AnyBlock) →
        IsLegal opening story → IsOfGrant story stripe block pipeline → IsOfGrant story other twin beside →
        block.local ≡ twin.local → (block ≡ twin) × (stripe ≡ other) × (pipeline ≡ beside) }
{}

/// Only a Decide of the stripe that a block was granted to hands it out, and a stripe hands out no others.
pub fn a_block_is_granted_by_its_stripe()
    ensures seat { (opening : AnyOpening) (story : List AnyEvent) (event : AnyEvent) (block : AnyBlock)
        (stripe pipeline : ℕ) →
        IsLegal opening story → Contains story event → granted_block event.kind ≡ Some block →
        IsOfGrant story stripe block pipeline → event.seat ≡ stripe_seat stripe }
    ensures of_grant { (opening : AnyOpening) (story : List AnyEvent) (stripe : ℕ) (block : AnyBlock) →
        IsLegal opening story → Contains (handed_out stripe story) block →
        (pipeline : ℕ) × IsOfGrant story stripe block pipeline }
{}

/// What a stripe has free wasn't used, over disks whose ids are below the next, so that an ask which doesn't exclude it
/// may be granted it. A stripe that has handed out all that an ask doesn't exclude has spent its Grants for that ask.
pub fn what_is_free_is_unused()
    ensures unused { (opening : AnyOpening) (story : List AnyEvent) (stripe pipeline : ℕ) (block : AnyBlock) →
        IdsAreFresh opening → LogIsCoherent opening → IsLegal opening story →
        IsFree story stripe block pipeline → IsUsed opening story block → ⊥ }
    ensures allowed { (opening : AnyOpening) (story : List AnyEvent) (stripe pipeline : ℕ) (block : AnyBlock)
        (exclude : AnyExclude) →
        IdsAreFresh opening → LogIsCoherent opening → IsLegal opening story →
        IsFree story stripe block pipeline → (IsExcluded exclude block pipeline → ⊥) →
        MayBeGranted opening story stripe exclude block pipeline }
    ensures spent { (opening : AnyOpening) (story : List AnyEvent) (stripe : ℕ) (exclude : AnyExclude) →
        NoneIsFree story stripe exclude → IsSpent opening story stripe exclude }
{}

/// No block of a stripe's rows has the local id of one that the stripe has free, where each was loaded or handed out by
/// the stripe.
pub fn what_is_free_is_new()
    ensures { (opening : AnyOpening) (story : List AnyEvent) (loaded now : Rows) (stripe pipeline : ℕ)
        (block : AnyBlock) →
        RowsAreCoherent loaded opening → AreOld loaded (handed_out stripe story) now → IsLegal opening story →
        IsFree story stripe block pipeline →
        (twin : AnyBlock) (key : AnyKey) → StandsIn now twin key → twin.local ≡ block.local → ⊥ }
{}
