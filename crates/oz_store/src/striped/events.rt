//! What the events of a story make of a stripe's share, of indexes, and of what is asked.

ghost use Rattle.std.specs.Prelude.{◌≡◌, ◌≤◌, ℕ, true, List, [], ◌∷◌, ◌++◌, Some, None, Contains, slice_get, take};
ghost use Rattle.oz_core.specs.declared.event.Event.{Event as AnyEvent};
ghost use Rattle.oz_core.specs.declared.event.EventKind.TheVariants.{Ask, Decide, Flushed, Swap};
ghost use Rattle.oz_core.specs.declared.opening.Opening.{Opening as AnyOpening};
ghost use Rattle.oz_core.specs.Asks.{is_script, pending};
ghost use Rattle.oz_core.specs.Law.{IsLegal};
ghost use Rattle.oz_core.specs.Manager.{decided_index, durable_index, last_index, namespace_of, swapped_index};
ghost use Rattle.oz_core.specs.Seats.{stripe_seat};
ghost use Rattle.oz_core.specs.Stories.{mine};
ghost use Rattle.oz_model.specs.Answers.{after};
ghost use Rattle.oz_names.specs.Names.{stripe_of};
ghost use Rattle.oz_namespace.specs.declared.namespace.Namespace.{Namespace as AnyNamespace};
ghost use Rattle.oz_requests.specs.declared.reply.Reply.{Reply as AnyReply};
ghost use Rattle.oz_requests.specs.declared.request.AskId.{AskId as AnyId};
ghost use Rattle.oz_requests.specs.declared.request.Request.{Request as AnyRequest};
ghost use Rattle.oz_requests.specs.Names.{volume_in};
ghost use Rattle.oz_store.specs.striped.Shares.{IsOfStripe, HasAllStripes};

/// A Decide leaves of the namespace what its request leaves, and of its stripe's share just that. No other event
/// changes the namespace.
pub fn a_decide_is_one_request_more()
    ensures decide { (opening : AnyOpening) (story : List AnyEvent) (seat : ℕ) (id : AnyId) (index : ℕ)
        (reply : AnyReply) (batch : List ℕ) (request : AnyRequest) → pending id story ≡ Some request →
        namespace_of opening (story ++ record { seat = seat; kind = Decide id index reply batch } ∷ [])
        ≡ after (namespace_of opening story) request reply }
    ensures others { (opening : AnyOpening) (story : List AnyEvent) (event : AnyEvent) →
        decided_index event.kind ≡ None → namespace_of opening (story ++ event ∷ []) ≡ namespace_of opening story }
    ensures numbers { (opening : AnyOpening) (story : List AnyEvent) →
        HasAllStripes opening.namespace → HasAllStripes (namespace_of opening story) }
    ensures share { (stripe : ℕ) (opening : AnyOpening) (story : List AnyEvent) (part : AnyNamespace) (seat : ℕ)
        (id : AnyId) (index : ℕ) (reply : AnyReply) (batch : List ℕ) (request : AnyRequest) →
        HasAllStripes opening.namespace → pending id story ≡ Some request → stripe_of (volume_in request) ≡ stripe →
        IsOfStripe stripe (namespace_of opening story) part →
        IsOfStripe stripe
        (namespace_of opening (story ++ record { seat = seat; kind = Decide id index reply batch } ∷ []))
        (after part request reply) }
{}

/// While a legal story goes on without an event of the stripe's seat, the stripe's share stays as it was.
pub fn a_share_stays_where_others_decide()
    ensures { (stripe : ℕ) (opening : AnyOpening) (story seen more : List AnyEvent) (part : AnyNamespace) →
        IsLegal opening story → story ≡ seen ++ more →
        mine (stripe_seat stripe) story ≡ mine (stripe_seat stripe) seen →
        IsOfStripe stripe (namespace_of opening seen) part → IsOfStripe stripe (namespace_of opening story) part }
{}

/// In a legal story no index is above the last that was decided: that of the opening isn't, nor the last that was taken
/// or is stable, nor that of any Decide, Swap or Flushed.
pub fn no_index_is_above_the_last()
    ensures opened { (opening : AnyOpening) (story : List AnyEvent) →
        IsLegal opening story → opening.last_index ≤ last_index opening story }
    ensures taken { (opening : AnyOpening) (story : List AnyEvent) →
        IsLegal opening story → swapped_index opening story ≤ last_index opening story }
    ensures stable { (opening : AnyOpening) (story : List AnyEvent) →
        IsLegal opening story → durable_index opening story ≤ last_index opening story }
    ensures decides { (opening : AnyOpening) (story : List AnyEvent) (seat : ℕ) (id : AnyId) (index : ℕ)
        (reply : AnyReply) (batch : List ℕ) → IsLegal opening story →
        Contains story (record { seat = seat; kind = Decide id index reply batch }) →
        index ≤ last_index opening story }
    ensures swaps { (opening : AnyOpening) (story : List AnyEvent) (seat index : ℕ) → IsLegal opening story →
        Contains story (record { seat = seat; kind = Swap index }) → index ≤ last_index opening story }
    ensures flushes { (opening : AnyOpening) (story : List AnyEvent) (seat index moment : ℕ) →
        IsLegal opening story → Contains story (record { seat = seat; kind = Flushed index moment }) →
        index ≤ last_index opening story }
{}

/// What is pending was asked. In a legal story one thing alone is asked under an id of a line: that is what is pending
/// under it, and what a Decide of it decides.
pub fn a_line_asks_once()
    ensures asked { (id : AnyId) (request : AnyRequest) (story : List AnyEvent) → pending id story ≡ Some request →
        (seat : ℕ) × Contains story (record { seat = seat; kind = Ask id request }) }
    ensures once { (opening : AnyOpening) (id : AnyId) (story : List AnyEvent) (seat other_seat : ℕ)
        (request other : AnyRequest) → is_script id ≡ true → IsLegal opening story →
        Contains story (record { seat = seat; kind = Ask id request }) →
        Contains story (record { seat = other_seat; kind = Ask id other }) → request ≡ other }
    ensures pends { (opening : AnyOpening) (id : AnyId) (story : List AnyEvent) (place seat : ℕ)
        (request other : AnyRequest) → is_script id ≡ true → IsLegal opening story →
        slice_get story place ≡ Some (record { seat = seat; kind = Ask id request }) →
        pending id story ≡ Some other → other ≡ request }
    ensures decided { (opening : AnyOpening) (id : AnyId) (story : List AnyEvent) (place seat : ℕ)
        (request : AnyRequest) (later decider index : ℕ) (reply : AnyReply) (batch : List ℕ) →
        is_script id ≡ true → IsLegal opening story →
        slice_get story place ≡ Some (record { seat = seat; kind = Ask id request }) →
        slice_get story later ≡ Some (record { seat = decider; kind = Decide id index reply batch }) →
        pending id (take later story) ≡ Some request }
{}
