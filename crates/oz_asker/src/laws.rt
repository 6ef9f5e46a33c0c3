//! What a legal story has of Asks and Decides.

ghost use Rattle.std.specs.Prelude.{◌≡◌, ◌<◌, ◌≤◌, ℕ, [], true, List, Some, length, slice_get};
ghost use Rattle.oz_asker.specs.Asked.{IsAskAt};
ghost use Rattle.oz_asker.specs.Decided.{IsDecidedAsAsked};
ghost use Rattle.oz_buffer.specs.Buffer.{AllFollow, Follows};
ghost use Rattle.oz_buffer.specs.Became.{index_of};
ghost use Rattle.oz_core.specs.declared.event.Event.{Event as AnyEvent};
ghost use Rattle.oz_core.specs.declared.event.EventKind.TheVariants.{Decide};
ghost use Rattle.oz_core.specs.declared.opening.Opening.{Opening as AnyOpening};
ghost use Rattle.oz_core.specs.Asks.{is_script, pending};
ghost use Rattle.oz_core.specs.Law.{IsLegal};
ghost use Rattle.oz_requests.specs.declared.reply.Reply.{Reply as AnyReply};
ghost use Rattle.oz_requests.specs.declared.request.AskId.{AskId as AnyId};
ghost use Rattle.oz_requests.specs.declared.request.Request.{Request as AnyRequest};
ghost use Rattle.oz_turn.specs.Told.{BeginsWith};

use oz_buffer::Opened;

/// A story in which each event follows is legal, where the opening is coherent.
pub fn what_follows_is_legal<O: Opened>()
    ensures { (story : List AnyEvent) → O.coherent
        → AllFollow (Follows O.coherent O.opening O.bytes O.script) [] story → IsLegal O.opening story }
{}

/// In a legal story a script's id is decided as it asked: the request was pending, the stripe of its volume decided it,
/// and the reply is that of one thread. It is decided once: its index is that of the one Decide, and where a beginning of
/// the story has it undecided that stands behind this.
pub fn what_was_decided()
    ensures as_asked { (opening : AnyOpening) (story : List AnyEvent) (id : AnyId) (request : AnyRequest)
        (asked place seat index : ℕ) (reply : AnyReply) (batch : List ℕ) →
        IsLegal opening story → is_script id ≡ true → IsAskAt story asked id request →
        slice_get story place ≡ Some (record { seat = seat; kind = Decide id index reply batch }) →
        IsDecidedAsAsked opening story place seat id request reply }
    ensures once { (opening : AnyOpening) (story : List AnyEvent) (id : AnyId) (place seat index : ℕ) (reply : AnyReply)
        (batch : List ℕ) →
        IsLegal opening story → is_script id ≡ true →
        slice_get story place ≡ Some (record { seat = seat; kind = Decide id index reply batch }) →
        index_of id story ≡ Some index }
    ensures beyond { (opening : AnyOpening) (before story : List AnyEvent) (id : AnyId) (request : AnyRequest)
        (place seat index : ℕ) (reply : AnyReply) (batch : List ℕ) →
        IsLegal opening before → is_script id ≡ true → BeginsWith story before → pending id before ≡ Some request →
        slice_get story place ≡ Some (record { seat = seat; kind = Decide id index reply batch }) →
        length before ≤ place }
{}

/// In a legal story no Decide has a greater index than a later one: where one is stable, so is all that was decided
/// before.
pub fn an_index_covers_those_before()
    ensures { (opening : AnyOpening) (story : List AnyEvent) (place before seat other index lower : ℕ) (id one : AnyId)
        (reply answer : AnyReply) (batch bytes : List ℕ) →
        IsLegal opening story → before < place →
        slice_get story place ≡ Some (record { seat = seat; kind = Decide id index reply batch }) →
        slice_get story before ≡ Some (record { seat = other; kind = Decide one lower answer bytes }) →
        lower ≤ index }
{}
