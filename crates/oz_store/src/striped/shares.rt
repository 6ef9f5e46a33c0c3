//! What a namespace has of a stripe, and what requests make of it.

ghost use Rattle.std.specs.Prelude.{◌≡◌, ◌≢◌, ◌↔◌, ℕ};
ghost use Rattle.oz_model.specs.Answers.{Answers, WritesNothing, after};
ghost use Rattle.oz_model.specs.Stripes.{AgreeOn};
ghost use Rattle.oz_names.specs.Names.{stripe_of};
ghost use Rattle.oz_namespace.specs.declared.namespace.Namespace.{Namespace as AnyNamespace};
ghost use Rattle.oz_requests.specs.declared.reply.Reply.{Reply as AnyReply};
ghost use Rattle.oz_requests.specs.declared.request.Request.{Request as AnyRequest};
ghost use Rattle.oz_requests.specs.Names.{volume_in};
ghost use Rattle.oz_rows.specs.RowMaps.{Rows as AnyRows};
ghost use Rattle.oz_sound.specs.StandsFor.{StandsFor};
ghost use Rattle.oz_store.specs.striped.Shares.{IsOfStripe, share_of, HasAllStripes};

/// A namespace has one share of each stripe.
pub fn a_namespace_has_a_share()
    ensures there { (stripe : ℕ) (namespace : AnyNamespace) → IsOfStripe stripe namespace (share_of stripe namespace) }
    ensures one { (stripe : ℕ) (namespace part other : AnyNamespace) →
        IsOfStripe stripe namespace part → IsOfStripe stripe namespace other → part ≡ other }
{}

/// A namespace and its share agree on the stripe, and two that agree on it have the same share.
pub fn a_share_agrees_on_its_stripe()
    ensures agree { (stripe : ℕ) (namespace part : AnyNamespace) →
        HasAllStripes namespace → IsOfStripe stripe namespace part → AgreeOn stripe namespace part }
    ensures same { (stripe : ℕ) (namespace other part : AnyNamespace) →
        AgreeOn stripe namespace other → IsOfStripe stripe namespace part → IsOfStripe stripe other part }
{}

/// A namespace has the numbers of all stripes where rows stand for it, and so has a share; a request leaves them all.
pub fn all_stripes_have_numbers()
    ensures standing { (rows : AnyRows) (namespace : AnyNamespace) →
        StandsFor rows namespace → HasAllStripes namespace }
    ensures share { (stripe : ℕ) (namespace part : AnyNamespace) →
        IsOfStripe stripe namespace part → HasAllStripes part }
    ensures left { (namespace : AnyNamespace) (request : AnyRequest) (reply : AnyReply) →
        HasAllStripes namespace → HasAllStripes (after namespace request reply) }
{}

/// To a request of its stripe a share is as the whole namespace: it has the same replies, what they leave of it is the
/// share of what they leave of the whole, and where one stays as it was, so does the other.
pub fn a_share_answers_as_the_whole()
    ensures replies { (stripe : ℕ) (namespace part : AnyNamespace) (request : AnyRequest) (reply : AnyReply) →
        stripe_of (volume_in request) ≡ stripe → IsOfStripe stripe namespace part →
        Answers namespace request reply ↔ Answers part request reply }
    ensures left { (stripe : ℕ) (namespace part : AnyNamespace) (request : AnyRequest) (reply : AnyReply) →
        stripe_of (volume_in request) ≡ stripe → IsOfStripe stripe namespace part → HasAllStripes namespace →
        IsOfStripe stripe (after namespace request reply) (after part request reply) }
    ensures stays { (stripe : ℕ) (namespace part : AnyNamespace) (request : AnyRequest) (reply : AnyReply) →
        stripe_of (volume_in request) ≡ stripe → IsOfStripe stripe namespace part → HasAllStripes namespace →
        (after namespace request reply ≡ namespace) ↔ (after part request reply ≡ part) }
    ensures writes_nothing { (stripe : ℕ) (namespace part : AnyNamespace) (request : AnyRequest) (reply : AnyReply) →
        stripe_of (volume_in request) ≡ stripe → IsOfStripe stripe namespace part → HasAllStripes namespace →
        WritesNothing namespace request reply ↔ WritesNothing part request reply }
{}

/// A request of another stripe leaves a share as it was.
pub fn other_stripes_leave_a_share()
    ensures { (stripe : ℕ) (namespace part : AnyNamespace) (request : AnyRequest) (reply : AnyReply) →
        stripe ≢ stripe_of (volume_in request) → IsOfStripe stripe namespace part →
        IsOfStripe stripe (after namespace request reply) part }
{}

/// Where the same rows stand for a share and for what a request leaves of it, it leaves it as it was.
pub fn rows_that_stand_for_both()
    ensures { (rows : AnyRows) (part : AnyNamespace) (request : AnyRequest) (reply : AnyReply) →
        StandsFor rows part → StandsFor rows (after part request reply) → after part request reply ≡ part }
{}
