//! What follows from the definitions, for whoever stands on them.

ghost use Rattle.std.specs.Prelude.{◌≡◌, ◌≢◌, ◌⊎◌, ℕ, List, Some};
ghost use Rattle.std.specs.List.{Contains};
ghost use Rattle.oz_fields.specs.declared.block.Block.{Block as AnyBlock};
ghost use Rattle.oz_names.specs.declared.code.Code.{Code as AnyCode};
ghost use Rattle.oz_names.specs.Names.{stripe_of};
ghost use Rattle.oz_namespace.specs.declared.namespace.Namespace.{Namespace as AnyNamespace};
ghost use Rattle.oz_namespace.specs.Namespace.{buckets_of};
ghost use Rattle.oz_requests.specs.declared.reply.Reply.{Reply as AnyReply};
ghost use Rattle.oz_requests.specs.declared.request.Request.{Request as AnyRequest};
ghost use Rattle.oz_requests.specs.Families.{family_of};
ghost use Rattle.oz_requests.specs.Names.{name_fault, volume_in};
ghost use Rattle.oz_model.specs.Answers.{Answers, after};
ghost use Rattle.oz_model.specs.Buckets.{granted_by};
ghost use Rattle.oz_model.specs.Reach.{IsReached};
ghost use Rattle.oz_model.specs.Stripes.{AgreeOn};

use oz_requests::{Family, Reply};

/// A reply and what it leaves rest on the request's own stripe alone, and nothing changes on other stripes, nor in other
/// volumes.
pub fn a_reply_rests_on_its_stripe()
    ensures reply { (one other : AnyNamespace) (request : AnyRequest) (reply : AnyReply) →
        AgreeOn (stripe_of (volume_in request)) one other → Answers one request reply → Answers other request reply }
    ensures left { (one other : AnyNamespace) (request : AnyRequest) (reply : AnyReply) →
        AgreeOn (stripe_of (volume_in request)) one other →
        AgreeOn (stripe_of (volume_in request)) (after one request reply) (after other request reply) }
    ensures elsewhere { (namespace : AnyNamespace) (request : AnyRequest) (reply : AnyReply) (stripe : ℕ) →
        stripe ≢ stripe_of (volume_in request) → AgreeOn stripe (after namespace request reply) namespace }
    ensures others { (namespace : AnyNamespace) (request : AnyRequest) (reply : AnyReply) (volume : List ℕ) →
        volume ≢ volume_in request →
        buckets_of (after namespace request reply) volume ≡ buckets_of namespace volume }
{}

/// A refusal leaves all as it was, and so does a service request, which is done.
pub fn a_refusal_or_a_service_request_changes_nothing()
    ensures refusal { (namespace : AnyNamespace) (request : AnyRequest) (code : AnyCode) →
        after namespace request (Reply.Code code) ≡ namespace }
    ensures service { (namespace : AnyNamespace) (request : AnyRequest) (reply : AnyReply) →
        family_of request ≡ Family.Service → after namespace request reply ≡ namespace }
    ensures done { (namespace : AnyNamespace) (request : AnyRequest) (reply : AnyReply) →
        family_of request ≡ Family.Service → Answers namespace request reply → reply ≡ Reply.Done }
{}

/// A request whose names are against the rules is refused for the first of them, whatever else may be said against it.
pub fn names_are_tested_first()
    ensures { (namespace : AnyNamespace) (request : AnyRequest) (reply : AnyReply) (code : AnyCode) →
        name_fault request ≡ Some code → Answers namespace request reply → reply ≡ Reply.Code code }
{}

/// No block comes into reach but the one that a request grants.
pub fn only_a_granted_block_comes_into_reach()
    ensures { (namespace : AnyNamespace) (request : AnyRequest) (reply : AnyReply) (block : AnyBlock) →
        Answers namespace request reply → IsReached (after namespace request reply) block →
        IsReached namespace block ⊎ Contains (granted_by reply) block }
{}
