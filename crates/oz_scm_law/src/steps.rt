//! What the steps of a container want of its members.

ghost use Rattle.std.specs.Prelude.{◌≡◌, ◌↔◌, true, All, IsTrue};
ghost use Rattle.std.specs.List.{list_any};
ghost use Rattle.oz_core.specs.Law.{AllowsStep};
ghost use Rattle.oz_core.specs.Nodes.{is_closed};
ghost use Rattle.oz_core.specs.Scm.{is_up};
ghost use Rattle.oz_scm_law.specs.Words.{AgreesWith, AreAgreedInPart, AreAlike, IsAllowedBy, IsEmpty};

use crate::containers::members;
use crate::held::{hold_alike, holds_nothing};
use oz_container::Event as Step;
use oz_core::{Event, Opening};
use oz_law::{is_closed, is_up};

fn is_any_up(story: &[Event], dns: &[usize]) -> bool
    ensures { result ≡ list_any (λ dn. is_up dn story.now) dns.now }
{
    dns.iter().any(|dn| is_up(*dn, story))
}

fn is_closed_or_down(opening: &Opening, story: &[Event], number: u64, dn: usize) -> bool
    ensures { IsTrue result
        ↔ (is_up dn story.now ≡ true → is_closed opening.now story.now dn number ≡ true) }
{
    !is_up(dn, story) || is_closed(opening, story, dn, number)
}

fn are_closed_or_down(opening: &Opening, story: &[Event], number: u64, dns: &[usize]) -> bool
    ensures { IsTrue result
        ↔ All (λ dn. is_up dn story.now ≡ true → is_closed opening.now story.now dn number ≡ true) dns.now }
{
    dns.iter()
        .all(|dn| is_closed_or_down(opening, story, number, *dn))
}

fn are_alike(opening: &Opening, story: &[Event], number: u64, dn: usize, dns: &[usize]) -> bool
    ensures { IsTrue result ↔ All (AreAlike opening.now story.now number dn) dns.now }
{
    dns.iter()
        .all(|other| hold_alike(opening, story, number, dn, *other))
}

/// Up, closed, and with the blocks that these have.
fn agrees(opening: &Opening, story: &[Event], number: u64, dns: &[usize], dn: usize) -> bool
    ensures { IsTrue result ↔ AgreesWith opening.now story.now number dns.now dn }
{
    is_up(dn, story)
        && is_closed(opening, story, dn, number)
        && are_alike(opening, story, number, dn, dns)
}

fn agree(opening: &Opening, story: &[Event], number: u64, dns: &[usize]) -> bool
    ensures { IsTrue result ↔ All (AgreesWith opening.now story.now number dns.now) dns.now }
{
    dns.iter()
        .all(|dn| agrees(opening, story, number, dns, *dn))
}

fn agree_in_part(opening: &Opening, story: &[Event], number: u64, dns: &[usize]) -> bool
    ensures { IsTrue result ↔ AreAgreedInPart opening.now story.now number dns.now }
{
    let up = is_any_up(story, dns);
    let closed = are_closed_or_down(opening, story, number, dns);
    let agreed = agree(opening, story, number, dns);
    up && closed && !agreed
}

fn is_empty(opening: &Opening, story: &[Event], number: u64, dn: usize) -> bool
    ensures { IsTrue result ↔ IsEmpty opening.now story.now number dn }
{
    is_up(dn, story) && holds_nothing(opening, story, number, dn)
}

fn are_empty(opening: &Opening, story: &[Event], number: u64, dns: &[usize]) -> bool
    ensures { IsTrue result ↔ All (IsEmpty opening.now story.now number) dns.now }
{
    for dn in dns {
        if !is_empty(opening, story, number, *dn) {
            return false;
        }
    }
    true
}

fn is_allowed_by(opening: &Opening, story: &[Event], number: u64, by: Step, dns: &[usize]) -> bool
    ensures { IsTrue result ↔ IsAllowedBy opening.now story.now number dns.now by }
{
    match by {
        Step::Finalize | Step::Cleanup => true,
        Step::QuasiClose => agree_in_part(opening, story, number, dns),
        Step::Close | Step::ForceClose => agree(opening, story, number, dns),
        Step::Delete => are_empty(opening, story, number, dns),
    }
}

/// Whether the members are as the step of the container wants.
pub(crate) fn allows_step(opening: &Opening, story: &[Event], number: u64, by: Step) -> bool
    ensures { IsTrue result ↔ AllowsStep opening.now story.now number by }
{
    match members(opening, story, number) {
        None => is_allowed_by(opening, story, number, by, &[]),
        Some(dns) => is_allowed_by(opening, story, number, by, &dns),
    }
}
