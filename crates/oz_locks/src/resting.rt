//! A stripe as it lies behind its lock.

ghost use Rattle.std.specs.Option.{option_map};
ghost use Rattle.std.specs.Prelude.{◌≡◌, None, Some, IfSome};
ghost use Rattle.oz_locks.specs.Stripe.{IsAtRest};

use crate::loaded::Loaded;
use crate::stripe::Stripe;
use oz_core::Event;
use oz_turn::{Ring, Told};
use std::marker::Model;

/// A stripe that nobody works on, or none while somebody does. Of one that lies here it holds that its seat doesn't have the
/// value, that what it knows to be flushed was brought down, where the disks agree, and what is kept of each.
#[derive(Drop)]
pub struct Resting<T: Told<Entry = Event>, L: Loaded, R: Ring> {
    inside: Option<Stripe<T, L, R>>,
}

impl<T: Told<Entry = Event>, L: Loaded, R: Ring> Model for Resting<T, L, R> {
    ghost use Rattle.std.specs.Prelude.{Option, IfSome};
    ghost use Rattle.oz_locks.specs.Stripe.{StripeView, IsAtRest};

    ghost Value = { Option (StripeView T) };

    ghost view = { λ r. r.inside };

    ghost invariant = { λ r. IfSome r.inside (λ stripe. IsAtRest L.last_index L.coherent L.keeps stripe) };
}

impl<T: Told<Entry = Event>, L: Loaded, R: Ring> Resting<T, L, R> {
    /// It takes no memory.
    pub fn of(stripe: Stripe<T, L, R>) -> Resting<T, L, R>
        requires { IsAtRest L.last_index L.coherent L.keeps stripe }
        ensures { result ≡ Some stripe }
    {
        Resting {
            inside: Some(stripe),
        }
    }

    /// The number of the stripe inside.
    pub fn number(&self) -> Option<u8>
        ensures { result ≡ option_map (λ stripe. stripe.number) self.now }
    {
        Some(self.inside.as_ref()?.number())
    }

    /// The stripe, for who holds the lock, who puts it back before letting the lock go.
    pub fn take_out(&mut self) -> Option<Stripe<T, L, R>>
        ensures stripe { result ≡ self.old }
        ensures none { self.new ≡ None }
        ensures rests { IfSome result (λ stripe. IsAtRest L.last_index L.coherent L.keeps stripe) }
    {
        self.inside.take()
    }

    /// The stripe lies here again. It takes no memory.
    pub fn put_back(&mut self, stripe: Stripe<T, L, R>)
        requires rests { IsAtRest L.last_index L.coherent L.keeps stripe }
        requires none { self.old ≡ None }
        ensures { self.new ≡ Some stripe }
    {
        self.inside = Some(stripe);
    }

    pub fn into_stripe(self) -> Option<Stripe<T, L, R>>
        ensures stripe { result ≡ self }
        ensures rests { IfSome result (λ stripe. IsAtRest L.last_index L.coherent L.keeps stripe) }
    {
        let Resting { inside } = self;
        inside
    }
}
