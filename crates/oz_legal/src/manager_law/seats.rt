//! The seats of stripes.

ghost use Rattle.std.specs.Prelude.{◌≡◌, ◌↔◌, ◌+◌, IsTrue};
ghost use Rattle.oz_core.specs.Seats.{IsStripeSeat, stripe_seat};

use oz_names::STRIPES;

const FIRST_STRIPE_SEAT: u16 = 20;

pub(crate) fn stripe_seat(stripe: u8) -> u16
    ensures { result ≡ stripe_seat stripe }
{
    FIRST_STRIPE_SEAT + u16::from(stripe)
}

pub(crate) fn is_stripe_seat(seat: u16) -> bool
    ensures { IsTrue result ↔ IsStripeSeat seat }
{
    seat >= FIRST_STRIPE_SEAT && seat - FIRST_STRIPE_SEAT < u16::from(STRIPES)
}
