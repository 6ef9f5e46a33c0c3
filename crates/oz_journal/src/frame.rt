//! The bytes of one record, and how it is read back.

ghost use Rattle.std.specs.Prelude.{◌≡◌, ◌<◌, ◌≤◌, ◌^◌, [], ◌∷◌, ◌++◌, length, MatchOption};
ghost use Rattle.oz_journal.specs.Grammar.{sized, IsCutOff};
ghost use Rattle.oz_journal.specs.Journal.{body_of};

use byteorder::{BigEndian, ByteOrder};

/// The gate of a record.
pub const OPEN: u8 = 1;

/// The gate behind the last record.
pub const CLOSED: u8 = 0;

/// The most bytes that a body has in its frame: 2^32 - 1, four before them and one behind.
pub const LONGEST_FRAME: usize = 4_294_967_300;

/// Puts the body's length before it, and a closed gate behind it.
pub fn frame(framed: &mut [u8])
    requires least { 5 ≤ length framed.old }
    requires most { length framed.old ≤ LONGEST_FRAME }
    ensures { framed.new ≡ sized (body_of framed.old) ++ 0 ∷ [] }
{
    let last = framed.len() - 1;
    BigEndian::write_u32(framed, (last - 4) as u32);
    framed[last] = CLOSED;
}

/// The body behind an open gate, and what follows it. None where these bytes end before it does.
pub fn body_behind(behind: &[u8]) -> Option<(&[u8], &[u8])>
    ensures { MatchOption result (IsCutOff behind.now)
        (λ found. (length found.0.now < 2 ^ 32) × (behind.now ≡ sized found.0.now ++ found.1.now)) }
{
    if behind.len() < 4 {
        return None;
    }
    let (size, rest) = behind.split_at(4);
    let size = BigEndian::read_u32(size) as usize;
    if rest.len() < size {
        return None;
    }
    Some(rest.split_at(size))
}
