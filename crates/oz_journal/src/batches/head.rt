//! What stands before batches in a body.

ghost use Rattle.std.specs.Prelude.{◌≡◌, ◌≤◌, length};
ghost use Rattle.oz_journal.specs.batches.Body.{body_bytes};
ghost use Rattle.oz_journal.specs.batches.Waiting.{framed_batches};
ghost use Rattle.oz_journal.specs.Journal.{body_of};

use byteorder::{BigEndian, ByteOrder};
use oz_rows::LAYOUT;

/// How many bytes stand before the batches: four for the length of a body, one for its layout and eight for its index.
pub const FRONT: usize = 13;

/// Puts the head of a body before framed batches.
pub fn put_head(framed: &mut [u8], index: u64)
    requires { 14 ≤ length framed.old }
    ensures body { body_of framed.new ≡ body_bytes index (framed_batches framed.old) }
    ensures size { length framed.new ≡ length framed.old }
{
    framed[4] = LAYOUT;
    BigEndian::write_u64(&mut framed[5..], index);
}
