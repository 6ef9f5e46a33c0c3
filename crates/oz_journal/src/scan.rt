//! The records of a disk's bytes.

ghost use Rattle.std.specs.Prelude.{◌≡◌, ◌≤◌, ◌<◌, ℕ, length, IfOk, IsErrOf};
ghost use Rattle.oz_journal.specs.Body.{bodies_in, places_in};
ghost use Rattle.oz_journal.specs.Grammar.{AreRecords, IsDamagedAt, records, places};

use crate::frame::{OPEN, body_behind};
use crate::{Body, LoadFault};
use oz_fields::List;
use std::alloc::Global;

/// The bodies of a journal's bytes, and the place of the closed gate behind them.
pub fn scan(alloc: Global, bytes: &[u8]) -> Result<(Vec<Body>, u64), LoadFault>
    requires { 2 ≤ length bytes.now }
    ensures bodies { IfOk result (λ found. AreRecords bytes.now (bodies_in found.0.items)) }
    ensures places { IfOk result (λ found.
        places_in found.0.items ≡ places 0 (bodies_in found.0.items)) }
    ensures gate { IfOk result (λ found.
        found.1 ≡ length (records (bodies_in found.0.items))) }
    ensures within { IfOk result (λ found. found.1 < length bytes.now) }
    ensures damaged { (offset : ℕ) → IsErrOf result (LoadFault.Damaged offset) →
        IsDamagedAt bytes.now offset }
    ensures no_other { IsErrOf result LoadFault.Disk → ⊥ }
{
    let mut bodies = Vec::new(alloc);
    let mut rest = bytes;
    'records: while !rest.is_empty() && rest[0] == OPEN {
        let gate = (bytes.len() - rest.len()) as u64;
        let Some((body, after)) = body_behind(&rest[1..]) else {
            return Err(LoadFault::Damaged { offset: gate });
        };
        bodies.push(Body {
            at: gate + 5,
            bytes: List::of(Vec::from_slice(alloc, body)?),
        })?;
        rest = after;
    }
    let gate = (bytes.len() - rest.len()) as u64;
    if rest.is_empty() {
        return Err(LoadFault::Damaged { offset: gate });
    }
    Ok((bodies, gate))
}
