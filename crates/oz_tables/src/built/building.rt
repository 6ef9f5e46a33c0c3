//! Tables from the bodies of a journal.

ghost use Rattle.std.specs.Prelude.{◌≡◌, ◌<◌, ℕ, IfOk, IfErr};
ghost use Rattle.oz_rows.specs.declared.operation.TheConstants.{END_OF_INDEXES};
ghost use Rattle.oz_journal.specs.Body.{bodies_in};
ghost use Rattle.oz_effects.specs.Build.{Builds, FailsAt};
ghost use Rattle.oz_tables.specs.built.Steps.{fault_in};

use crate::Tables;
use crate::built::body::follow;
use crate::built::fault::BuildFault;
use oz_journal::Body;
use oz_rows::{Head, LAYOUT, ReadFault};
use std::alloc::Global;

/// The tables that the bodies of a manager's journal make, one after another.
pub fn build(alloc: Global, bodies: &[Body]) -> Result<Tables, BuildFault>
    ensures built { IfOk result (λ tables. Builds (bodies_in bodies.now) tables.rows tables.last_index) }
    ensures index { IfOk result (λ tables. tables.last_index < END_OF_INDEXES) }
    ensures damaged { IfErr result (λ fault. (body at : ℕ) → fault ≡ BuildFault.Damaged body at
        → FailsAt (bodies_in bodies.now) body at) }
{
    let mut tables = Tables::new(alloc);
    let mut head = Head {
        layout: LAYOUT,
        index: 0,
    };
    for (count, body) in bodies.iter().enumerate() {
        let bytes = body.bytes.items();
        head = match follow(alloc, &mut tables, head, bytes) {
            Ok(head) => head,
            Err(fault) => return Err(fault_of(fault, count, bytes)),
        };
    }
    Ok(tables)
}

fn fault_of(fault: ReadFault, body: usize, bytes: &[u8]) -> BuildFault
    ensures { result ≡ fault_in body bytes.now fault }
{
    match fault {
        ReadFault::Left(left) => BuildFault::Damaged {
            body,
            at: bytes.len().saturating_sub(left),
        },
        ReadFault::OutOfMemory => BuildFault::OutOfMemory,
    }
}
