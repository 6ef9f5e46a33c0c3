//! A buffer that the longest batches fill.

ghost use Rattle.std.specs.Prelude.{◌≡◌, ◌≤◌, IfOk, vec_len};

use crate::book::{Book, decide_of, holds};
use oz_buffer::{LONGEST_BATCH, Reserve, a_reserve_is_room_enough};
use std::alloc::{AllocError, Global};
use std::test::Fail;

/// A batch of the most bytes that one has.
fn longest(alloc: Global) -> Result<Vec<u8>, AllocError>
    ensures { IfOk result (λ batch. vec_len batch ≡ 67108864) }
{
    vec![in alloc; 7; LONGEST_BATCH]
}

/// Room for the longest batch, and the Decide with it.
fn decide(alloc: Global, ledger: &mut Book, index: u64) -> Result<(), Fail> {
    a_reserve_is_room_enough();
    let batch = longest(alloc)?;
    match ledger.reserve(alloc, 20, batch.len() as u32) {
        Ok(()) => {
            ledger.decide(decide_of(20, index, batch));
            Ok(())
        }
        Err(_) => Err("room".into()),
    }
}

#[test]
fn sixteen_of_the_longest_batches_fill_a_buffer(rt: HostRuntime) -> Result<(), Fail> {
    let mut ledger = Book::over(rt.alloc(), 0);
    for index in 1..=16u64 {
        decide(rt.alloc(), &mut ledger, index)?;
    }
    let later = Reserve::Later {
        held: 1_073_741_824,
        asked: 1,
    };
    let refused = ledger.reserve(rt.alloc(), 20, 1);
    holds(&rt, refused == Err(later), "no byte more");
    holds(&rt, ledger.last_index() == 16, "all are decided");
    Ok(())
}
