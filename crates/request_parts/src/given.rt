//! Rows that no request makes.

use crate::said::cannot;
use crate::store::Store;
use crate::wrong::Wrong;
use case_files::Statement;
use oz_fields::List;
use oz_names::STRIPES;
use oz_rows::{Change, Row, RowKey};
use std::alloc::{AllocError, Global};

/// `stripes NUMBER`: so many numbers were drawn in each stripe, of the rows and of the namespace.
pub fn give_stripes(alloc: Global, store: &mut Store, statement: &Statement) -> Result<(), Wrong> {
    match statement.number(1) {
        Some(number) => Ok(enter_stripes(alloc, store, number)?),
        None => cannot(&mut store.why, "stripes have a number"),
    }
}

fn enter_stripes(alloc: Global, store: &mut Store, number: u64) -> Result<(), AllocError> {
    let mut changes = Vec::new(alloc);
    for stripe in 0..STRIPES {
        changes.push(Change {
            key: RowKey::Stripe { stripe },
            row: Some(Row::Stripe { number }),
        })?;
    }
    for drawn in store.namespace.stripes.iter_mut() {
        *drawn = number;
    }
    store.enter(alloc, List::of(changes))
}
