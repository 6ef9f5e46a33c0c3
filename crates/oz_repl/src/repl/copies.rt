//! The copies that a container's members lack.

ghost use Rattle.std.specs.Prelude.{◌≡◌, ◌≢◌, ◌↔◌, ◌<◌, ◌++◌, true, Contains, AllPairs, IfOk, OnOk};
ghost use Rattle.oz_core.specs.Law.{may_be_copied};
ghost use Rattle.oz_repl.specs.repl.View.{AreRising, IsDueCopy, held_at};
ghost use Rattle.oz_repl.specs.repl.Listed.{copies, copies_from, copies_of, copy_to, is_among, is_source_at};
ghost use Rattle.oz_repl.specs.declared.repl.view.CopyOrder.{CopyOrder as AnyOrder};

use super::holders::{has, is_holder};
use super::view::{CopyOrder, View};
use oz_container::State;
use oz_fields::OutOfMemory;
use std::alloc::Global;

/// The copies that are due of a container, in no order that a caller may rest on.
///
/// Errors: where there is no memory for the list.
pub fn plan(alloc: Global, view: &View) -> Result<Vec<CopyOrder>, OutOfMemory>
    requires { AreRising view.now }
    ensures exact { IfOk result (λ orders. (order : AnyOrder) → Contains orders.items order ↔ IsDueCopy view.now order) }
    ensures once { AllPairs ◌≢◌ view.now.members → IfOk result (λ orders. AllPairs ◌≢◌ orders.items) }
{
    let mut orders = Vec::new(alloc);
    if is_copied(view.state) {
        push_copies(view, &mut orders)?;
    }
    Ok(orders)
}

fn is_copied(state: State) -> bool
    ensures { result ≡ may_be_copied state }
{
    matches!(state, State::QuasiClosed | State::Closed)
}

fn push_copies(view: &View, orders: &mut Vec<CopyOrder>) -> Result<(), OutOfMemory>
    requires { AreRising view.now }
    ensures { OnOk result (orders.new.items ≡ orders.old.items ++ copies view.now) }
{
    push_copies_from(view, 0, orders)?;
    push_copies_from(view, 1, orders)?;
    push_copies_from(view, 2, orders)
}

/// The copies of which the member at this place is the source.
fn push_copies_from(
    view: &View,
    from: usize,
    orders: &mut Vec<CopyOrder>,
) -> Result<(), OutOfMemory>
    requires rising { AreRising view.now }
    requires within { from < 3 }
    ensures { OnOk result (orders.new.items ≡ orders.old.items ++ copies_from view.now from) }
{
    for local in view.held[from].items() {
        if is_source(view, from, *local) {
            push_copies_of(view, from, *local, orders)?;
        }
    }
    Ok(())
}

/// Whether a member that holds the block is the first that is up and does, and the block isn't being deleted.
fn is_source(view: &View, from: usize, local: u64) -> bool
    requires rising { AreRising view.now }
    requires within { from < 3 }
    requires held { is_among (held_at view.now from) local ≡ true }
    ensures { result ≡ is_source_at view.now local from }
{
    if has(view.logged.items(), local) {
        return false;
    }
    for place in 0..from {
        if is_holder(view, place, local) {
            return false;
        }
    }
    view.up[from]
}

fn push_copies_of(
    view: &View,
    from: usize,
    local: u64,
    orders: &mut Vec<CopyOrder>,
) -> Result<(), OutOfMemory>
    requires rising { AreRising view.now }
    requires within { from < 3 }
    requires held { is_among (held_at view.now from) local ≡ true }
    ensures { OnOk result (orders.new.items ≡ orders.old.items ++ copies_of view.now from local) }
{
    push_copy_to(view, from, 0, local, orders)?;
    push_copy_to(view, from, 1, local, orders)?;
    push_copy_to(view, from, 2, local, orders)
}

/// The copy to a member from one that holds the block, where it is up and lacks it.
fn push_copy_to(
    view: &View,
    from: usize,
    to: usize,
    local: u64,
    orders: &mut Vec<CopyOrder>,
) -> Result<(), OutOfMemory>
    requires rising { AreRising view.now }
    requires source { from < 3 }
    requires target { to < 3 }
    requires held { is_among (held_at view.now from) local ≡ true }
    ensures { OnOk result (orders.new.items ≡ orders.old.items ++ copy_to view.now from local to) }
{
    if to == from {
        return Ok(());
    }
    if view.up[to] && !has(view.held[to].items(), local) {
        orders.push(CopyOrder {
            source: view.members[from],
            target: view.members[to],
            local,
        })?;
    }
    Ok(())
}
