//! A list of epochs, by hand and with thousands of entries.

ghost use Rattle.std.specs.Prelude.{◌≡◌, ◌<◌, []};
ghost use Rattle.oz_epochs.specs.Epochs.{EndsBy};

use oz_epochs::{EpochList, OutOfMemory, Steps};
use oz_fields::Name;
use std::alloc::Global;
use std::marker::Brand;
use std::process::Abort;
use std::rc::Rc;
use std::sync::ledger::{Blank, Ledger};
use std::test::Fail;

/// A key that owns memory. How often `alive` is shared says how many keys there are.
#[derive(Drop)]
struct Key {
    name: Name,
    alive: Rc<u64>,
}

/// The epoch of all entries of a long list.
const EPOCH: u64 = 7;

/// How many entries it has.
const MANY: usize = 5_000;

fn holds(rt: &impl Abort, it: bool, what: &str) {
    assert!(rt; it, "{what}");
}

fn key_of(alloc: Global, number: usize, alive: &Rc<u64>) -> Result<Key, OutOfMemory> {
    Ok(Key {
        name: Name::copy(alloc, &number.to_be_bytes())?,
        alive: alive.clone()?,
    })
}

/// Puts in many entries, with room made for so many at once.
fn fill(
    alloc: Global,
    list: &mut EpochList<Key>,
    alive: &Rc<u64>,
    at_once: usize,
) -> Result<(), OutOfMemory>
    requires some { 0 < at_once }
    requires ends { EndsBy EPOCH list.old.entries }
{
    for number in 0..MANY {
        list.reserve(alloc, at_once)?;
        list.push_back(EPOCH, key_of(alloc, number, alive)?);
    }
    Ok(())
}

/// Takes out the first half of them.
fn take_half<L: Ledger>(rt: &impl Abort, list: &mut EpochList<Key>, steps: &mut Steps<L>) {
    for number in 0..MANY / 2 {
        let name = match list.pop_to(EPOCH, steps) {
            Some((_, key)) => key.name.bytes() == number.to_be_bytes().as_slice(),
            None => false,
        };
        holds(rt, name, "the next key");
    }
}

/// What is taken out is let go, and so is what is left when the list goes.
fn fill_and_take<R: Abort, L: Ledger>(
    rt: &R,
    alloc: Global,
    at_once: usize,
    blank: Blank,
) -> Result<(), Fail>
    requires some { 0 < at_once }
    requires name { blank.name ≡ L.name }
    requires parts { blank.parts ≡ L.parts }
    requires one { 0 < L.parts }
{
    let alive = Rc::new(alloc, 0)?;
    let mut steps = Steps::<L>::start(blank);
    let mut list = EpochList::new(alloc);
    fill(alloc, &mut list, &alive, at_once)?;
    holds(rt, Rc::strong_count(&alive) == 5_001, "all keys");
    take_half(rt, &mut list, &mut steps);
    holds(rt, Rc::strong_count(&alive) == 2_501, "half of them");
    drop(list);
    holds(rt, Rc::strong_count(&alive) == 1, "none");
    Ok(())
}

#[test]
fn thousands_of_entries_find_memory_one_by_one(rt: HostRuntime) -> Result<(), Fail> {
    fill_and_take::<_, Brand>(&rt, rt.alloc(), 1, Blank::new(1))
}

#[test]
fn thousands_of_entries_find_memory_at_once(rt: HostRuntime) -> Result<(), Fail> {
    fill_and_take::<_, Brand>(&rt, rt.alloc(), MANY, Blank::new(1))
}

fn pass_over<R: Abort, L: Ledger>(rt: &R, alloc: Global, blank: Blank) -> Result<(), Fail>
    requires name { blank.name ≡ L.name }
    requires parts { blank.parts ≡ L.parts }
    requires one { 0 < L.parts }
{
    let mut steps = Steps::<L>::start(blank);
    let mut list = EpochList::new(alloc);
    list.reserve(alloc, 3)?;
    holds(rt, list.reserve(alloc, usize::MAX).is_err(), "too many");
    let _a = list.push_back(1, 'a');
    let b = list.push_back(1, 'b');
    let _c = list.push_back(2, 'c');
    holds(rt, list.remove(b) == (1, 'b'), "the second");
    holds(
        rt,
        list.pop_to(1, &mut steps) == Some((1, 'a')),
        "the first",
    );
    holds(
        rt,
        list.pop_to(1, &mut steps) == None,
        "no other of its epoch",
    );
    holds(rt, list.front() == Some((2, &'c')), "the last");
    Ok(())
}

#[test]
fn a_removed_entry_is_passed_over(rt: HostRuntime) -> Result<(), Fail> {
    pass_over::<_, Brand>(&rt, rt.alloc(), Blank::new(1))
}
