//! The ordered map, with keys that come in rising, falling and mixed.

use oz_sorted::{OutOfMemory, SortedMap};
use std::alloc::Global;
use std::process::Abort;
use std::test::Fail;

/// How many keys there are: a prime number, so that the multiples of each step go through all of them.
const MANY: u64 = 20_011;

/// Every so manyeth key stays.
const KEPT: u64 = 16;

fn holds(rt: &impl Abort, it: bool, what: &str) {
    assert!(rt; it, "{what}");
}

fn key_at(step: u64, turn: u64) -> u64 {
    turn.wrapping_mul(step) % MANY
}

/// All keys come in, where those that stayed have a value already.
fn come_in(
    rt: &impl Abort,
    alloc: Global,
    map: &mut SortedMap<u64, u64>,
    step: u64,
    kept: bool,
) -> Result<(), OutOfMemory> {
    for turn in 0..MANY {
        let key = key_at(step, turn);
        map.reserve(alloc, 1)?;
        let old = map.insert(key, key);
        holds(rt, old.is_some() == (kept && key % KEPT == 0), "in");
    }
    Ok(())
}

/// Most keys go again.
fn go_out(rt: &impl Abort, map: &mut SortedMap<u64, u64>, step: u64) {
    for turn in 0..MANY {
        let key = key_at(step, turn);
        if key % KEPT != 0 {
            holds(rt, map.remove(&key) == Some((key, key)), "out");
        }
    }
}

/// The keys are those that stand so far apart, from the first to the last.
fn walk(rt: &impl Abort, map: &SortedMap<u64, u64>, apart: u64) {
    let mut found = map.first();
    let mut wanted = 0u64;
    for _ in 0..map.len() {
        holds(rt, found == Some((&wanted, &wanted)), "the next");
        found = map.next(&wanted);
        wanted = wanted.wrapping_add(apart);
    }
    holds(rt, found.is_none() && wanted >= MANY, "the last");
    holds(rt, map.count(&0, &MANY) == map.len(), "so many");
}

/// Many keys come in, most go, and come in again.
fn play(rt: &impl Abort, alloc: Global, step: u64) -> Result<(), OutOfMemory> {
    let mut map = SortedMap::new(alloc);
    come_in(rt, alloc, &mut map, step, false)?;
    walk(rt, &map, 1);
    go_out(rt, &mut map, step);
    walk(rt, &map, KEPT);
    come_in(rt, alloc, &mut map, step, true)?;
    walk(rt, &map, 1);
    Ok(())
}

#[test]
fn keys_stand_in_their_order_however_they_come(rt: HostRuntime) -> Result<(), Fail> {
    for step in [1, MANY - 1, 7_919] {
        play(&rt, rt.alloc(), step)?;
    }
    Ok(())
}

#[test]
fn a_value_is_replaced_without_room(rt: HostRuntime) -> Result<(), Fail> {
    let mut map = SortedMap::new(rt.alloc());
    map.reserve(rt.alloc(), 1)?;
    map.insert(7u64, 1u64);
    holds(&rt, map.replace(&7, 2) == Ok(1), "one that is there");
    holds(&rt, map.replace(&8, 3) == Err(3), "none");
    holds(&rt, map.get(&7) == Some(&2) && map.len() == 1, "replaced");
    Ok(())
}
