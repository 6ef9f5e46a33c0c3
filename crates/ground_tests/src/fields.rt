//! Fields, names and lists by hand.

use oz_fields::{List, Name, OutOfMemory, Reader, put_text, put_u8, put_u16, put_u32, put_u64};
use std::alloc::Global;
use std::cmp::Ordering;
use std::process::Abort;
use std::test::Fail;

fn holds(rt: &impl Abort, it: bool, what: &str) {
    assert!(rt; it, "{what}");
}

/// A number of each kind and a text.
fn one_of_each(alloc: Global) -> Result<Vec<u8>, OutOfMemory> {
    let mut out = Vec::new(alloc);
    put_u8(alloc, &mut out, 0x61)?;
    put_u16(alloc, &mut out, 0x6263)?;
    put_u32(alloc, &mut out, 0x6465_6667)?;
    put_u64(alloc, &mut out, 0x6869_6a6b_6c6d_6e6f)?;
    put_text(alloc, &mut out, b"pq")?;
    Ok(out)
}

#[test]
fn fields_stand_one_behind_another(rt: HostRuntime) -> Result<(), Fail> {
    let out = one_of_each(rt.alloc())?;
    let wanted = b"abcdefghijklmno\0\x02pq";
    holds(
        &rt,
        out.as_slice() == wanted.as_slice(),
        "the highest byte first",
    );
    let mut reader = Reader::new(&out);
    holds(&rt, reader.u8() == Some(0x61), "one byte");
    holds(&rt, reader.u16() == Some(0x6263), "two");
    holds(&rt, reader.u32() == Some(0x6465_6667), "four");
    holds(&rt, reader.u64() == Some(0x6869_6a6b_6c6d_6e6f), "eight");
    holds(&rt, reader.u64().is_none(), "eight more are too many");
    holds(&rt, reader.text() == Some(b"pq".as_slice()), "a text");
    holds(&rt, reader.text().is_none(), "no further one");
    holds(&rt, reader.at() == out.len(), "all");
    Ok(())
}

#[test]
fn the_longest_text_is_read_back(rt: HostRuntime) -> Result<(), Fail> {
    let text = vec![in rt.alloc(); 5u8; 65_535]?;
    assert!(rt; text.len() == 65_535);
    let mut out = Vec::new(rt.alloc());
    put_text(rt.alloc(), &mut out, &text)?;
    holds(
        &rt,
        out.starts_with(&[255, 255, 5]),
        "its length comes first",
    );
    holds(&rt, Reader::new(&out).text() == Some(text.as_slice()), "it");
    Ok(())
}

#[test]
fn names_stand_in_the_order_of_their_bytes(rt: HostRuntime) -> Result<(), Fail> {
    for (left, right, order) in [
        ("", "a", Ordering::Less),
        ("ab", "ab", Ordering::Equal),
        ("ab", "b", Ordering::Less),
        ("ab", "a", Ordering::Greater),
        ("\u{e4}", "z", Ordering::Greater),
    ] {
        let first = Name::copy(rt.alloc(), left.as_bytes())?;
        let second = Name::copy(rt.alloc(), right.as_bytes())?;
        holds(&rt, first.cmp(&second) == order, left);
        holds(&rt, (first == second) == order.is_eq(), right);
    }
    Ok(())
}

#[test]
fn items_are_changed_in_their_places(rt: HostRuntime) -> Result<(), Fail> {
    let mut list = List::of([4u8, 5, 6, 7].to_vec(rt.alloc())?);
    holds(&rt, list.remove(1) == 5, "the rest moves up");
    holds(&rt, list.replace(0, 8) == 4, "another in its place");
    *list.item_mut(1) = 9;
    holds(&rt, list.pop() == Some(7), "the last one");
    holds(&rt, list.items() == [8, 9].as_slice(), "what is left");
    Ok(())
}
