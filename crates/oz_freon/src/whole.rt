//! The whole script.

ghost use Rattle.std.specs.Prelude.{◌≡◌, ◌≤◌, ◌++◌, IfOk, OnOk};
ghost use Rattle.oz_freon.specs.Script.{bucket_line, freon_script, key_lines, texts_below};

use crate::drawing::{draw, words_of};
use crate::key::{push_key, push_text};
use crate::snapshots::push_snapshots;
use std::alloc::{AllocError, Global};

/// The most keys that a generated script puts.
pub const MOST_KEYS: u16 = 1_000;

/// Makes the script of generated load of this number, with 1 to 1,000 keys: lines of text, each ended by a line feed.
/// The client `s` makes a volume with four buckets. The clients `w0` to `w3` put the keys in turn, each into its own
/// bucket, and delete, rename or get some of them, as it is drawn from the number. In the end `s` makes a snapshot of
/// each bucket and drains the store.
///
/// Errors: where there is no memory for the text.
pub fn script(alloc: Global, number: u64, count: u16) -> Result<Vec<u8>, AllocError>
    requires some { 1 ≤ count }
    requires few { count ≤ 1000 }
    ensures { IfOk result (λ text. text.items ≡ freon_script number count) }
{
    let mut out = Vec::from_slice(alloc, b"s volume create /freon\n")?;
    push_buckets(alloc, &mut out)?;
    push_keys(alloc, &mut out, number, count)?;
    push_snapshots(alloc, &mut out, number, count)?;
    push_text(&mut out, "s admin drain\n")?;
    Ok(out)
}

#[tactic(auto, unfolding(crate::specs::Script::texts_below))]
fn push_buckets(alloc: Global, out: &mut Vec<u8>) -> Result<(), AllocError>
    ensures { OnOk result (out.new.items ≡ out.old.items ++ texts_below bucket_line 4) }
{
    for bucket in 0..4 {
        push_bucket(alloc, out, bucket)?;
    }
    Ok(())
}

fn push_bucket(alloc: Global, out: &mut Vec<u8>, bucket: u16) -> Result<(), AllocError>
    ensures { OnOk result (out.new.items ≡ out.old.items ++ bucket_line bucket) }
{
    push_text(
        out,
        &format!(in alloc; "s bucket create /freon/bk{bucket}\n")?,
    )
}

#[tactic(auto, unfolding(crate::specs::Script::texts_below, crate::specs::Drawing::words_at))]
fn push_keys(alloc: Global, out: &mut Vec<u8>, number: u64, count: u16) -> Result<(), AllocError>
    ensures { OnOk result (out.new.items ≡ out.old.items ++ texts_below (key_lines number) count) }
{
    let mut words = words_of(number);
    for key in 0..count {
        let drawn = draw(&mut words);
        push_key(alloc, out, key, drawn)?;
    }
    Ok(())
}
