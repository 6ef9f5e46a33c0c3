//! The lines of one key.

ghost use Rattle.std.specs.Prelude.{◌≡◌, ◌++◌, OnOk};
ghost use Rattle.oz_freon.specs.Script.{after_buckets, client_of, deed_line, done_line, key_text, path_of, put_line, rename_line};

use crate::drawing::{Deed, Drawn};
use std::alloc::{AllocError, Global};

pub fn push_text(out: &mut Vec<u8>, text: &str) -> Result<(), AllocError>
    ensures { OnOk result (out.new.items ≡ out.old.items ++ text.now) }
{
    out.extend_from_slice(text.as_bytes())
}

/// The line that puts the key of this number, and one of what is done with it afterwards.
pub fn push_key(
    alloc: Global,
    out: &mut Vec<u8>,
    number: u16,
    drawn: Drawn,
) -> Result<(), AllocError>
    ensures { OnOk result (out.new.items ≡ out.old.items ++ key_text number drawn.length drawn.deed) }
{
    push_put(alloc, out, number, drawn.length)?;
    push_deed(alloc, out, number, drawn.deed)
}

/// The client of a key, whose digit is the key's number modulo 4.
fn push_client(alloc: Global, out: &mut Vec<u8>, number: u16) -> Result<(), AllocError>
    ensures { OnOk result (out.new.items ≡ out.old.items ++ client_of number) }
{
    push_text(out, &format!(in alloc; "w{} ", number % 4)?)
}

/// Its path, in the bucket of its client.
fn push_path(alloc: Global, out: &mut Vec<u8>, number: u16) -> Result<(), AllocError>
    ensures { OnOk result (out.new.items ≡ out.old.items ++ path_of number) }
{
    push_text(
        out,
        &format!(in alloc; "/freon/bk{}/key-{number}", number % 4)?,
    )
}

/// The line that puts a key with so many bytes.
fn push_put(alloc: Global, out: &mut Vec<u8>, number: u16, length: u32) -> Result<(), AllocError>
    ensures { OnOk result (out.new.items ≡ out.old.items ++ put_line number length) }
{
    push_client(alloc, out, number)?;
    push_text(out, after_buckets(number))?;
    push_text(out, "key put ")?;
    push_path(alloc, out, number)?;
    push_text(out, &format!(in alloc; " fill {number} {length}\n")?)
}

/// The first line of each client waits for the buckets.
fn after_buckets(number: u16) -> &'static str
    ensures { result.now ≡ after_buckets number }
{
    if number < 4 { "after s 5 " } else { "" }
}

/// The line of what is done with a key once it is put, if anything is.
fn push_deed(alloc: Global, out: &mut Vec<u8>, number: u16, deed: Deed) -> Result<(), AllocError>
    ensures { OnOk result (out.new.items ≡ out.old.items ++ deed_line number deed) }
{
    match deed {
        Deed::Delete => push_done(alloc, out, number, "key delete "),
        Deed::Rename => push_rename(alloc, out, number),
        Deed::Get => push_done(alloc, out, number, "key get "),
        Deed::Leave => Ok(()),
    }
}

/// A line that does this with a key.
fn push_done(alloc: Global, out: &mut Vec<u8>, number: u16, words: &str) -> Result<(), AllocError>
    ensures { OnOk result (out.new.items ≡ out.old.items ++ done_line number words.now) }
{
    push_client(alloc, out, number)?;
    push_text(out, words)?;
    push_path(alloc, out, number)?;
    push_text(out, "\n")
}

fn push_rename(alloc: Global, out: &mut Vec<u8>, number: u16) -> Result<(), AllocError>
    ensures { OnOk result (out.new.items ≡ out.old.items ++ rename_line number) }
{
    push_client(alloc, out, number)?;
    push_text(out, "key rename ")?;
    push_path(alloc, out, number)?;
    push_text(out, &format!(in alloc; " old-{number}\n")?)
}
