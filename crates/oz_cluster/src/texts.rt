//! The texts of a run or a transfer whose work didn't begin, or that finds no memory.

ghost use Rattle.std.specs.Prelude.{◌≡◌, IfOk};
ghost use Rattle.std.specs.String.{string_bytes};
ghost use Rattle.oz_cluster.specs.Texts.{disk_text, read_fault, script_fault, too_long, store_text as text_of_fault, words_fault};
ghost use Rattle.oz_running.specs.Printed.{memory_fault};

use oz_fields::OutOfMemory;
use oz_running::{DiskName, StoreFault};
use std::alloc::Global;

/// The words are wrong at this place, counted from 1.
pub fn words_text(alloc: Global, place: usize) -> Result<Vec<u8>, OutOfMemory>
    ensures { IfOk result (λ text. text.items ≡ words_fault place) }
{
    let text = format!(in alloc; "words {place}\n")?;
    Ok(text.into_bytes())
}

/// The script is wrong at this line, counted from 1, or at 0 as a whole. The cause is one word.
pub fn script_text(alloc: Global, line: u64, cause: &str) -> Result<Vec<u8>, OutOfMemory>
    ensures { IfOk result (λ text. text.items ≡ script_fault line cause.now) }
{
    let text = format!(in alloc; "script {line} {cause}\n")?;
    Ok(text.into_bytes())
}

/// The name of a disk.
fn name_text(alloc: Global, name: DiskName) -> Result<String, OutOfMemory>
    ensures { IfOk result (λ text. string_bytes text ≡ disk_text name) }
{
    match name {
        DiskName::Manager => String::from_str(alloc, "manager"),
        DiskName::Scm => String::from_str(alloc, "scm"),
        DiskName::Meta(dn) => format!(in alloc; "dn{dn}.meta"),
        DiskName::Slots(dn) => format!(in alloc; "dn{dn}.slots"),
    }
}

/// Why the disks weren't loaded.
pub fn store_text(alloc: Global, fault: StoreFault) -> Result<Vec<u8>, OutOfMemory>
    ensures { IfOk result (λ text. text.items ≡ text_of_fault fault) }
{
    let text = match fault {
        StoreFault::Disk { name } => {
            let name = name_text(alloc, name)?;
            format!(in alloc; "disk {name} fault\n")?
        }
        StoreFault::Damaged { name, offset } => {
            let name = name_text(alloc, name)?;
            format!(in alloc; "damaged {name} at {offset}\n")?
        }
        StoreFault::Nodes { recorded, given } => format!(in alloc; "nodes {recorded} {given}\n")?,
        StoreFault::Ids { next, seen } => format!(in alloc; "ids {next} {seen}\n")?,
        StoreFault::OutOfMemory => String::from_str(alloc, out_of_memory_text())?,
    };
    Ok(text.into_bytes())
}

/// The script couldn't be read.
pub fn read_fault_text() -> &'static str
    ensures { result.now ≡ read_fault }
{
    "read fault\n"
}

/// The bytes of a put are more than it takes.
pub fn too_long_text() -> &'static str
    ensures { result.now ≡ too_long }
{
    "longer than 1048576 bytes\n"
}

/// No memory was found before the work, or for the report.
pub fn out_of_memory_text() -> &'static str
    ensures { result.now ≡ memory_fault }
{
    "out of memory\n"
}
