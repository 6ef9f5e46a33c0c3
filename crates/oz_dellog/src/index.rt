//! The numbers of the transactions, container by container, so that a look-up by container doesn't walk the whole log.
ghost use Rattle.std.specs.Prelude.{◌≡◌, ℕ, OnOk, OnErr};
ghost use Rattle.oz_dellog.specs.Index.{listed, Lists, Unlists, without};

use oz_fields::OutOfMemory;
use std::alloc::Global;
use std::collections::BTreeMap;

pub(crate) fn numbers_of(index: &BTreeMap<u64, Vec<u64>>, container: u64) -> &[u64]
    ensures { result.now ≡ listed index.now container }
{
    match index.get(&container) {
        Some(numbers) => numbers.as_slice(),
        None => &[],
    }
}

/// Puts a number behind those of the container. Where memory runs out no container's numbers change.
pub(crate) fn list(
    index: &mut BTreeMap<u64, Vec<u64>>,
    alloc: Global,
    container: u64,
    number: u64,
) -> Result<(), OutOfMemory>
    ensures ok { OnOk result (Lists index.old index.new container number) }
    ensures err { OnErr result ((c : ℕ) → listed index.new c ≡ listed index.old c) }
{
    if let Some(numbers) = index.get_mut(&container) {
        numbers.push(number)?;
        return Ok(());
    }
    let mut numbers = Vec::new(alloc);
    numbers.push(number)?;
    index.insert(container, numbers)?;
    Ok(())
}

/// Takes a number away from those of the container, and the container's entry with the last of them.
pub(crate) fn unlist(index: &mut BTreeMap<u64, Vec<u64>>, container: u64, number: u64)
    ensures { Unlists index.old index.new container number }
{
    if let Some(numbers) = index.get_mut(&container) {
        take_away(numbers, number);
        if numbers.is_empty() {
            index.remove(&container);
        }
    }
}

fn take_away(numbers: &mut Vec<u64>, number: u64)
    ensures { numbers.new.items ≡ without number numbers.old.items }
{
    numbers.retain(|n| *n != number);
}
