//! The chunks that were written of blocks and not put.

ghost use Rattle.std.specs.Prelude.{◌≡◌, ◌≤◌, ◌<◌, ◌==◌, ◌&&◌, ℕ, nat_lt, not, false, length, min, filter, insert, vec_len, vec_capacity, if◌then◌else◌};
ghost use Rattle.oz_chunk.specs.Taken.{is_taken};
ghost use Rattle.oz_chunk.specs.declared.table.TheConstants.{SLOT_SIZE as SLOT_BYTES};
ghost use Rattle.oz_entries.specs.Held.{any_in};
ghost use Rattle.oz_block.specs.shelf.Steps.{is_meant};
ghost use Rattle.oz_block.specs.shelf.Written.{chunks_in, inserted, is_behind, makes};

use oz_chunk::{SLOT_SIZE, Slots};
use oz_entries::Chunk;
use oz_fields::Block;
use oz_world::Disk;

/// A chunk that was written and isn't put: its place among those of its block, from 0, how many bytes it has, and where
/// it stands.
#[derive(Clone, Copy)]
pub struct Written {
    pub block: Block,
    pub place: u8,
    pub size: u32,
    pub chunk: Chunk,
}

/// Which of the chunks that were written: all of a block, or the one in a place of it.
#[derive(Clone, Copy)]
pub(crate) enum Which {
    AllOf { block: Block },
    OneOf { block: Block, place: u8 },
}

impl Which {
    /// Whether a chunk is meant.
    fn means(self, one: &Written) -> bool
        ensures { result ≡ is_meant self one.now }
    {
        match self {
            Which::AllOf { block } => one.block == block,
            Which::OneOf { block, place } => one.block == block && one.place == place,
        }
    }
}

/// Whether the chunks of a block make so many bytes, from the first on.
pub(crate) fn makes(written: &[Written], block: Block, size: u32) -> bool
    ensures { result ≡ makes written.now block size }
{
    let mut place = 0;
    let mut left = size as u64;
    for one in written {
        if one.block != block {
            continue;
        }
        if !fits(one, place, left) {
            return false;
        }
        place += 1;
        left = left.saturating_sub(SLOT_SIZE);
    }
    left == 0
}

/// Whether a chunk stands in this place, where so many bytes are left.
fn fits(one: &Written, place: usize, left: u64) -> bool
    ensures { result ≡ (nat_lt 0 left && (one.now.place == place) && (one.now.size == min left SLOT_BYTES)) }
{
    0 < left && one.place as usize == place && one.size as u64 == left.min(SLOT_SIZE)
}

/// Puts a chunk among those of its block, for which there is room.
pub(crate) fn add(written: &mut Vec<Written>, one: Written)
    requires room { vec_len written.old < vec_capacity written.old }
    ensures added { written.new.items ≡ inserted written.old.items one }
{
    let place = place_for(written, &one);
    written.insert(place, one).unwrap();
}

/// Where a chunk belongs.
fn place_for(written: &[Written], one: &Written) -> usize
    ensures place { insert written.now result one.now ≡ inserted written.now one.now }
    ensures within { result ≤ length written.now }
{
    for (place, other) in written.iter().enumerate() {
        if is_behind(other, one) {
            return place;
        }
    }
    written.len()
}

/// Whether the first is a chunk of the block of the other, in a greater place.
fn is_behind(one: &Written, other: &Written) -> bool
    ensures { result ≡ is_behind one.now other.now }
{
    one.block == other.block && other.place < one.place
}

/// Takes chunks out, and sets their slots free.
pub(crate) fn let_go<D: Disk>(slots: &mut Slots<D>, written: &mut Vec<Written>, which: Which)
    ensures written { written.new.items ≡ filter (λ one. not (is_meant which one)) written.old.items }
    ensures free { (slot : ℕ) → is_taken slots.new.taken slot
        ≡ (if any_in (chunks_in (filter (is_meant which) written.old.items)) slot then false
        else is_taken slots.old.taken slot) }
    ensures disk { slots.new.disk ≡ slots.old.disk }
    ensures size { vec_len written.new ≤ vec_len written.old }
    ensures capacity { vec_capacity written.new ≡ vec_capacity written.old }
{
    free_those(slots, written, which);
    take_out(written, which);
}

/// Takes chunks out. Their slots stay taken.
pub(crate) fn take_out(written: &mut Vec<Written>, which: Which)
    ensures written { written.new.items ≡ filter (λ one. not (is_meant which one)) written.old.items }
    ensures size { vec_len written.new ≤ vec_len written.old }
    ensures capacity { vec_capacity written.new ≡ vec_capacity written.old }
{
    written.retain(|one| !which.means(one));
}

fn free_those<D: Disk>(slots: &mut Slots<D>, written: &[Written], which: Which)
    ensures free { (slot : ℕ) → is_taken slots.new.taken slot
        ≡ (if any_in (chunks_in (filter (is_meant which) written.now)) slot then false
        else is_taken slots.old.taken slot) }
    ensures disk { slots.new.disk ≡ slots.old.disk }
{
    for one in written {
        free_if(slots, one, which);
    }
}

fn free_if<D: Disk>(slots: &mut Slots<D>, one: &Written, which: Which)
    ensures free { (slot : ℕ) → is_taken slots.new.taken slot
        ≡ (if is_meant which one.now && (slot == one.now.chunk.slot) then false else is_taken slots.old.taken slot) }
    ensures disk { slots.new.disk ≡ slots.old.disk }
{
    if which.means(one) {
        slots.free(one.chunk.slot);
    }
}
