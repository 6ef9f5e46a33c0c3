//! Words for one bucket, as code.

ghost use Rattle.std.specs.Prelude.{◌≡◌, ◌∷◌, ◌++◌, [], IfOk, nat_eq, option_copied, length};
ghost use Rattle.std.specs.Cmp.Lexicographic.{pointwise};
ghost use Rattle.std.specs.FinMap.{len};
ghost use Rattle.oz_model.specs.Buckets.{are_pieces_of as all_pieces_of, buckets_in, has_block, has_key as key_there};
ghost use Rattle.oz_model.specs.Buckets.{has_session as session_there, is_full as full, is_in_use, is_piece_of as piece_of};
ghost use Rattle.oz_model.specs.Buckets.{keys_asked as keys_meant, pieces_in, session_blocks, snapshot_keys as keys_of};
ghost use Rattle.oz_model.specs.Buckets.{with_keys as keys_put, with_session as session_put};
ghost use Rattle.oz_model.specs.Reach.{blocks_of};

use crate::scope::Scope;
use oz_fields::{Block, LONGEST_PIECE, List, Name, OutOfMemory, Piece, TryClone};
use oz_names::{Code, MOST_KEYS};
use oz_namespace::{Bucket, NameMap, Session, Snapshot};
use oz_requests::Reply;
use std::alloc::{AllocError, Global};

/// A reply, and what is left.
#[derive(Drop)]
pub(crate) struct Answered {
    pub reply: Reply,
    pub left: Scope,
}

/// A refusal, which leaves all as it was.
pub(crate) fn refused(code: Code, scope: Scope) -> Answered
    ensures { result ≡ record { reply = Reply.Code code; left = scope } }
{
    Answered {
        reply: Reply::Code(code),
        left: scope,
    }
}

/// A count as a reply tells it. One of 2^32 or more is told by none.
pub(crate) fn told(count: usize) -> Result<u32, OutOfMemory>
    ensures { IfOk result (λ same. same ≡ count) }
{
    match u32::try_from(count) {
        Ok(count) => Ok(count),
        Err(_) => Err(AllocError),
    }
}

/// How many buckets a volume has, 0 where there is no such volume.
#[tactic(auto, using(crate::proofs::Empty::no_names, crate::proofs::Empty::no_name_count, crate::proofs::Empty::no_number_count))]
pub(crate) fn bucket_count(scope: &Scope) -> usize
    ensures { result ≡ len (buckets_in scope.now.buckets) }
{
    match &scope.buckets {
        Some(buckets) => buckets.len(),
        None => 0,
    }
}

/// Whether a bucket has a key or a session.
pub(crate) fn in_use(bucket: &Bucket) -> bool
    ensures { result ≡ is_in_use bucket.now }
{
    bucket.keys.len() > 0 || bucket.sessions.len() > 0
}

pub(crate) fn is_full(bucket: &Bucket) -> bool
    ensures { result ≡ full bucket.now }
{
    bucket.keys.len() + bucket.sessions.len() >= MOST_KEYS as usize
}

pub(crate) fn has_key(keys: &NameMap<List<Piece>>, key: &Name) -> bool
    ensures { result ≡ key_there keys.now key.now }
{
    keys.get(key).is_some()
}

/// The pieces of a key, none where there is no such key.
pub(crate) fn pieces_copied(
    alloc: Global,
    keys: &NameMap<List<Piece>>,
    key: &Name,
) -> Result<List<Piece>, OutOfMemory>
    ensures { IfOk result (λ pieces. pieces ≡ pieces_in keys.now key.now) }
{
    match keys.get(key) {
        Some(pieces) => pieces.try_clone(alloc),
        None => Ok(List::new(alloc)),
    }
}

pub(crate) fn with_keys(bucket: Bucket, keys: NameMap<List<Piece>>) -> Bucket
    ensures { result ≡ keys_put bucket keys }
{
    Bucket {
        keys,
        sessions: bucket.sessions,
        snapshots: bucket.snapshots,
    }
}

pub(crate) fn is_same_name(one: &Name, other: &Name) -> bool
    ensures { result ≡ pointwise nat_eq one.now other.now }
{
    *one == *other
}

/// Whether there is a session of this number, on this key.
pub(crate) fn has_session(bucket: &Bucket, key: &Name, number: u64) -> bool
    ensures { result ≡ session_there bucket.now key.now number }
{
    match bucket.sessions.get(number) {
        Some(session) => is_same_name(&session.key, key),
        None => false,
    }
}

/// The blocks of a session, none where there is no such session.
pub(crate) fn blocks_copied(
    alloc: Global,
    bucket: &Bucket,
    number: u64,
) -> Result<List<Block>, OutOfMemory>
    ensures { IfOk result (λ blocks. blocks ≡ session_blocks bucket.now number) }
{
    match bucket.sessions.get(number) {
        Some(session) => session.blocks.try_clone(alloc),
        None => Ok(List::new(alloc)),
    }
}

/// One block more.
pub(crate) fn with_block(
    alloc: Global,
    blocks: List<Block>,
    block: Block,
) -> Result<List<Block>, OutOfMemory>
    ensures { IfOk result (λ more. more ≡ blocks ++ block ∷ []) }
{
    let mut blocks = blocks;
    match blocks.push(alloc, block) {
        Ok(()) => Ok(blocks),
        Err(_) => Err(AllocError),
    }
}

pub(crate) fn with_session(
    alloc: Global,
    bucket: Bucket,
    number: u64,
    key: &Name,
    blocks: List<Block>,
) -> Result<Bucket, OutOfMemory>
    ensures { IfOk result (λ it. it ≡ session_put bucket number key.now blocks) }
{
    let session = Session {
        key: key.try_clone(alloc)?,
        blocks,
    };
    let mut bucket = bucket;
    bucket.sessions.insert(alloc, number, session)?;
    Ok(bucket)
}

/// Whether each piece stands in a block of these, no two in one, with 1 to 65,536 bytes.
pub(crate) fn are_pieces_of(blocks: &[Block], pieces: &[Piece]) -> bool
    ensures { result ≡ all_pieces_of blocks.now pieces.now }
{
    for (i, piece) in pieces.iter().enumerate() {
        if !is_piece_of(blocks, piece, &pieces[i + 1..]) {
            return false;
        }
    }
    true
}

fn is_piece_of(blocks: &[Block], piece: &Piece, others: &[Piece]) -> bool
    ensures { result ≡ piece_of blocks.now piece.now others.now }
{
    blocks.contains(&piece.block)
        && !stands_in(others, piece.block)
        && piece.length > 0
        && piece.length <= LONGEST_PIECE
}

fn stands_in(pieces: &[Piece], block: Block) -> bool
    ensures { result ≡ has_block (blocks_of pieces.now) block }
{
    for piece in pieces {
        if piece.block == block {
            return true;
        }
    }
    false
}

/// The keys of the snapshot of a name.
pub(crate) fn snapshot_keys<'s>(
    snapshots: &'s [Snapshot],
    name: &Name,
) -> Option<&'s NameMap<List<Piece>>>
    ensures { option_copied result ≡ keys_of snapshots.now name.now }
{
    for snapshot in snapshots {
        if is_same_name(&snapshot.name, name) {
            return Some(&snapshot.keys);
        }
    }
    None
}

/// The keys of a bucket itself, or of its snapshot of this name.
pub(crate) fn keys_asked<'b>(
    bucket: &'b Bucket,
    snapshot: &Option<Name>,
) -> Option<&'b NameMap<List<Piece>>>
    ensures { option_copied result ≡ keys_meant bucket.now snapshot.now }
{
    match snapshot {
        None => Some(&bucket.keys),
        Some(name) => snapshot_keys(bucket.snapshots.items(), name),
    }
}
