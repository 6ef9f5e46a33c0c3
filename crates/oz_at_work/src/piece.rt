//! What a line puts at the members of a block.

ghost use Rattle.std.specs.Prelude.{◌≡◌, ◌≤◌, ◌<◌, ◌↔◌, All, length, IfErr, IfOk, IsTrue};
ghost use Rattle.oz_at_work.specs.inner.Put.{HasBytes, HasNoPut, IsPutNext};
ghost use Rattle.oz_command.specs.Payload.{bytes_from};
ghost use Rattle.oz_fields.specs.declared.block.TheConstants.{LONGEST_PIECE};
ghost use Rattle.oz_rows.specs.Rows.{IsBlock, IsBlockNumber};

use crate::at_work::LineAtWork;
use oz_client::Step;
use oz_command::piece_of;
use oz_fields::{Block, GREATEST_BLOCK_NUMBER, LONGEST_PIECE, OutOfMemory};
use oz_steps::data_length;
use std::alloc::Global;

/// What a line puts: these bytes as this block at these members. They begin there in its data, counted from 0.
#[derive(Drop)]
pub(crate) struct Put {
    pub(crate) block: Block,
    pub(crate) members: [u8; 3],
    pub(crate) first: u64,
    pub(crate) bytes: Vec<u8>,
}

/// Why a line puts nothing.
#[derive(Clone, Copy, Debug, PartialEq, Eq)]
pub(crate) enum NoPut {
    /// It doesn't write next, or its steps are for other datanodes, or the block or a member is none, or its data hasn't so many bytes.
    Nothing,
    OutOfMemory,
}

impl<'s> LineAtWork<'s> {
    /// What it puts next, where its steps are for so many datanodes.
    pub(crate) fn put(&self, alloc: Global, nodes: u8) -> Result<Put, NoPut>
        ensures nodes { IfOk result (λ put. self.now.nodes ≡ nodes) }
        ensures members { IfOk result (λ put. All (λ dn. dn < nodes) put.members) }
        ensures block { IfOk result (λ put. IsBlock put.block) }
        ensures least { IfOk result (λ put. 1 ≤ length put.bytes.items) }
        ensures most { IfOk result (λ put. length put.bytes.items ≤ LONGEST_PIECE) }
        ensures its { IfOk result (λ put. IsPutNext self.now put.block put.members put.first put.bytes.items) }
        ensures none { IfErr result (HasNoPut self.now nodes) }
    {
        let Step::Write {
            block,
            members,
            first,
            length: count,
        } = &self.next
        else {
            return Err(NoPut::Nothing);
        };
        if self.nodes != nodes || !is_block(*block) || !are_below(*members, nodes) {
            return Err(NoPut::Nothing);
        }
        if !self.has_bytes(*first, *count) {
            return Err(NoPut::Nothing);
        }
        let Ok(bytes) = self.bytes(alloc, *first, *count) else {
            return Err(NoPut::OutOfMemory);
        };
        Ok(Put {
            block: *block,
            members: *members,
            first: *first,
            bytes,
        })
    }

    /// Whether its data has so many bytes from a place on, and they are as many as a piece may have.
    fn has_bytes(&self, first: u64, count: u32) -> bool
        ensures { IsTrue result ↔ HasBytes self.now.line.command first count }
    {
        let whole = data_length(&self.line.command);
        match first.checked_add(u64::from(count)) {
            Some(end) => 1 <= count && count <= LONGEST_PIECE && end <= whole,
            None => false,
        }
    }

    /// So many bytes of its data from a place on.
    fn bytes(&self, alloc: Global, first: u64, count: u32) -> Result<Vec<u8>, OutOfMemory>
        requires { HasBytes self.now.line.command first count }
        ensures least { IfOk result (λ bytes. 1 ≤ length bytes.items) }
        ensures most { IfOk result (λ bytes. length bytes.items ≤ LONGEST_PIECE) }
        ensures are { IfOk result (λ bytes. bytes.items ≡ bytes_from self.now.line.command first count) }
    {
        piece_of(alloc, &self.line.command, first, count)
    }
}

/// Whether these are numbers of datanodes, where there are so many.
pub(crate) fn are_below(members: [u8; 3], nodes: u8) -> bool
    ensures { IsTrue result ↔ All (λ dn. dn < nodes) members }
{
    members.iter().all(|dn| *dn < nodes)
}

fn is_block(block: Block) -> bool
    ensures { IsTrue result ↔ IsBlock block }
{
    is_block_number(block.container) && is_block_number(block.local)
}

fn is_block_number(number: u64) -> bool
    ensures { IsTrue result ↔ IsBlockNumber number }
{
    1 <= number && number <= GREATEST_BLOCK_NUMBER
}
