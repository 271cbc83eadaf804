//! The request blocks of one bracket.

ghost use Rattle.std.specs.Prelude.{◌≡◌, ◌≤◌, ◌==◌, ◌↔◌, [], ◌∷◌, length, reverse, find, IfOk, IsErr, OnOk, OnErr, vec_capacity};
ghost use Rattle.rtm_model.specs.Blocks.{newest, oldest, without_newest, from_first, is_block_of, with_newest_at, from_birth};
ghost use Rattle.rtm_model.specs.Limits.{most_blocks};

use rtm_codes::NoMemory;
use rtm_model::{Block, Full, MOST_BLOCKS, Place};
use std::alloc::Global;
use std::marker::Model;

/// The request blocks of a bracket, at most `MOST_BLOCKS`, in room that is reserved. A contract sees the newest first.
#[derive(Drop)]
pub(crate) struct BlockList {
    list: Vec<Block>,
}

impl Model for BlockList {
    ghost use Rattle.std.specs.Prelude.{◌≤◌, List, length, reverse, vec_capacity};
    ghost use Rattle.rtm_model.specs.declared.block.Block.{Block};
    ghost use Rattle.rtm_model.specs.Limits.{most_blocks};

    ghost Value = { List Block };

    ghost view = { λ a. reverse a.list.items };

    ghost invariant = { λ a. (length a.list.items ≤ most_blocks)
        × (most_blocks ≤ vec_capacity a.list) };
}

fn is_block_of(block: &Block, born: u32) -> bool
    ensures { result ≡ is_block_of born block.now }
{
    block.born == born
}

// The newest block that has that birth.
fn find(list: &[Block], born: u32) -> Option<Block>
    ensures { result ≡ find (is_block_of born) (reverse list.now) }
{
    list.iter()
        .rev()
        .copied()
        .find(|block| is_block_of(block, born))
}

#[tactic(auto, using(crate::proofs::Oldest::oldest_reverse))]
fn oldest(list: &[Block]) -> Option<Block>
    ensures { result ≡ oldest (reverse list.now) }
{
    list.first().copied()
}

// Takes blocks away from the newest end, up to the one that has that birth.
fn cut_to(list: &mut Vec<Block>, born: u32)
    ensures items { reverse list.new.items
        ≡ from_first (is_block_of born) (reverse list.old.items) }
    ensures shorter { length list.new.items ≤ length list.old.items }
    ensures capacity { vec_capacity list.new ≡ vec_capacity list.old }
{
    while let Some(block) = list.pop() {
        if is_block_of(&block, born) {
            list.push_reserved(block);
            return;
        }
    }
}

// The newest block goes on at that place.
fn set_place(list: &mut Vec<Block>, place: Place)
    ensures items { reverse list.new.items ≡ with_newest_at place (reverse list.old.items) }
    ensures len { length list.new.items ≡ length list.old.items }
    ensures capacity { vec_capacity list.new ≡ vec_capacity list.old }
{
    if let Some(block) = list.last_mut() {
        block.place = place;
    }
}

impl BlockList {
    pub(crate) fn with_room(alloc: Global) -> Result<BlockList, NoMemory>
        ensures { IfOk result (λ blocks. blocks ≡ []) }
    {
        Ok(BlockList {
            list: Vec::with_capacity(alloc, MOST_BLOCKS)?,
        })
    }

    pub(crate) fn len(&self) -> usize
        ensures { result ≡ length self.now }
    {
        self.list.len()
    }

    pub(crate) fn newest(&self) -> Option<Block>
        ensures { result ≡ newest self.now }
    {
        self.list.last().copied()
    }

    pub(crate) fn oldest(&self) -> Option<Block>
        ensures { result ≡ oldest self.now }
    {
        oldest(&self.list)
    }

    /// The block that has that birth.
    pub(crate) fn find(&self, born: u32) -> Option<Block>
        ensures { result ≡ find (is_block_of born) self.now }
    {
        find(&self.list, born)
    }

    /// Whatever was there, the block alone is there now.
    pub(crate) fn begin(&mut self, block: Block)
        ensures { self.new ≡ block ∷ [] }
    {
        self.list.clear();
        self.list.push_reserved(block);
    }

    /// One more block. `Full` where as many are there as may be.
    pub(crate) fn push(&mut self, block: Block) -> Result<(), Full>
        ensures full { IsErr result ↔ (length self.old ≡ most_blocks) }
        ensures ok { OnOk result (self.new ≡ block ∷ self.old) }
        ensures err { OnErr result (self.new ≡ self.old) }
    {
        if self.list.len() == MOST_BLOCKS {
            return Err(Full);
        }
        self.list.push_reserved(block);
        Ok(())
    }

    pub(crate) fn pop(&mut self)
        ensures { self.new ≡ without_newest self.old }
    {
        self.list.pop();
    }

    pub(crate) fn set_place(&mut self, place: Place)
        ensures { self.new ≡ with_newest_at place self.old }
    {
        set_place(&mut self.list, place);
    }

    /// Blocks newer than the one that has that birth go, if it is there.
    pub(crate) fn cut_to(&mut self, born: u32)
        ensures { self.new ≡ from_birth born self.old }
    {
        if self.find(born).is_some() {
            cut_to(&mut self.list, born);
        }
    }
}
