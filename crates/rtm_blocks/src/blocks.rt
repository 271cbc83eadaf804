//! The request blocks of a unit, bracket by bracket.

ghost use Rattle.std.specs.Prelude.{◌≡◌, ◌<◌, ◌↔◌, not, [], length, reverse, IfOk, IsErr, OnOk, OnErr, vec_len, vec_capacity};
ghost use Rattle.std.specs.Option.{option_copied};
ghost use Rattle.rtm_model.specs.Blocks.{newest, newest_bracket, newest_block, oldest_block, block_born, place_or_none, birth_or_zero, place_in, place_of_born, newest_birth, oldest_birth, has_one_block, has_full_bracket, has_full_brackets, first_place, block_of, from_birth, in_newest_bracket, with_bracket, with_newest_at, without_bracket, without_newest, with_linked, with_place, with_program, after_return, cut_to};
ghost use Rattle.rtm_model.specs.Limits.{most_blocks, most_brackets};

use crate::block_list::BlockList;
use rtm_codes::NoMemory;
use rtm_model::{Block, Full, MOST_BLOCKS, MOST_BRACKETS, Place};
use std::alloc::Global;
use std::marker::Model;

/// The request blocks of a unit: a list of brackets, at most `MOST_BRACKETS`, each a list of blocks, at most
/// `MOST_BLOCKS`.
///
/// A contract sees the innermost bracket first, and in each bracket the newest block. A block's birth is 0 for the one
/// that the job step task has at the start, and else the index of the entry at which it was born, plus one.
#[derive(Drop)]
pub struct Blocks {
    /// The outermost first.
    brackets: Vec<BlockList>,
    /// Room for brackets that may come; what these lists hold means nothing.
    spares: Vec<BlockList>,
}

impl Model for Blocks {
    ghost use Rattle.std.specs.Prelude.{◌≡◌, ◌+◌, ◌≤◌, List, length, reverse, vec_capacity};
    ghost use Rattle.rtm_model.specs.declared.block.Block.{Block};
    ghost use Rattle.rtm_model.specs.Limits.{most_brackets};

    ghost Value = { List (List Block) };

    ghost view = { λ a. reverse a.brackets.items };

    ghost invariant = { λ a. (length a.brackets.items + length a.spares.items ≡ most_brackets) ×
        (most_brackets ≤ vec_capacity a.brackets) × (most_brackets ≤ vec_capacity a.spares) };
}

// The place that every program begins with.
fn first_place(prog: u16) -> Place
    ensures { result ≡ first_place prog }
{
    Place { prog, op: 1 }
}

fn block_of(born: u32, prog: u16) -> Block
    ensures { result ≡ block_of born prog }
{
    Block {
        born,
        place: first_place(prog),
    }
}

fn place_or_none(block: Option<Block>) -> Place
    ensures { result ≡ place_or_none block }
{
    match block {
        Some(block) => block.place,
        None => Place { prog: 0, op: 0 },
    }
}

fn birth_or_zero(block: Option<Block>) -> u32
    ensures { result ≡ birth_or_zero block }
{
    match block {
        Some(block) => block.born,
        None => 0,
    }
}

// Room for that many more brackets.
fn add_spares(alloc: Global, spares: &mut Vec<BlockList>) -> Result<(), NoMemory>
    requires { (vec_len spares.old ≡ 0) × (vec_capacity spares.old ≡ most_brackets) }
    ensures len { OnOk result (vec_len spares.new ≡ most_brackets) }
    ensures capacity { OnOk result (vec_capacity spares.new ≡ most_brackets) }
{
    for _ in 0..MOST_BRACKETS {
        let list = BlockList::with_room(alloc)?;
        spares.push_reserved(list);
    }
    Ok(())
}

fn newest_list(brackets: &[BlockList]) -> Option<&BlockList>
    ensures { option_copied result ≡ newest (reverse brackets.now) }
{
    brackets.last()
}

fn newest_block(brackets: &[BlockList]) -> Option<Block>
    ensures { result ≡ newest_block (reverse brackets.now) }
{
    match newest_list(brackets) {
        Some(list) => list.newest(),
        None => None,
    }
}

fn oldest_block(brackets: &[BlockList]) -> Option<Block>
    ensures { result ≡ oldest_block (reverse brackets.now) }
{
    match newest_list(brackets) {
        Some(list) => list.oldest(),
        None => None,
    }
}

fn block_born(brackets: &[BlockList], born: u32) -> Option<Block>
    ensures { result ≡ block_born born (reverse brackets.now) }
{
    match newest_list(brackets) {
        Some(list) => list.find(born),
        None => None,
    }
}

// The brackets that enclose the innermost one.
fn outer(brackets: &[BlockList]) -> &[BlockList]
    ensures { reverse result.now ≡ without_bracket (reverse brackets.now) }
{
    match brackets {
        [outer @ .., _innermost] => outer,
        [] => brackets,
    }
}

// How many blocks the innermost bracket has.
fn block_count(brackets: &[BlockList]) -> usize
    ensures { result ≡ length (newest_bracket (reverse brackets.now)) }
{
    match newest_list(brackets) {
        Some(list) => list.len(),
        None => 0,
    }
}

// The newest block of the innermost bracket goes.
fn end_newest(brackets: &mut Vec<BlockList>)
    ensures items { reverse brackets.new.items
        ≡ in_newest_bracket without_newest (reverse brackets.old.items) }
    ensures len { length brackets.new.items ≡ length brackets.old.items }
    ensures capacity { vec_capacity brackets.new ≡ vec_capacity brackets.old }
{
    if let Some(list) = brackets.last_mut() {
        list.pop();
    }
}

// Blocks of the innermost bracket go that are newer than the one of that birth, if it is there.
fn cut_to(brackets: &mut Vec<BlockList>, born: u32)
    ensures items { reverse brackets.new.items
        ≡ in_newest_bracket (from_birth born) (reverse brackets.old.items) }
    ensures len { length brackets.new.items ≡ length brackets.old.items }
    ensures capacity { vec_capacity brackets.new ≡ vec_capacity brackets.old }
{
    if let Some(list) = brackets.last_mut() {
        list.cut_to(born);
    }
}

// The newest block of the innermost bracket goes on at that place.
#[inline(always)]
fn set_place(brackets: &mut Vec<BlockList>, place: Place)
    ensures items { reverse brackets.new.items
        ≡ in_newest_bracket (with_newest_at place) (reverse brackets.old.items) }
    ensures len { length brackets.new.items ≡ length brackets.old.items }
    ensures capacity { vec_capacity brackets.new ≡ vec_capacity brackets.old }
{
    if let Some(list) = brackets.last_mut() {
        list.set_place(place);
    }
}

impl Blocks {
    /// No bracket, and room for as many as may be.
    pub fn with_room(alloc: Global) -> Result<Blocks, NoMemory>
        ensures { IfOk result (λ blocks. blocks ≡ []) }
    {
        let mut spares = Vec::with_capacity(alloc, MOST_BRACKETS)?;
        add_spares(alloc, &mut spares)?;
        Ok(Blocks {
            brackets: Vec::with_capacity(alloc, MOST_BRACKETS)?,
            spares,
        })
    }

    /// Whether as many brackets are there as may be, so that no more is to begin.
    pub fn is_full(&self) -> bool
        ensures { result ≡ has_full_brackets self.now }
    {
        self.brackets.len() >= MOST_BRACKETS
    }

    /// The birth of a unit, or the entry of a routine: one more bracket, with a block at the first operation of the
    /// program of that number.
    pub fn begin(&mut self, born: u32, prog: u16)
        requires room { length self.old < most_brackets }
        ensures { self.new ≡ with_bracket born prog self.old }
    {
        match self.spares.pop() {
            Some(mut list) => {
                list.begin(block_of(born, prog));
                self.brackets.push_reserved(list);
            }
            None => unreachable!("a bracket that is not there is spare"),
        }
    }

    /// The end of a routine: the innermost bracket goes, if one is there.
    pub fn leave(&mut self)
        ensures { self.new ≡ without_bracket self.old }
    {
        if let Some(list) = self.brackets.pop() {
            self.spares.push_reserved(list);
        }
    }

    /// Whether the innermost bracket has as many blocks as it may have, so that LINK is the error EE1 (this profile).
    pub fn is_bracket_full(&self) -> bool
        ensures { result ≡ has_full_bracket self.now }
    {
        block_count(&self.brackets) >= MOST_BLOCKS
    }

    /// LINK: one more block in the innermost bracket, at the first operation of the program. `Full` where it has as
    /// many as it may have.
    pub fn link(&mut self, born: u32, prog: u16) -> Result<(), Full>
        ensures full { IsErr result ↔ (length (newest_bracket self.old) ≡ most_blocks) }
        ensures ok { OnOk result (self.new ≡ with_linked born prog self.old) }
        ensures err { OnErr result (self.new ≡ self.old) }
    {
        match self.brackets.pop() {
            Some(mut list) => {
                let linked = list.push(block_of(born, prog));
                self.brackets.push_reserved(list);
                linked
            }
            None => Ok(()),
        }
    }

    /// XCTL: the newest block goes on at the first operation of another program.
    pub fn xctl(&mut self, prog: u16)
        ensures { self.new ≡ with_program prog self.old }
    {
        self.set_place(first_place(prog));
    }

    /// Whether the innermost bracket has one block alone, so that RETURN ends the unit or the routine.
    pub fn is_last(&self) -> bool
        ensures { result ≡ has_one_block self.now }
    {
        block_count(&self.brackets) == 1
    }

    /// RETURN: the newest block goes. False where it is its bracket's only one, which then stays.
    pub fn end(&mut self) -> bool
        ensures which { result ≡ not (has_one_block self.old) }
        ensures blocks { self.new ≡ after_return self.old }
    {
        if self.is_last() {
            return false;
        }
        end_newest(&mut self.brackets);
        true
    }

    /// A retry under the block of that birth: newer blocks of the innermost bracket go. Nothing where it has no such
    /// block.
    pub fn cut_to(&mut self, born: u32)
        ensures { self.new ≡ cut_to born self.old }
    {
        cut_to(&mut self.brackets, born);
    }

    /// The place at which the newest block stands: that of the operation which is next. The operation 0 of the
    /// program 0 where no block is there.
    pub fn place(&self) -> Place
        ensures { result ≡ place_in self.now }
    {
        place_or_none(newest_block(&self.brackets))
    }

    /// The place at which the block of that birth stands, in the innermost bracket. The operation 0 of the program 0
    /// where it has no such block.
    pub fn place_of(&self, born: u32) -> Place
        ensures { result ≡ place_of_born born self.now }
    {
        place_or_none(block_born(&self.brackets, born))
    }

    /// The newest block goes on at that place.
    pub fn set_place(&mut self, place: Place)
        ensures { self.new ≡ with_place place self.old }
    {
        set_place(&mut self.brackets, place);
    }

    /// The birth of the newest block of the innermost bracket, or 0 where no block is there.
    pub fn newest(&self) -> u32
        ensures { result ≡ newest_birth self.now }
    {
        birth_or_zero(newest_block(&self.brackets))
    }

    /// The birth of the oldest block of the innermost bracket, or 0 where no block is there.
    pub fn oldest(&self) -> u32
        ensures { result ≡ oldest_birth self.now }
    {
        birth_or_zero(oldest_block(&self.brackets))
    }

    /// The newest block of the innermost bracket, which is the one that runs, if a block is there.
    pub fn newest_block(&self) -> Option<Block>
        ensures { result ≡ newest_block self.now }
    {
        newest_block(&self.brackets)
    }

    /// The birth of the newest block of the bracket that encloses the innermost one, or 0 where no block is there.
    pub fn outer_newest(&self) -> u32
        ensures { result ≡ newest_birth (without_bracket self.now) }
    {
        birth_or_zero(newest_block(outer(&self.brackets)))
    }

    /// The birth of the oldest block of the bracket that encloses the innermost one, or 0 where no block is there.
    pub fn outer_oldest(&self) -> u32
        ensures { result ≡ oldest_birth (without_bracket self.now) }
    {
        birth_or_zero(oldest_block(outer(&self.brackets)))
    }

    /// The place at which the block of that birth stands, in the bracket that encloses the innermost one. The
    /// operation 0 of the program 0 where it has no such block.
    pub fn outer_place_of(&self, born: u32) -> Place
        ensures { result ≡ place_of_born born (without_bracket self.now) }
    {
        place_or_none(block_born(outer(&self.brackets), born))
    }

    /// The unit has begun to end, or is purged: all brackets go.
    pub fn clear(&mut self)
        ensures { self.new ≡ [] }
    {
        while let Some(list) = self.brackets.pop() {
            self.spares.push_reserved(list);
        }
    }
}
