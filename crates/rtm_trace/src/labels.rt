//! What the lines of a text say of units and programs, made once a text.

ghost use Rattle.std.specs.Prelude.{◌≡◌, ◌++◌, ◌+◌, ◌<◌, ◌≤◌, length, codes, IfOk, slice_get};
ghost use Rattle.rtm_deck_items.specs.View.{DeckView};
ghost use Rattle.rtm_trace.specs.Text.{program_in, unit_text};
ghost use Rattle.rtm_trace.specs.inner.Labels.{labels_of, program_labels, unit_labels};

use crate::piece::Piece;
use crate::push;
use rtm_codes::NoMemory;
use rtm_deck_items::{Deck, Program, Unit};
use std::alloc::Global;
use std::marker::Model;

/// The names of a deck's units and of the master, and of its programs, each with what stands around it.
#[derive(Drop)]
pub(crate) struct Labels {
    units: Vec<Piece>,
    execs: Vec<Piece>,
    programs: Vec<Piece>,
}

impl Model for Labels {
    ghost use Rattle.rtm_trace.specs.inner.Labels.{LabelsView};

    ghost Value = { LabelsView };

    ghost view = { λ a. record {
      units = a.units.items;
      execs = a.execs.items;
      programs = a.programs.items;
    } };
}

// A name between other words.
fn label(text: &mut Vec<u8>, front: &[u8], name: &[u8], back: &[u8]) -> Result<Piece, NoMemory>
    requires { length front.now + length name.now + length back.now ≤ 24 }
    ensures { IfOk result (λ piece. piece ≡ front.now ++ name.now ++ back.now) }
{
    text.clear();
    push::bytes(text, front)?;
    push::bytes(text, name)?;
    push::bytes(text, back)?;
    Ok(Piece::of(text))
}

fn unit_labels(alloc: Global, units: &[Unit], back: &[u8]) -> Result<Vec<Piece>, NoMemory>
    requires { length back.now ≤ 8 }
    ensures { IfOk result (λ labels. labels.items ≡ unit_labels back.now units.now) }
{
    let mut labels = Vec::new(alloc);
    let mut text = Vec::new(alloc);
    for unit in units {
        labels.push(label(&mut text, b" ", push::name_text(&unit.name), back)?)?;
    }
    labels.push(label(&mut text, b" ", b"*", back)?)?;
    Ok(labels)
}

fn program_labels(alloc: Global, programs: &[Program]) -> Result<Vec<Piece>, NoMemory>
    ensures { IfOk result (λ labels. labels.items ≡ program_labels programs.now) }
{
    let mut labels = Vec::new(alloc);
    let mut text = Vec::new(alloc);
    for program in programs {
        labels.push(label(&mut text, b"", push::name_text(&program.name), b".")?)?;
    }
    Ok(labels)
}

impl Labels {
    /// The labels of that deck. The only error is want of memory.
    pub(crate) fn of(alloc: Global, deck: &Deck) -> Result<Labels, NoMemory>
        ensures { IfOk result (λ labels. labels ≡ labels_of deck.now) }
    {
        let units = unit_labels(alloc, &deck.units, b" ")?;
        let execs = unit_labels(alloc, &deck.units, b" EXEC ")?;
        let programs = program_labels(alloc, &deck.programs)?;
        Ok(Labels {
            units,
            execs,
            programs,
        })
    }

    /// The unit between blanks.
    #[inline(always)]
    pub(crate) fn unit(&self, unit: u16) -> &Piece
        requires { unit < length self.now.units }
        ensures { (d : DeckView) → self.now ≡ labels_of d → unit ≤ length d.units
            → result.now ≡ codes " " ++ unit_text d unit ++ codes " " }
    {
        &self.units[unit as usize]
    }

    /// The unit between blanks, and what an entry of a card says first.
    #[inline(always)]
    pub(crate) fn exec(&self, unit: u16) -> &Piece
        requires { unit < length self.now.execs }
        ensures { (d : DeckView) → self.now ≡ labels_of d → unit ≤ length d.units
            → result.now ≡ codes " " ++ unit_text d unit ++ codes " EXEC " }
    {
        &self.execs[unit as usize]
    }

    /// The program with a point.
    #[inline(always)]
    pub(crate) fn program(&self, prog: u16) -> &Piece
        requires { prog < length self.now.programs }
        ensures { (d : DeckView) → self.now ≡ labels_of d → prog < length d.programs
            → result.now ≡ program_in (slice_get d.programs prog) ++ codes "." }
    {
        &self.programs[prog as usize]
    }
}
