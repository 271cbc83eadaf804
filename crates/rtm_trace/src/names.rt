//! Looking up what a line names.

ghost use Rattle.std.specs.Prelude.{◌≡◌, [], map, OnOk, IfOk};
ghost use Rattle.rtm_trace.specs.inner.Words.{put_name, put_names, names_of, narrow, number_of_name};

use indexmap::IndexSet;
use rtm_codes::NoMemory;
use rtm_deck_items::{Deck, Name, Program, Unit};
use rtm_deck_operands::name_of;
use std::alloc::Global;
use std::marker::Model;

/// The names of a deck's programs and units, each at its number.
#[derive(Drop)]
pub(crate) struct Names {
    programs: IndexSet<Name>,
    units: IndexSet<Name>,
}

impl Model for Names {
    ghost use Rattle.rtm_trace.specs.inner.Words.{NamesView};

    ghost Value = { NamesView };

    ghost view = { λ a. record { programs = a.programs.keys; units = a.units.keys } };
}

fn put_name(names: &mut IndexSet<Name>, name: Name) -> Result<(), NoMemory>
    ensures { OnOk result (names.new.keys ≡ put_name names.old.keys name) }
{
    names.insert(name)?;
    Ok(())
}

fn program_names(alloc: Global, programs: &[Program]) -> Result<IndexSet<Name>, NoMemory>
    ensures { IfOk result (λ names. names.keys ≡ put_names [] (map (λ p. p.name) programs.now)) }
{
    let mut names = IndexSet::new(alloc);
    for program in programs {
        put_name(&mut names, program.name)?;
    }
    Ok(names)
}

fn unit_names(alloc: Global, units: &[Unit]) -> Result<IndexSet<Name>, NoMemory>
    ensures { IfOk result (λ names. names.keys ≡ put_names [] (map (λ u. u.name) units.now)) }
{
    let mut names = IndexSet::new(alloc);
    for unit in units {
        put_name(&mut names, unit.name)?;
    }
    Ok(names)
}

// A number of 16 bits.
fn narrow(n: usize) -> Option<u16>
    ensures { result ≡ narrow n }
{
    if n < 65536 { Some(n as u16) } else { None }
}

// The number of the name.
fn number_of_name(names: &IndexSet<Name>, word: &[u8]) -> Option<u16>
    ensures { result ≡ number_of_name names.now.keys word.now }
{
    let name = name_of(word)?;
    let index = names.get_index_of(&name)?;
    narrow(index)
}

impl Names {
    /// The names of that deck. The only error is want of memory.
    pub(crate) fn of(alloc: Global, deck: &Deck) -> Result<Names, NoMemory>
        ensures { IfOk result (λ names. names ≡ names_of deck.now) }
    {
        let programs = program_names(alloc, &deck.programs)?;
        let units = unit_names(alloc, &deck.units)?;
        Ok(Names { programs, units })
    }

    /// The number of the program of that name.
    pub(crate) fn program(&self, word: &[u8]) -> Option<u16>
        ensures { result ≡ number_of_name self.now.programs word.now }
    {
        number_of_name(&self.programs, word)
    }

    /// The number of the unit of that name.
    pub(crate) fn unit(&self, word: &[u8]) -> Option<u16>
        ensures { result ≡ number_of_name self.now.units word.now }
    {
        number_of_name(&self.units, word)
    }
}
