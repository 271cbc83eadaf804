//! Making the deck of cards whose names are all there.

ghost use Rattle.std.specs.Prelude.{◌≡◌, true, ◌≤◌, ◌++◌, [], length, IfOk, OnOk, unwrap_or};
ghost use Rattle.rtm_deck_items.specs.View.{DeckView};
ghost use Rattle.rtm_deck.specs.inner.View.{ScanView};
ghost use Rattle.rtm_deck.specs.inner.Building.{line_of, line_count, lines_from, program_of, programs_with, programs_from, unit_of, unit_in, units_from, command_in, commands_from, region_from, deck_of};
ghost use Rattle.rtm_deck.specs.inner.Roles.{role_of, is_line};
ghost use Rattle.rtm_deck.specs.inner.Operations.{no_name};
ghost use Rattle.rtm_deck.specs.inner.Reader.{scan_of};

use crate::card::Read;
use crate::operation::{
    NO_NAME, flag_at, named_number_at, named_number_in, number_at, op_of, value_at,
};
use crate::role::{Role, role_of};
use crate::seen::Seen;
use rtm_cards::DEFAULT_ENTRIES;
use rtm_codes::NoMemory;
use rtm_deck_items::{Command, Line, Name, Program, Unit, UnitKind};
use std::alloc::Global;
use std::marker::Model;

/// The parts of a deck.
#[derive(Drop)]
pub(crate) struct Parts {
    pub(crate) limit: u32,
    pub(crate) sdwa: bool,
    pub(crate) programs: Vec<Program>,
    pub(crate) units: Vec<Unit>,
    pub(crate) commands: Vec<Command>,
}

impl Model for Parts {
    ghost use Rattle.rtm_deck_items.specs.View.{DeckView};

    ghost Value = { DeckView };

    ghost view = { λ a. record {
      limit = a.limit;
      sdwa = a.sdwa;
      programs = a.programs.items;
      units = a.units.items;
      commands = a.commands.items;
    } };
}

fn line_of(seen: &Seen, read: &Read) -> Line
    requires { is_line (role_of read.now.form) ≡ true }
    ensures { result ≡ line_of seen.now read.now }
{
    Line {
        label: read.name,
        op: op_of(seen, read.form, &read.values),
    }
}

// How many cards stand before the first that is none of a program.
fn line_count(reads: &[Read]) -> usize
    ensures { result ≡ line_count reads.now }
{
    for (i, read) in reads.iter().enumerate() {
        if !role_of(read.form).is_line() {
            return i;
        }
    }
    reads.len()
}

// The cards of a program, up to the first that is none.
fn lines_of(alloc: Global, seen: &Seen, reads: &[Read]) -> Result<Vec<Line>, NoMemory>
    ensures { IfOk result (λ lines. lines.items ≡ lines_from seen.now reads.now) }
{
    let mut lines = Vec::with_capacity(alloc, line_count(reads))?;
    for read in reads {
        if !role_of(read.form).is_line() {
            return Ok(lines);
        }
        lines.extend_from_slice(&[line_of(seen, read)])?;
    }
    Ok(lines)
}

// The name of a card that has to have one.
fn name_of(read: &Read) -> Name
    ensures { result ≡ unwrap_or read.now.name no_name }
{
    match read.name {
        None => NO_NAME,
        Some(name) => name,
    }
}

fn program_of(alloc: Global, seen: &Seen, read: &Read, others: &[Read]) -> Result<Program, NoMemory>
    ensures { IfOk result (λ program. program ≡ program_of seen.now read.now others.now) }
{
    let lines = lines_of(alloc, seen, others)?;
    Program::new(alloc, name_of(read), lines)
}

// Puts the program that the card begins behind the others, if it begins one.
fn put_program(
    programs: &mut Vec<Program>,
    alloc: Global,
    seen: &Seen,
    read: &Read,
    others: &[Read],
) -> Result<(), NoMemory>
    ensures { OnOk result (programs.new.items
        ≡ programs.old.items
        ++ programs_with seen.now (role_of read.now.form) read.now others.now []) }
{
    if !role_of(read.form).is_program() {
        return Ok(());
    }
    programs.push(program_of(alloc, seen, read, others)?)?;
    Ok(())
}

// The programs, in the order of their cards.
fn programs_of(alloc: Global, seen: &Seen, reads: &[Read]) -> Result<Vec<Program>, NoMemory>
    ensures { IfOk result (λ programs. programs.items ≡ programs_from seen.now reads.now) }
{
    let mut programs = Vec::new(alloc);
    for (i, read) in reads.iter().enumerate() {
        put_program(&mut programs, alloc, seen, read, &reads[i + 1..])?;
    }
    Ok(programs)
}

fn unit_of(seen: &Seen, read: &Read, kind: UnitKind, related: Option<u16>) -> Unit
    ensures { result ≡ unit_of seen.now read.now kind related }
{
    Unit {
        name: name_of(read),
        kind,
        prog: named_number_at(&seen.programs, &read.values, 0),
        related,
    }
}

// The unit of work that a card says.
fn unit_in(seen: &Seen, read: &Read) -> Option<Unit>
    ensures { result ≡ unit_in seen.now (role_of read.now.form) read.now }
{
    match role_of(read.form) {
        Role::Task => Some(unit_of(seen, read, UnitKind::Task, None)),
        Role::Srb => {
            let related = named_number_in(&seen.units, value_at(&read.values, 1));
            Some(unit_of(seen, read, UnitKind::Srb, related))
        }
        _ => None,
    }
}

fn units_of(alloc: Global, seen: &Seen, reads: &[Read]) -> Result<Vec<Unit>, NoMemory>
    ensures { IfOk result (λ units. units.items ≡ units_from seen.now reads.now) }
{
    let mut units = Vec::new(alloc);
    for read in reads {
        if let Some(unit) = unit_in(seen, read) {
            units.extend_from_slice(&[unit])?;
        }
    }
    Ok(units)
}

// The command that a card says.
fn command_in(seen: &Seen, read: &Read) -> Option<Command>
    ensures { result ≡ command_in seen.now (role_of read.now.form) read.now }
{
    match role_of(read.form) {
        Role::Command => Some(Command {
            target: named_number_at(&seen.units, &read.values, 0),
            at: number_at(&read.values, 1),
            dump: flag_at(&read.values, 2),
        }),
        _ => None,
    }
}

fn commands_of(alloc: Global, seen: &Seen, reads: &[Read]) -> Result<Vec<Command>, NoMemory>
    ensures { IfOk result (λ commands. commands.items ≡ commands_from seen.now reads.now) }
{
    let mut commands = Vec::new(alloc);
    for read in reads {
        if let Some(command) = command_in(seen, read) {
            commands.extend_from_slice(&[command])?;
        }
    }
    Ok(commands)
}

// The limit of entries and whether routines get an SDWA: of REGION, or the defaults.
fn region_of(reads: &[Read]) -> (u32, bool)
    ensures { result ≡ region_from reads.now }
{
    for read in reads {
        if role_of(read.form) == Role::Region {
            return (number_at(&read.values, 0), flag_at(&read.values, 1));
        }
    }
    (DEFAULT_ENTRIES, true)
}

/// The parts of the deck that the cards say.
pub(crate) fn build(alloc: Global, seen: &Seen, reads: &[Read]) -> Result<Parts, NoMemory>
    ensures { IfOk result (λ parts. parts ≡ deck_of (scan_of reads.now seen.now)) }
{
    let (limit, sdwa) = region_of(reads);
    let programs = programs_of(alloc, seen, reads)?;
    let units = units_of(alloc, seen, reads)?;
    let commands = commands_of(alloc, seen, reads)?;
    Ok(Parts {
        limit,
        sdwa,
        programs,
        units,
        commands,
    })
}
