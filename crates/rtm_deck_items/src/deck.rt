//! A deck: its programs, units and commands.

ghost use Rattle.std.specs.Prelude.{◌≡◌, ℕ, ◌+◌, ◌≤◌, ◌<◌, ◌^◌, List, length, bytes_eq, IfSome, IfOk, IsTrue, slice_get, position};
ghost use Rattle.std.specs.Option.{option_map};
ghost use Rattle.std.specs.List.{position_from};
ghost use Rattle.std.specs.HashMap.{get_by};
ghost use Rattle.rtm_deck_items.specs.Reading.{lines_in, carries, is_task_card};

use crate::op::Op;
use rtm_codes::NoMemory;
use rtm_deck_operands::Name;
use std::alloc::Global;
use std::collections::HashMap;
use std::marker::Model;

/// A card of a program, with the label that it carries.
#[derive(Clone, Copy, Debug, PartialEq, Eq)]
pub struct Line {
    pub label: Option<Name>,
    pub op: Op,
}

/// A program: its cards from PROG to PEND, without these two.
#[derive(Debug, Drop)]
pub struct Program {
    pub name: Name,
    pub lines: Vec<Line>,
    // The index of the first card that carries each label.
    labels: HashMap<Name, usize>,
}

impl Model for Program {
    ghost use Rattle.std.specs.Prelude.{◌≡◌, ℕ, List, bytes_eq};
    ghost use Rattle.std.specs.List.{position_from};
    ghost use Rattle.std.specs.HashMap.{get_by};
    ghost use Rattle.rtm_deck_items.specs.View.{ProgramView};
    ghost use Rattle.rtm_deck_items.specs.Reading.{carries};

    ghost Value = { ProgramView };

    ghost view = { λ a. record { name = a.name; lines = a.lines.items } };

    ghost invariant = { λ a. (label : List ℕ)
        → get_by (bytes_eq label) a.labels ≡ position_from (carries label) 0 a.lines.items };
}

impl Program {
    /// A program of these cards. The only error is want of memory.
    pub fn new(alloc: Global, name: Name, lines: Vec<Line>) -> Result<Program, NoMemory>
        ensures { IfOk result (λ program. program ≡ record { name = name; lines = lines.items }) }
    {
        let labels = labels_of(alloc, &lines)?;
        Ok(Program {
            name,
            lines,
            labels,
        })
    }

    // The index of the first card that carries the label.
    fn first_carrying(&self, label: &Name) -> Option<usize>
        ensures value { result ≡ position (carries label.now) self.now.lines }
        ensures bound { IfSome result (λ i. i < length self.now.lines) }
    {
        self.labels.get(label).copied()
    }
}

// The index of the first card that carries each label: of those from behind, the last.
fn labels_of(alloc: Global, lines: &[Line]) -> Result<HashMap<Name, usize>, NoMemory>
    ensures { IfOk result (λ labels. (label : List ℕ)
        → get_by (bytes_eq label) labels ≡ position_from (carries label) 0 lines.now) }
{
    let mut labels = HashMap::new(alloc);
    for i in (0..lines.len()).rev() {
        if let Some(label) = lines[i].label {
            labels.insert(label, i)?;
        }
    }
    Ok(labels)
}

/// What a unit of work is: a task, or a service request.
#[derive(Clone, Copy, Debug, PartialEq, Eq)]
pub enum UnitKind {
    Task,
    Srb,
}

/// A unit of work, with the number of the program that it runs first.
#[derive(Clone, Copy, Debug, PartialEq, Eq)]
pub struct Unit {
    pub name: Name,
    pub kind: UnitKind,
    pub prog: u16,
    /// The related task of an SRB, by its number.
    pub related: Option<u16>,
}

/// An operator cancel of a task, that may arrive once `at` entries stand (0 to 100000).
#[derive(Clone, Copy, Debug, PartialEq, Eq)]
pub struct Command {
    pub target: u16,
    pub at: u32,
    pub dump: bool,
}

/// A deck that was read.
#[derive(Debug, Drop)]
pub struct Deck {
    /// How many entries a history may have, 1 to 100000.
    pub limit: u32,
    /// Whether ESTAE and ESTAI routines are entered with an SDWA (this profile); FRRs always are.
    pub sdwa: bool,
    pub programs: Vec<Program>,
    pub units: Vec<Unit>,
    pub commands: Vec<Command>,
}

impl Model for Deck {
    ghost use Rattle.rtm_deck_items.specs.View.{DeckView};
    ghost use Rattle.rtm_deck_items.specs.Spelling.{IsSpelled};

    ghost Value = { DeckView };

    ghost view = { λ a. record {
      limit = a.limit;
      sdwa = a.sdwa;
      programs = a.programs.items;
      units = a.units.items;
      commands = a.commands.items;
    } };

    // Some bytes spell it.
    ghost invariant = { λ a. IsSpelled (record {
      limit = a.limit;
      sdwa = a.sdwa;
      programs = a.programs.items;
      units = a.units.items;
      commands = a.commands.items;
    }) };
}

impl Deck {
    ghost use Rattle.rtm_deck_items.specs.Reading.{lines_of, label_at, job_step, program_of};
    ghost use Rattle.rtm_deck_items.specs.Spelling.{IsSpelled};
    ghost use Rattle.rtm_deck_items.specs.WellFormed.{is_well_formed};

    /// Each deck is spelled by some bytes, and keeps the conditions on a deck alone: a law of the type, and no work.
    pub fn keeps_its_form(&self)
        ensures spelled { IsSpelled self.now }
        ensures well_formed { IsTrue (is_well_formed self.now) }
    {
        // What is read brings the type's invariant along.
        let _limit = self.limit;
    }

    /// A deck that is equal to this one. The only error is want of memory.
    pub fn copy(&self, alloc: Global) -> Result<Deck, NoMemory>
        ensures { IfOk result (λ deck. deck ≡ self.now) }
    {
        let programs = copied_programs(alloc, &self.programs)?;
        let units = copied_units(alloc, &self.units)?;
        let commands = copied_commands(alloc, &self.commands)?;
        Ok(Deck {
            limit: self.limit,
            sdwa: self.sdwa,
            programs,
            units,
            commands,
        })
    }

    /// The number of units, 1 to 64, which is the master unit's number.
    pub fn unit_count(&self) -> u16
        ensures count { result ≡ length self.now.units }
    {
        self.units.len() as u16
    }

    /// How many entries a history of this deck may have, 1 to 100000.
    pub fn entry_limit(&self) -> u32
        ensures limit { result ≡ self.now.limit }
    {
        self.limit
    }

    /// The number of the first task, from 0, which is the job step task.
    pub fn job_step(&self) -> u16
        ensures { result ≡ job_step self.now }
    {
        match first_task(&self.units) {
            None => 0,
            Some(found) => found as u16,
        }
    }

    /// The number of the program that the unit of that number runs first; 0 where there is no such unit.
    pub fn program_of(&self, unit: u16) -> u16
        ensures { result ≡ program_of self.now unit }
    {
        match self.units.get(unit as usize) {
            None => 0,
            Some(card) => card.prog,
        }
    }

    /// The cards of the program of that number, at most 10000; none where there is no such program.
    pub fn lines_of(&self, prog: u16) -> &[Line]
        ensures lines { result.now ≡ lines_of self.now prog }
        ensures few { length result.now ≤ 10000 }
    {
        lines_at(&self.programs, prog)
    }

    /// The number, from 1, of the operation that carries the label in the program of that number, or none.
    pub fn label_at(&self, prog: u16, label: &Name) -> Option<u16>
        ensures { result ≡ label_at self.now prog label.now }
    {
        position_of(&self.programs, prog, label)
    }
}

fn lines_at(programs: &[Program], prog: u16) -> &[Line]
    ensures { result.now ≡ lines_in (slice_get programs.now prog) }
{
    match programs.get(prog as usize) {
        None => &[],
        Some(program) => &program.lines,
    }
}

// The index of the first task.
fn first_task(units: &[Unit]) -> Option<usize>
    ensures value { result ≡ position is_task_card units.now }
    ensures bound { IfSome result (λ i. i < length units.now) }
{
    units.iter().position(|unit| unit.kind == UnitKind::Task)
}

fn copied_units(alloc: Global, units: &[Unit]) -> Result<Vec<Unit>, NoMemory>
    ensures { IfOk result (λ copies. copies.items ≡ units.now) }
{
    let mut copies = Vec::new(alloc);
    copies.extend_from_slice(units)?;
    Ok(copies)
}

fn copied_commands(alloc: Global, commands: &[Command]) -> Result<Vec<Command>, NoMemory>
    ensures { IfOk result (λ copies. copies.items ≡ commands.now) }
{
    let mut copies = Vec::new(alloc);
    copies.extend_from_slice(commands)?;
    Ok(copies)
}

fn copied_lines(alloc: Global, lines: &[Line]) -> Result<Vec<Line>, NoMemory>
    ensures { IfOk result (λ copies. copies.items ≡ lines.now) }
{
    let mut copies = Vec::new(alloc);
    copies.extend_from_slice(lines)?;
    Ok(copies)
}

fn copied_program(alloc: Global, program: &Program) -> Result<Program, NoMemory>
    ensures { IfOk result (λ copy. copy ≡ program.now) }
{
    let lines = copied_lines(alloc, &program.lines)?;
    Program::new(alloc, program.name, lines)
}

fn copied_programs(alloc: Global, programs: &[Program]) -> Result<Vec<Program>, NoMemory>
    ensures { IfOk result (λ copies. copies.items ≡ programs.now) }
{
    let mut copies = Vec::new(alloc);
    for program in programs {
        copies.push(copied_program(alloc, program)?)?;
    }
    Ok(copies)
}

// The number of the first operation that carries the label in the program of that number.
fn position_of(programs: &[Program], prog: u16, label: &Name) -> Option<u16>
    requires { length (lines_in (slice_get programs.now prog)) ≤ 10000 }
    ensures { result ≡ option_map (λ i. i + 1)
        (position (carries label.now) (lines_in (slice_get programs.now prog))) }
{
    match first_at(programs, prog, label) {
        None => None,
        Some(found) => Some(found as u16 + 1),
    }
}

// The index of the first card that carries the label in the program of that number.
fn first_at(programs: &[Program], prog: u16, label: &Name) -> Option<usize>
    ensures value { result ≡ position (carries label.now) (lines_in (slice_get programs.now prog)) }
    ensures bound { IfSome result (λ i. i < length (lines_in (slice_get programs.now prog))) }
{
    match programs.get(prog as usize) {
        None => None,
        Some(program) => program.first_carrying(label),
    }
}
