//! What the reader keeps of the cards before.

ghost use Rattle.std.specs.Prelude.{◌≡◌, ◌+◌, ◌<◌, ◌^◌, OnOk, OnErr};
ghost use Rattle.rtm_deck.specs.inner.Seen.{nothing_seen, after, is_unordered, is_misplaced_role, is_doubled_name, is_beyond, lacks_task_role, broken_rule, has_given, has_name, with_name};

use crate::role::Role;
use indexmap::IndexSet;
use rtm_cards::{MOST_COMMANDS, MOST_PROGRAMS, MOST_UNITS};
use rtm_codes::NoMemory;
use rtm_deck_items::{Name, Why};
use std::alloc::Global;
use std::marker::Model;

/// The names on the cards so far, each space in the order of its cards, and what the next card may be.
#[derive(Drop)]
pub(crate) struct Seen {
    pub(crate) started: bool,
    pub(crate) inside: bool,
    pub(crate) oper: bool,
    pub(crate) ended: bool,
    pub(crate) programs: IndexSet<Name>,
    pub(crate) units: IndexSet<Name>,
    pub(crate) tasks: IndexSet<Name>,
    pub(crate) srbs: IndexSet<Name>,
    pub(crate) commands: u32,
    pub(crate) own: IndexSet<Name>,
    pub(crate) labels: IndexSet<Name>,
}

impl Model for Seen {
    ghost use Rattle.rtm_deck.specs.inner.View.{SeenView};

    ghost Value = { SeenView };

    ghost view = { λ a. record {
      started = a.started;
      inside = a.inside;
      oper = a.oper;
      ended = a.ended;
      programs = a.programs.keys;
      units = a.units.keys;
      tasks = a.tasks.keys;
      srbs = a.srbs.keys;
      commands = a.commands;
      own = a.own.keys;
      labels = a.labels.keys;
    } };
}

// Whether there is a name, and it is among these.
fn has_given(names: &IndexSet<Name>, name: &Option<Name>) -> bool
    ensures { result ≡ has_given names.now.keys name.now }
{
    match name {
        None => false,
        Some(name) => names.contains(name),
    }
}

/// Puts a name behind the others, unless it is among them or left out.
pub(crate) fn put_name(names: &mut IndexSet<Name>, name: &Option<Name>) -> Result<(), NoMemory>
    ensures { OnOk result (names.new.keys ≡ with_name names.old.keys name.now) }
{
    match name {
        None => Ok(()),
        Some(name) => {
            names.insert(*name)?;
            Ok(())
        }
    }
}

impl Seen {
    /// Before the first card.
    pub(crate) fn new(alloc: Global) -> Seen
        ensures { result ≡ nothing_seen }
    {
        Seen {
            started: false,
            inside: false,
            oper: false,
            ended: false,
            programs: IndexSet::new(alloc),
            units: IndexSet::new(alloc),
            tasks: IndexSet::new(alloc),
            srbs: IndexSet::new(alloc),
            commands: 0,
            own: IndexSet::new(alloc),
            labels: IndexSet::new(alloc),
        }
    }

    // REGION that isn't the first card, a program, a unit or OPER behind OPER, and a command before it.
    fn is_unordered(&self, role: Role) -> bool
        ensures { result ≡ is_unordered self.now role }
    {
        match role {
            Role::Region => self.started,
            Role::Program | Role::Task | Role::Srb | Role::Commands => self.oper,
            Role::Command => !self.oper,
            Role::ProgramEnd | Role::End | Role::Line => false,
        }
    }

    fn is_misplaced(&self, role: Role) -> bool
        ensures { result ≡ is_misplaced_role self.now role }
    {
        self.ended || role.is_inside() != self.inside || self.is_unordered(role)
    }

    // Whether the name stands in its space before.
    fn is_doubled(&self, role: Role, name: &Option<Name>) -> bool
        ensures { result ≡ is_doubled_name self.now role name.now }
    {
        match role {
            Role::Program => has_given(&self.programs, name),
            Role::Task | Role::Srb => has_given(&self.units, name),
            Role::Line => has_given(&self.own, name),
            Role::Region | Role::ProgramEnd | Role::Commands | Role::Command | Role::End => false,
        }
    }

    // Whether it is one program, unit or command more than there may be.
    fn is_beyond(&self, role: Role) -> bool
        ensures { result ≡ is_beyond self.now role }
    {
        match role {
            Role::Program => self.programs.len() >= MOST_PROGRAMS,
            Role::Task | Role::Srb => self.units.len() >= MOST_UNITS,
            Role::Command => self.commands >= MOST_COMMANDS,
            Role::Region | Role::ProgramEnd | Role::Commands | Role::End | Role::Line => false,
        }
    }

    // Whether it is END though no task stands before.
    fn lacks_task(&self, role: Role) -> bool
        ensures { result ≡ lacks_task_role self.now role }
    {
        role == Role::End && self.tasks.is_empty()
    }

    /// The first rule of form that a card of that role and name breaks, where its operands can be read or not.
    pub(crate) fn broken_rule(
        &self,
        role: Role,
        name: &Option<Name>,
        is_readable: bool,
    ) -> Option<Why>
        ensures { result ≡ broken_rule self.now role name.now is_readable }
    {
        if role.is_misnamed(name) {
            Some(Why::BadCard)
        } else if self.is_misplaced(role) {
            Some(Why::WrongPlace)
        } else if !is_readable {
            Some(Why::BadOperand)
        } else if self.is_doubled(role, name) {
            Some(Why::DuplicateName)
        } else if self.is_beyond(role) {
            Some(Why::OverLimit)
        } else if self.lacks_task(role) {
            Some(Why::NoJobStep)
        } else {
            None
        }
    }

    /// Keeps what a card of that role and name says. The only error is want of memory.
    pub(crate) fn add(&mut self, role: Role, name: &Option<Name>) -> Result<(), NoMemory>
        requires { self.old.commands < 2 ^ 31 }
        ensures { OnOk result (self.new ≡ after self.old role name.now) }
    {
        self.started = true;
        match role {
            Role::Region => Ok(()),
            Role::Program => {
                self.inside = true;
                self.own.clear();
                put_name(&mut self.programs, name)
            }
            Role::ProgramEnd => {
                self.inside = false;
                Ok(())
            }
            Role::Task => {
                put_name(&mut self.units, name)?;
                put_name(&mut self.tasks, name)
            }
            Role::Srb => {
                put_name(&mut self.units, name)?;
                put_name(&mut self.srbs, name)
            }
            Role::Commands => {
                self.oper = true;
                Ok(())
            }
            Role::Command => {
                self.commands += 1;
                Ok(())
            }
            Role::End => {
                self.ended = true;
                Ok(())
            }
            Role::Line => {
                put_name(&mut self.own, name)?;
                put_name(&mut self.labels, name)
            }
        }
    }
}
