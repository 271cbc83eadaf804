//! Which of the operator's commands may arrive.

ghost use Rattle.std.specs.Prelude.{◌≡◌, ◌<◌, ◌≤◌, ◌==◌, ◌&&◌, ◌||◌, Some, None, Option, length, nat_le, not, slice_get, is_none};
ghost use Rattle.rtm_model.specs.Arrivals.{arrival_entry, arrival_fate, arrival_of, earlier_count, first_arrival, goes_on, is_cancellable, is_in_turn, may_arrive};
ghost use Rattle.rtm_cards.specs.Limits.{most_commands};
ghost use Rattle.rtm_model.specs.World.{unit_at};
ghost use Rattle.rtm_system_world.specs.Shape.{IsShaped};

use crate::world::World;
use rtm_deck_items::{Command, Deck};
use rtm_model::{Class, Entry, Fate, What};
use rtm_system_unit::UnitOfWork;

// How many commands before that one have that target.
fn earlier_count(commands: &[Command], target: u16, cmd: usize) -> usize
    ensures { result ≡ earlier_count target cmd commands.now }
{
    commands
        .iter()
        .take(cmd)
        .filter(|command| command.target == target)
        .count()
}

// How many commands of the unit of that number have arrived.
fn arrival_count_at(units: &[UnitOfWork], unit: u16) -> usize
    ensures { result ≡ (unit_at unit units.now).arrived }
{
    match units.get(unit as usize) {
        Some(state) => state.arrival_count() as usize,
        None => 0,
    }
}

// The entry of an arrival.
fn arrival_of(target: u16, cmd: u8, fate: Option<Fate>) -> Option<Entry>
    ensures { result ≡ arrival_of target cmd fate }
{
    match fate {
        None => None,
        Some(fate) => Some(Entry {
            unit: target,
            what: What::Arrive { cmd, fate },
        }),
    }
}

impl World {
    // Whether the unit can be cancelled.
    fn is_cancellable(&self, target: u16) -> bool
        ensures { result ≡ is_cancellable self.now target }
    {
        !self.is_late(target) && self.memory_end.is_none()
    }

    // Whether the target's earlier commands have arrived, and this one hasn't.
    #[tactic(auto, using(crate::proofs::Arriving::more_have_arrived))]
    fn is_in_turn(&self, deck: &Deck, target: u16, cmd: usize) -> bool
        ensures { result ≡ is_in_turn deck.now self.now target cmd }
    {
        let arrived = arrival_count_at(&self.units, target);
        // No more than `cmd` commands stand before that one, so where more have arrived none is counted.
        arrived <= cmd && earlier_count(&deck.commands, target, cmd) == arrived
    }

    // What becomes of the cancel that the command of that number posts, where it may arrive after `entries` entries;
    // `quiet` says that no unit has a next entry.
    fn arrival_fate(
        &self,
        deck: &Deck,
        entries: usize,
        quiet: bool,
        cmd: usize,
        command: Command,
    ) -> Option<Fate>
        ensures { result ≡ arrival_fate deck.now self.now entries quiet cmd (Some command) }
    {
        if (command.at as usize <= entries || quiet)
            && self.is_cancellable(command.target)
            && self.is_in_turn(deck, command.target, cmd)
        {
            Some(self.fate_in(command.target, Class::Cancel))
        } else {
            None
        }
    }

    /// What becomes of the cancel that the command of that number posts, where it may arrive after `entries` entries.
    /// Other units are asked only where fewer entries stand than the command wants.
    pub fn may_arrive(&self, deck: &Deck, entries: usize, cmd: u8) -> Option<Fate>
        requires shape { IsShaped deck.now self.now }
        ensures { result ≡ may_arrive deck.now self.now entries cmd }
    {
        match deck.commands.get(cmd as usize) {
            None => None,
            Some(command) => {
                let command = *command;
                let quiet = entries < command.at as usize && !self.goes_on(deck);
                self.arrival_fate(deck, entries, quiet, cmd as usize, command)
            }
        }
    }

    // The arrival of the command of that number, where it may arrive.
    fn arrival(
        &self,
        deck: &Deck,
        entries: usize,
        quiet: bool,
        cmd: usize,
        command: Command,
    ) -> Option<Entry>
        requires { cmd < most_commands }
        ensures { result
            ≡ arrival_of command.target cmd
            (arrival_fate deck.now self.now entries quiet cmd (Some command)) }
    {
        let fate = self.arrival_fate(deck, entries, quiet, cmd, command);
        arrival_of(command.target, cmd as u8, fate)
    }

    /// The arrival of the first command, in the order of the deck, that may arrive after `entries` entries; `quiet`
    /// says that no unit has a next entry.
    #[tactic(auto, using(crate::proofs::Arriving::arrives_here, crate::proofs::Arriving::arrives_later, crate::proofs::Arriving::arrives_never))]
    pub fn first_arrival(&self, deck: &Deck, entries: usize, quiet: bool) -> Option<Entry>
        requires few { length deck.now.commands ≤ most_commands }
        ensures { result ≡ first_arrival deck.now self.now entries quiet }
    {
        for cmd in 0..deck.commands.len() {
            let command = deck.commands[cmd];
            if let Some(entry) = self.arrival(deck, entries, quiet, cmd, command) {
                return Some(entry);
            }
        }
        None
    }
}
