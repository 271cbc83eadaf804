//! Whose turn it is on a single thread, and which entries may follow.

ghost use Rattle.std.specs.Prelude.{◌≡◌, ◌≤◌, ◌+◌, ◌==◌, ◌↔◌, IfErr, IfOk, IsTrue, Some, if◌then◌else◌, length, suc};
ghost use Rattle.rtm_model.specs.Arrivals.{arrival};
ghost use Rattle.rtm_model.specs.Advance.{world};
ghost use Rattle.rtm_model.specs.Legal.{MayFollow, end_of};
ghost use Rattle.rtm_model.specs.NextEntry.{next};
ghost use Rattle.rtm_model.specs.Turns.{seq_step, turn, turn_after};
ghost use Rattle.rtm_system.specs.Turned.{IsNext, arriving_command, turn_of, wanted_entry};

use crate::same::{is_entry, is_next};
use crate::system::System;
use rtm_model::{End, Entry, What};
use rtm_system_world::Glance;

// The unit after `unit`, round past the master, whose number is `count`.
fn unit_after(count: u16, unit: u16) -> u16
    requires { unit ≤ count }
    ensures { result ≡ (if unit == count then 0 else unit + 1) }
{
    if unit == count { 0 } else { unit + 1 }
}

// The command whose arrival the entry is.
fn arriving_command(what: What) -> Option<u8>
    ensures { result ≡ arriving_command what }
{
    match what {
        What::Arrive { cmd, .. } => Some(cmd),
        _ => None,
    }
}

impl System {
    // The entry of the first unit that has one, from `first` on and round past the master. Most units wait, and are
    // passed over at a glance, which sees the cards too that are met most.
    #[tactic(auto, using(crate::proofs::Rounds::round_begins, crate::proofs::Rounds::round_skips, crate::proofs::Rounds::round_finds, crate::proofs::Rounds::round_ends))]
    fn round(&self, first: u16) -> Option<Entry>
        requires { first ≤ length self.now.deck.units }
        ensures { result
            ≡ turn self.now.deck (world self.now.deck self.now.trace) first
            (suc (length self.now.deck.units)) }
    {
        let count = self.deck().unit_count();
        let mut unit = first;
        'units: for _tried in 0..u32::from(count) + 1 {
            match self.glance(unit) {
                Glance::Idle => {}
                Glance::Executes(at) => {
                    let what = What::Exec { at, rc: 0 };
                    return Some(Entry { unit, what });
                }
                Glance::Unseen => {
                    if let Some(what) = self.next(unit) {
                        return Some(Entry { unit, what });
                    }
                }
            }
            unit = unit_after(count, unit);
        }
        None
    }

    // The first arrival, else the entry of the first unit that has one. Neither the end nor the limit is asked.
    #[tactic(auto, using(crate::proofs::Rounds::step_is, crate::proofs::Rounds::plain_step))]
    fn seq_step(&self, first: u16) -> Option<Entry>
        requires { first ≤ length self.now.deck.units }
        ensures { result
            ≡ seq_step self.now.deck (world self.now.deck self.now.trace)
            (length self.now.trace) first }
    {
        let made = self.round(first);
        if self.has_no_commands() {
            return made;
        }
        let arrival = self.first_arrival(made.is_none());
        arrival.or(made)
    }

    /// The entry that a single thread makes next, where the turn is at the unit of that number: the first arrival,
    /// else that of the first unit from there on, round past the master, that has one. Where there is none to be
    /// made, how the history ends.
    #[tactic(auto, using(crate::proofs::Rounds::over_ends))]
    pub fn turn(&self, first: u16) -> Result<Entry, End>
        requires { first ≤ length self.now.deck.units }
        ensures which { IfOk result (λ e. turn_of self.now.deck self.now.trace first ≡ Some e) }
        ensures end { IfErr result (λ end. end_of self.now.deck self.now.trace ≡ Some end) }
        ensures follows { IfOk result (IsNext self.now.deck self.now.trace) }
        ensures in_deck { IfOk result (λ e. e.unit ≤ length self.now.deck.units) }
    {
        self.is_in_deck();
        if self.has_ended() {
            return Err(End::Ended);
        }
        match self.seq_step(first) {
            None => Err(End::Stalled),
            Some(_) if self.is_at_limit() => Err(End::Limit),
            Some(entry) => Ok(entry),
        }
    }

    /// Whose turn comes once the entry is made: that of the unit behind its own, round past the master. An arrival
    /// leaves the turn where it is.
    pub fn turn_after(&self, turn: u16, entry: &Entry) -> u16
        requires turn { turn ≤ length self.now.deck.units }
        requires unit { entry.now.unit ≤ length self.now.deck.units }
        ensures next { result ≡ turn_after self.now.deck turn entry.now.unit entry.now.what }
        ensures in_deck { result ≤ length self.now.deck.units }
    {
        match entry.what {
            What::Arrive { .. } => turn,
            _ => unit_after(self.deck().unit_count(), entry.unit),
        }
    }

    /// The arrival of the command of that number, where it may arrive.
    pub(crate) fn arrival(&self, cmd: u8) -> Option<Entry>
        ensures { result
            ≡ arrival self.now.deck (world self.now.deck self.now.trace)
            (length self.now.trace) cmd }
    {
        match self.may_arrive(cmd) {
            None => None,
            Some(fate) => Some(Entry {
                unit: self.target_of(cmd),
                what: What::Arrive { cmd, fate },
            }),
        }
    }

    // Whether the entry is the one that its unit, or the command that it lets arrive, makes now. The limit isn't asked.
    #[tactic(auto, using(crate::proofs::Firsts::arrival_may, crate::proofs::Firsts::next_may))]
    fn may_stand(&self, entry: &Entry) -> bool
        ensures { IsTrue result
            ↔ MayFollow self.now.deck (world self.now.deck self.now.trace) (length self.now.trace)
            entry.now entry.now.what }
    {
        match arriving_command(entry.what) {
            Some(cmd) => is_entry(self.arrival(cmd), *entry),
            None => is_next(self.next(entry.unit), entry.what),
        }
    }

    /// Whether the entry may stand next.
    pub fn may_follow(&self, entry: &Entry) -> bool
        ensures { IsTrue result ↔ IsNext self.now.deck self.now.trace entry.now }
    {
        !self.is_at_limit() && self.may_stand(entry)
    }

    /// The one entry that the unit of that number may make next: none where it has none, where there is no such unit,
    /// and where the history has as many entries as it may have.
    pub fn wanted_entry(&self, unit: u16) -> Option<Entry>
        ensures { result ≡ wanted_entry self.now.deck self.now.trace unit }
    {
        if self.is_at_limit() {
            return None;
        }
        match self.next(unit) {
            None => None,
            Some(what) => Some(Entry { unit, what }),
        }
    }
}
