//! The operator's board: how it is opened, posted to, taken from and closed.

ghost use Rattle.std.specs.Prelude.{◌≡◌, ◌≢◌, ◌<◌, ◌≤◌, ◌+◌, ◌&&◌, ◌||◌, true, false, ℕ, length, map, replicate, slice_index, slice_set, if◌then◌else◌, vec_len, IfOk};
ghost use Rattle.std.specs.List.{AllByRecursion, range_with_len};
ghost use Rattle.rtm_board.specs.Commands.{no_commands, has, with_one, union_of};
ghost use Rattle.rtm_board.specs.View.{ConsoleView, UnitView, targets_of, commands_for, word_of, with_word, with_command, all_of, commands_taken_by, opening_seat, IsSeatOf, AreSeatsFrom, IsAccountedFor, AreAccountedFor, IsOpening};

use crate::bits;
use crate::notes::{Notes, notes_of};
use crate::seats::{ConsoleSeat, UnitSeat};
use rtm_codes::NoMemory;
use rtm_deck_items::Deck;
use std::alloc::Global;
use std::marker::Model;

/// What a post finds.
#[derive(Clone, Copy, Debug, PartialEq, Eq)]
pub enum Posted {
    /// The command was posted now.
    Now,
    /// The console has posted it before.
    Already,
}

/// The operator's board of a deck: a word for each unit, with the commands that were posted to it and that it hasn't
/// taken.
///
/// A contract sees the unit that each command of the deck is for, by the command's number, and the unit's words, by the
/// unit's number. How the words fit what the console has posted and what the units have taken is said by
/// `IsAccountedFor`, which every call keeps.
#[derive(Drop)]
pub struct Board {
    targets: Vec<u16>,
    words: Vec<u64>,
}

impl Model for Board {
    ghost use Rattle.rtm_board.specs.View.{BoardView, IsBoard};

    ghost Value = { BoardView };

    ghost view = { λ a. record { targets = a.targets.items; words = a.words.items } };

    ghost invariant = { λ a. IsBoard a.targets.items a.words.items };
}

fn targets_of(alloc: Global, deck: &Deck) -> Result<Vec<u16>, NoMemory>
    ensures { IfOk result (λ targets. targets.items ≡ targets_of deck.now) }
{
    let targets = deck.commands.iter().map(|command| command.target);
    Ok(targets.collect(alloc)?)
}

fn empty_words(alloc: Global, units: u16) -> Result<Vec<u64>, NoMemory>
    ensures { IfOk result (λ words. words.items ≡ replicate units no_commands) }
{
    Ok(vec![in alloc; 0u64; units as usize]?)
}

#[tactic(auto, using(crate::proofs::Opening::seats_count, crate::proofs::Opening::one_more_seat))]
fn opening_seats(alloc: Global, units: u16, targets: &[u16]) -> Result<Vec<UnitSeat>, NoMemory>
    requires { length targets.now ≤ 64 }
    ensures { IfOk result
        (λ seats. seats.items ≡ map (opening_seat targets.now) (range_with_len 0 units)) }
{
    let mut seats = Vec::with_capacity(alloc, units as usize)?;
    for unit in 0..units {
        seats.push_reserved(UnitSeat {
            unit,
            commands: bits::commands_for(targets, unit),
            taken: 0,
        });
    }
    Ok(seats)
}

// Puts the command into the word of its unit.
fn post_to(words: &mut Vec<u64>, unit: u16, cmd: u8)
    requires unit { unit < length words.old.items }
    requires command { cmd < 64 }
    ensures { words.new.items
        ≡ slice_set words.old.items unit (with_one cmd (slice_index words.old.items unit)) }
{
    words[unit as usize] = bits::with_one(words[unit as usize], cmd);
}

// Empties the unit's word, and gives what stood in it.
fn take_from(words: &mut Vec<u64>, unit: u16) -> u64
    requires { unit < length words.old.items }
    ensures value { result ≡ slice_index words.old.items unit }
    ensures words { words.new.items ≡ slice_set words.old.items unit no_commands }
{
    let word = words[unit as usize];
    words[unit as usize] = 0;
    word
}

// What stands in all words.
fn all_of(words: &[u64]) -> u64
    ensures { result ≡ all_of words.now }
{
    let mut all = 0;
    let mut left = words.len();
    'words: while left > 0 {
        left -= 1;
        all = words[left] | all;
    }
    all
}

/// A board for so many units, where the list has the unit of each command, and its seats.
pub(crate) fn board_with_seats(
    alloc: Global,
    units: u16,
    targets: Vec<u16>,
) -> Result<(Board, ConsoleSeat, Vec<UnitSeat>), NoMemory>
    requires few { length targets.items ≤ 64 }
    requires units { AllByRecursion (λ target. target < units) targets.items }
    ensures { IfOk result (λ made. IsOpening targets.items units made.0 made.1 made.2.items) }
{
    let posting = Vec::from_slice(alloc, &targets)?;
    let words = empty_words(alloc, units)?;
    let seats = opening_seats(alloc, units, &targets)?;
    let console = ConsoleSeat {
        targets: posting,
        posted: 0,
    };
    Ok((Board { targets, words }, console, seats))
}

impl Board {
    /// A board for the deck, with the console's seat and a seat for each unit, in their order. Nothing is posted, and
    /// nothing is taken. This call takes all memory.
    pub fn make(alloc: Global, deck: &Deck) -> Result<(Board, ConsoleSeat, Vec<UnitSeat>), NoMemory>
        ensures { IfOk result
            (λ made.
            IsOpening (targets_of deck.now) (length deck.now.units) made.0 made.1 made.2.items) }
    {
        deck.keeps_its_form();
        let targets = targets_of(alloc, deck)?;
        board_with_seats(alloc, deck.unit_count(), targets)
    }

    /// Posts a command of the deck to its unit. `Already` where the console has posted it before; then nothing changes.
    pub fn post(&mut self, seat: &mut ConsoleSeat, cmd: u8) -> Posted
        requires board { seat.old.targets ≡ self.old.targets }
        requires command { cmd < length self.old.targets }
        ensures which { result ≡ (if has cmd seat.old.posted then Posted.Already else Posted.Now) }
        ensures board { self.new
            ≡ (if has cmd seat.old.posted then self.old else with_command cmd self.old) }
        ensures seat { seat.new
            ≡ (if has cmd seat.old.posted then seat.old
            else record seat.old { posted = with_one cmd seat.old.posted }) }
        ensures accounted { (unit : UnitView) → IsAccountedFor self.old seat.old unit
            → IsAccountedFor self.new seat.new unit }
    {
        if bits::has(seat.posted, cmd) {
            return Posted::Already;
        }
        post_to(&mut self.words, self.targets[cmd as usize], cmd);
        seat.posted = bits::with_one(seat.posted, cmd);
        Posted::Now
    }

    /// Takes the commands that stand in the word of the seat's unit, and empties it. Each is one of the deck's for
    /// that unit.
    pub fn take(&mut self, seat: &mut UnitSeat) -> Notes
        requires { IsSeatOf self.old seat.old }
        ensures notes { result ≡ word_of seat.old.unit self.old }
        ensures board { self.new ≡ with_word seat.old.unit no_commands self.old }
        ensures seat { seat.new ≡ record seat.old { taken = union_of seat.old.taken result } }
        ensures own { (cmd : ℕ) → has cmd result ≡ true → has cmd seat.old.commands ≡ true }
        ensures accounted { (console : ConsoleView) → IsAccountedFor self.old console seat.old
            → IsAccountedFor self.new console seat.new }
        ensures others { (console : ConsoleView) (unit : UnitView) → unit.unit ≢ seat.old.unit
            → IsAccountedFor self.old console unit → IsAccountedFor self.new console unit }
    {
        let word = take_from(&mut self.words, seat.unit);
        seat.taken |= word;
        notes_of(word)
    }

    /// Takes the board away with all its seats, and gives what still stands in its words: what was posted and wasn't
    /// taken.
    pub fn close(self, console: ConsoleSeat, seats: Vec<UnitSeat>) -> Notes
        requires console { console.targets ≡ self.targets }
        requires seats { AreSeatsFrom self 0 seats.items }
        ensures notes { result ≡ all_of self.words }
        ensures posted { AreAccountedFor self console seats.items → (cmd : ℕ) →
            (has cmd result || has cmd (commands_taken_by seats.items)) ≡ has cmd console.posted }
        ensures never_both { AreAccountedFor self console seats.items → (cmd : ℕ) →
            (has cmd result && has cmd (commands_taken_by seats.items)) ≡ false }
    {
        notes_of(all_of(&self.words))
    }
}
