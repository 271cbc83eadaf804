//! The operator's commands on one thread: the console posts them all, and the board is closed before a unit takes any.

ghost use Rattle.std.specs.Prelude.{◌≡◌, ◌≤◌, ◌<◌, ℕ, IfOk, List, length, true};
ghost use Rattle.rtm_board.specs.Commands.{has};
ghost use Rattle.rtm_board.specs.View.{AreAccountedFor, UnitView};
ghost use Rattle.rtm_board.specs.All.{AreAll};

use crate::board::Board;
use crate::notes::Notes;
use crate::seats::ConsoleSeat;
use rtm_codes::NoMemory;
use rtm_deck_items::Deck;
use std::alloc::Global;

// Posts a command of the deck.
#[tactic(auto, using(crate::proofs::Posting::same_targets, crate::proofs::Posting::posted_now, crate::proofs::Posting::posted_before))]
fn post(board: &mut Board, console: &mut ConsoleSeat, cmd: u8)
    requires targets { console.old.targets ≡ board.old.targets }
    requires command { cmd < length board.old.targets }
    ensures targets { console.new.targets ≡ board.new.targets }
    ensures count { length board.new.targets ≡ length board.old.targets }
    ensures accounts { (seats : List UnitView) → AreAccountedFor board.old console.old seats
        → AreAccountedFor board.new console.new seats }
    ensures this { has cmd console.new.posted ≡ true }
    ensures others { (other : ℕ) → has other console.old.posted ≡ true
        → has other console.new.posted ≡ true }
{
    let _posted = board.post(console, cmd);
}

// Posts the first commands of the deck, so many.
fn post_all(board: &mut Board, console: &mut ConsoleSeat, count: u8)
    requires targets { console.old.targets ≡ board.old.targets }
    requires count { count ≤ length board.old.targets }
    ensures targets { console.new.targets ≡ board.new.targets }
    ensures accounts { (seats : List UnitView) → AreAccountedFor board.old console.old seats
        → AreAccountedFor board.new console.new seats }
    ensures posted { (cmd : ℕ) → cmd < count → has cmd console.new.posted ≡ true }
{
    'commands: for cmd in 0..count {
        post(board, console, cmd);
    }
}

// How many commands the deck has, at most 64.
fn command_count(deck: &Deck) -> u8
    ensures { result ≡ length deck.now.commands }
{
    deck.keeps_its_form();
    deck.commands.len() as u8
}

/// The notes of all commands of the deck, off the operator's board.
pub fn all_notes(alloc: Global, deck: &Deck) -> Result<Notes, NoMemory>
    ensures { IfOk result (AreAll deck.now) }
{
    deck.keeps_its_form();
    let (mut board, mut console, seats) = Board::make(alloc, deck)?;
    post_all(&mut board, &mut console, command_count(deck));
    Ok(board.close(console, seats))
}
