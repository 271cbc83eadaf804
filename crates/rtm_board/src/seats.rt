//! The seats of a board: the console's, and one for each unit.

use std::marker::Model;

/// The seat from which the console posts commands, at the board that it was made with.
///
/// A contract sees the unit that each command of the deck is for, and the commands that were posted.
#[derive(Drop)]
pub struct ConsoleSeat {
    pub(crate) targets: Vec<u16>,
    pub(crate) posted: u64,
}

impl Model for ConsoleSeat {
    ghost use Rattle.rtm_board.specs.View.{ConsoleView, IsConsole};

    ghost Value = { ConsoleView };

    ghost view = { λ a. record { targets = a.targets.items; posted = a.posted } };

    ghost invariant = { λ a. IsConsole a.targets.items a.posted };
}

/// The seat from which a unit takes the commands that were posted to it, at the board that it was made with.
///
/// A contract sees the unit's number, the commands of the deck for it, and those that it has taken.
#[derive(Drop)]
pub struct UnitSeat {
    pub(crate) unit: u16,
    pub(crate) commands: u64,
    pub(crate) taken: u64,
}

impl Model for UnitSeat {
    ghost use Rattle.rtm_board.specs.View.{UnitView};

    ghost Value = { UnitView };

    ghost view = { λ a. record { unit = a.unit; commands = a.commands; taken = a.taken } };
}
