//! Each posted command comes out once.

ghost use Rattle.std.specs.Prelude.{◌≡◌, length};
ghost use Rattle.rtm_board.specs.View.{AreAccountedFor};

use crate::board::board_with_seats;
use crate::notes::notes_of;
use crate::{Board, ConsoleSeat, Notes, Posted, UnitSeat};
use std::test::Fail;

#[derive(Clone, Copy, Debug)]
enum BoardStep {
    Post(u8),
    Take(u16),
}

// Which of the first four commands there are notes of.
fn commands_in(notes: &Notes) -> [bool; 4] {
    [0, 1, 2, 3].map(|cmd| notes.has(cmd))
}

// Does the step, and tells what a post finds, or which commands are taken.
fn board_step(
    board: &mut Board,
    console: &mut ConsoleSeat,
    seats: &mut Vec<UnitSeat>,
    step: BoardStep,
) -> (Option<Posted>, [bool; 4])
    requires targets { console.old.targets ≡ board.old.targets }
    requires four { length board.old.targets ≡ 4 }
    requires accounted { AreAccountedFor board.old console.old seats.old.items }
    ensures targets { console.new.targets ≡ board.new.targets }
    ensures four { length board.new.targets ≡ 4 }
    ensures accounted { AreAccountedFor board.new console.new seats.new.items }
{
    match step {
        BoardStep::Post(cmd) => {
            if cmd >= 4 {
                return (None, [false; 4]);
            }
            (Some(board.post(console, cmd)), [false; 4])
        }
        BoardStep::Take(unit) => {
            if unit as usize >= seats.len() {
                return (None, [false; 4]);
            }
            let notes = board.take(&mut seats[unit as usize]);
            (None, commands_in(&notes))
        }
    }
}

#[test]
fn gives_each_command_once(rt: HostRuntime) -> Result<(), Fail> {
    // Commands 0 and 1 are for unit 0, command 2 for unit 2, and command 3 for unit 1.
    let targets = Vec::from_slice(rt.alloc(), &[0, 0, 2, 1])?;
    let (mut board, mut console, mut seats) = board_with_seats(rt.alloc(), 3, targets)?;
    let nothing = [false; 4];
    let steps = [
        (BoardStep::Take(0), None, nothing),
        (BoardStep::Post(0), Some(Posted::Now), nothing),
        (BoardStep::Post(1), Some(Posted::Now), nothing),
        (BoardStep::Post(0), Some(Posted::Already), nothing),
        (BoardStep::Take(1), None, nothing),
        // Both at once, and then none.
        (BoardStep::Take(0), None, [true, true, false, false]),
        (BoardStep::Take(0), None, nothing),
        (BoardStep::Post(1), Some(Posted::Already), nothing),
        (BoardStep::Take(0), None, nothing),
        (BoardStep::Post(3), Some(Posted::Now), nothing),
        (BoardStep::Post(2), Some(Posted::Now), nothing),
        (BoardStep::Take(1), None, [false, false, false, true]),
    ];
    for index in 0..12 {
        let (step, posted, taken) = steps[index];
        let found = board_step(&mut board, &mut console, &mut seats, step);
        assert_eq!(rt; found.0, posted, "at {step:?}");
        assert_eq!(rt; found.1, taken, "at {step:?}");
    }
    let rest = board.close(console, seats);
    assert_eq!(rt; commands_in(&rest), [false, false, true, false]);
    Ok(())
}

#[test]
fn notes_are_a_set(rt: HostRuntime) {
    let mut notes = notes_of(1 << 63 | 1 << 40 | 1 << 5 | 1);
    let five = notes.pick(5).expect(&rt, "a note of command 5");
    assert_eq!(rt; five.cmd(), 5);
    assert!(rt; notes.pick(5).is_none() && notes.pick(255).is_none());
    assert!(rt; !notes.has(5) && !notes.has(200) && notes.has(63));
    let mut others = Notes::none();
    assert!(rt; others.next().is_none());
    others.put_back(five);
    others.join(notes_of(1 << 40 | 1 << 7));
    notes.join(others);
    for cmd in [0, 5, 7, 40, 63] {
        assert_eq!(rt; notes.next().map(|note| note.cmd()), Some(cmd));
    }
    assert!(rt; notes.next().is_none());
}
