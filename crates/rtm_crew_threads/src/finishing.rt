//! The end of a run: what the workers have left is made by the caller.

ghost use Rattle.std.specs.Prelude.{◌≡◌, Some};
ghost use Rattle.rtm_board.specs.All.{AreAll};
ghost use Rattle.rtm_model.specs.Legal.{end_of};

use crate::gate::Gate;
use crate::running::count_of;
use rtm_board::Notes;
use rtm_crew::Region;
use rtm_desk::Manager;
use rtm_model::End;

/// Makes all entries that are left, in turns, and answers how the history ends.
pub(crate) fn finish<M: Manager, G: Gate>(
    region: &mut Region<M>,
    notes: &mut Notes,
    gate: &G,
) -> End
    requires notes { AreAll region.old.system.deck notes.old }
    ensures end { end_of region.new.system.deck region.new.system.trace ≡ Some result }
    ensures deck { region.new.system.deck ≡ region.old.system.deck }
{
    let mut turn = 0;
    'turns: loop {
        match region.system().turn(turn) {
            Ok(entry) => {
                turn = region.system().turn_after(turn, &entry);
                let index = count_of(region.system());
                region.make_next(notes, entry);
                gate.made(index, &entry);
            }
            Err(end) => return end,
        }
    }
}
