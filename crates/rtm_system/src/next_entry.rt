//! The entry that is to stand next, made: an arrival by the note of its command, any other as it is.

ghost use Rattle.std.specs.Prelude.{◌≡◌, ◌<◌, ◌++◌, ◌∷◌, [], ℕ, Some, length, true};
ghost use Rattle.rtm_board.specs.All.{AreAll};
ghost use Rattle.rtm_board.specs.Commands.{has};
ghost use Rattle.rtm_model.specs.Arrivals.{arrival};
ghost use Rattle.rtm_model.specs.Advance.{world};
ghost use Rattle.rtm_system.specs.Turned.{IsNext};

use crate::system::System;
use rtm_board::Notes;
use rtm_model::{Entry, What};

impl System {
    // Makes the arrival that is to stand next: its command's note is taken out, shown and put back.
    #[tactic(auto, using(crate::proofs::Shown::kept))]
    fn show(&mut self, notes: &mut Notes, cmd: u8, entry: Entry)
        requires next { IsNext self.old.deck self.old.trace entry }
        requires arrival { arrival self.old.deck (world self.old.deck self.old.trace)
            (length self.old.trace) cmd ≡ Some entry }
        requires there { has cmd notes.old ≡ true }
        requires below { cmd < 64 }
        ensures trace { self.new.trace ≡ self.old.trace ++ entry ∷ [] }
        ensures deck { self.new.deck ≡ self.old.deck }
        ensures notes { (other : ℕ) → other < 64 → has other notes.old ≡ true
            → has other notes.new ≡ true }
    {
        match notes.pick(cmd) {
            None => unreachable!("the note of each command is there"),
            Some(note) => {
                let _made = self.arrive(&note);
                notes.put_back(note);
            }
        }
    }

    /// Makes the entry that is to stand next, as a turn finds it or a judge is told it. Nothing is sought: only an
    /// arrival is tested once more, by its note.
    pub fn make_next(&mut self, notes: &mut Notes, entry: Entry)
        requires next { IsNext self.old.deck self.old.trace entry }
        requires notes { AreAll self.old.deck notes.old }
        ensures trace { self.new.trace ≡ self.old.trace ++ entry ∷ [] }
        ensures deck { self.new.deck ≡ self.old.deck }
        ensures notes { AreAll self.new.deck notes.new }
    {
        self.deck().keeps_its_form();
        match entry.what {
            What::Arrive { cmd, .. } => self.show(notes, cmd, entry),
            _ => self.append(entry),
        }
    }
}
