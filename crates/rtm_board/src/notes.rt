//! Notes: commands that were taken from the board.

ghost use Rattle.std.specs.Prelude.{◌≡◌, ◌<◌, ◌↔◌, if◌then◌else◌, IfSome, IfNone, IsNone, OnSome, Some, None};
ghost use Rattle.rtm_board.specs.Commands.{no_commands, has, with_one, without_one, union_of, IsLeast};

use crate::bits;
use std::marker::Model;

/// A command that was posted, and that came off the board.
///
/// A contract sees it as the command's number in the deck, from 0, at most 63.
#[derive(Debug, Drop)]
pub struct Note {
    cmd: u8,
}

impl Model for Note {
    ghost use Rattle.std.specs.Prelude.{ℕ, ◌<◌};

    ghost Value = { ℕ };

    ghost view = { λ a. a.cmd };

    ghost invariant = { λ a. a.cmd < 64 };
}

impl Note {
    /// The command's number, from 0, at most 63.
    pub fn cmd(&self) -> u8
        ensures value { result ≡ self.now }
        ensures below { result < 64 }
    {
        self.cmd
    }
}

/// A set of notes, each of another command.
///
/// A contract sees it as a set of commands: a number of 64 bits, in which the bit of each command's number stands.
#[derive(Debug, Drop)]
pub struct Notes {
    set: u64,
}

impl Model for Notes {
    ghost use Rattle.std.specs.Prelude.{ℕ};

    ghost Value = { ℕ };

    ghost view = { λ a. a.set };
}

/// The notes of the commands of a word.
pub(crate) fn notes_of(set: u64) -> Notes
    ensures { result ≡ set }
{
    Notes { set }
}

impl Notes {
    /// No note.
    pub fn none() -> Notes
        ensures { result ≡ no_commands }
    {
        Notes { set: 0 }
    }

    /// Takes the note of the least command out, if there is one.
    pub fn next(&mut self) -> Option<Note>
        ensures least { IfSome result (λ note. IsLeast self.old note) }
        ensures left { IfSome result (λ note. self.new ≡ without_one note self.old) }
        ensures empty { IsNone result ↔ (self.old ≡ no_commands) }
        ensures none { IfNone result (self.new ≡ self.old) }
    {
        let cmd = bits::least_command(self.set)?;
        self.set = bits::without_one(self.set, cmd);
        Some(Note { cmd })
    }

    /// Takes the note of that command out, if it is there.
    #[tactic(auto, using(crate::proofs::Sets::has_above))]
    pub fn pick(&mut self, cmd: u8) -> Option<Note>
        ensures which { result ≡ (if has cmd self.old then Some cmd else None) }
        ensures left { self.new
            ≡ (if has cmd self.old then without_one cmd self.old else self.old) }
    {
        if cmd >= 64 || !bits::has(self.set, cmd) {
            return None;
        }
        self.set = bits::without_one(self.set, cmd);
        Some(Note { cmd })
    }

    /// Adds the note; a command that is there already stands once.
    pub fn put_back(&mut self, note: Note)
        ensures { self.new ≡ with_one note self.old }
    {
        self.set = bits::with_one(self.set, note.cmd);
    }

    /// Whether the note of that command is there.
    pub fn has(&self, cmd: u8) -> bool
        ensures { result ≡ has cmd self.now }
    {
        bits::has(self.set, cmd)
    }

    /// Adds the other's notes; a command that is in both stands once.
    pub fn join(&mut self, other: Notes)
        ensures { self.new ≡ union_of self.old other }
    {
        self.set |= other.set;
    }
}
