//! What a card is in the order of a deck.

ghost use Rattle.std.specs.Prelude.{◌≡◌};
ghost use Rattle.rtm_deck.specs.inner.Roles.{role_of, is_inside_role, is_line, is_program_role, is_misnamed_role};

use rtm_deck_items::{CardForm, Name};

/// What a card is in the order of a deck: a card of its frame, or a line of a program.
#[derive(Clone, Copy, Debug, PartialEq, Eq)]
pub(crate) enum Role {
    Region,
    Program,
    ProgramEnd,
    Task,
    Srb,
    Commands,
    Command,
    End,
    Line,
}

/// The role of the cards of a form.
pub(crate) fn role_of(form: CardForm) -> Role
    ensures { result ≡ role_of form }
{
    match form {
        CardForm::Region => Role::Region,
        CardForm::Prog => Role::Program,
        CardForm::Pend => Role::ProgramEnd,
        CardForm::Task => Role::Task,
        CardForm::Srb => Role::Srb,
        CardForm::Oper => Role::Commands,
        CardForm::Cancel => Role::Command,
        CardForm::End => Role::End,
        _ => Role::Line,
    }
}

impl Role {
    /// Whether the card stands between PROG and PEND, or is PEND.
    pub(crate) fn is_inside(self) -> bool
        ensures { result ≡ is_inside_role self }
    {
        matches!(self, Role::ProgramEnd | Role::Line)
    }

    pub(crate) fn is_line(self) -> bool
        ensures { result ≡ is_line self }
    {
        matches!(self, Role::Line)
    }

    pub(crate) fn is_program(self) -> bool
        ensures { result ≡ is_program_role self }
    {
        matches!(self, Role::Program)
    }

    /// Whether a name stands where none may, or none where one must.
    pub(crate) fn is_misnamed(self, name: &Option<Name>) -> bool
        ensures { result ≡ is_misnamed_role self name.now }
    {
        match self {
            Role::Program | Role::Task | Role::Srb => name.is_none(),
            Role::Line => false,
            Role::Region | Role::ProgramEnd | Role::Commands | Role::Command | Role::End => {
                name.is_some()
            }
        }
    }
}
