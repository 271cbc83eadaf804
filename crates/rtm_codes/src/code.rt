//! Completion codes.

ghost use Rattle.std.specs.Prelude.{◌≡◌, ◌↔◌, IsTrue};
ghost use Rattle.rtm_codes.specs.Code.{IsInRange, in_range};

/// The greatest number of a code in range, `FFF` as a system code.
pub(crate) const GREATEST_NUMBER: u16 = 4095;

/// The completion code of an abend (MVS System Codes). A code in range has a number of 0 to 4095.
#[derive(Clone, Copy, Debug, PartialEq, Eq, Hash)]
pub enum Code {
    /// A system completion code, three hexadecimal digits. 0 means normal end.
    Sys(u16),
    /// A user completion code.
    User(u16),
}

/// Whether the code's number is at most 4095, as the calls that write a code ask.
pub fn is_in_range(code: Code) -> bool
    ensures exact { IsTrue result ↔ IsInRange code }
    ensures value { result ≡ in_range code }
{
    match code {
        Code::Sys(number) | Code::User(number) => number <= GREATEST_NUMBER,
    }
}
