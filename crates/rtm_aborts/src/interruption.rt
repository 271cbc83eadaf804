//! Whether a pending abort may land.

ghost use Rattle.std.specs.Prelude.{◌≡◌};
ghost use Rattle.rtm_model.specs.Aborts.{is_interruptible};

/// Whether a pending abort lands in a unit that lives and has not begun to end (this profile): no FRR of it lives, no
/// bracket shields it, no abort that forbids retry has landed in it, and no error is open in its innermost bracket.
pub fn interruptible(frr_lives: bool, shielded: bool, doomed: bool, error_open: bool) -> bool
    ensures { result ≡ is_interruptible frr_lives shielded doomed error_open }
{
    !frr_lives && !shielded && !doomed && !error_open
}
