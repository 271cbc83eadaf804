//! A law of choices. The function does nothing: its contract is the law.

ghost use Rattle.std.specs.Prelude.{◌≡◌, ℕ, Bool, List};
ghost use Rattle.rtm_model.specs.declared.reg.Reg.{Reg};
ghost use Rattle.rtm_model.specs.Levels.{first_eligible};
ghost use Rattle.rtm_percolate.specs.Choices.{eligible_routines, first};

/// The routine that gets control is the first of the list of eligible routines, and none does where that is empty.
pub fn the_first_of_the_eligible_gets_control()
    ensures { (depth : ℕ) (term_only : Bool) (frrs estaes estais : List Reg) →
        first_eligible depth term_only frrs estaes estais
        ≡ first (eligible_routines depth term_only frrs estaes estais) }
{}
