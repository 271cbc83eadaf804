//! Each law is the contract of a function that does nothing.

ghost use Rattle.std.specs.Prelude.{IsTrue, List, ℕ, ◌++◌, ◌<◌};
ghost use Rattle.rtm_deck_items.specs.View.{DeckView};
ghost use Rattle.rtm_deck_items.specs.WellFormed.{is_well_formed};
ghost use Rattle.rtm_model.specs.Advance.{world};
ghost use Rattle.rtm_model.specs.ChainLaw.{ChainLaw};
ghost use Rattle.rtm_model.specs.Course.{HasCourses};
ghost use Rattle.rtm_model.specs.Eligible.{AreFalling};
ghost use Rattle.rtm_model.specs.Legal.{Legal};
ghost use Rattle.rtm_model.specs.Moments.{IsIn, core_before};
ghost use Rattle.rtm_model.specs.World.{Core, core_at};
ghost use Rattle.rtm_model.specs.declared.entry.Entry.{Entry};
ghost use Rattle.rtm_model.specs.declared.reg.Reg.{Reg};

/// Each error of a legal history has a course: entry by entry its next routine is entered, runs and is left under its
/// own name, until it ends.
pub fn each_error_has_a_course()
    ensures { (d : DeckView) (h : List Entry) → IsTrue (is_well_formed d) → Legal d h
        → HasCourses d h }
{}

/// Each error of a legal history enters the routines that are eligible for it in their order, each once, and from a
/// failure by a TERM-only record on those with TERM=YES alone. Each is left under its own name. The error ends by a
/// valid retry, by BEGIN after a Stop, by its bracket's failure or BEGIN once the whole list was entered, or by a
/// purge.
pub fn each_error_keeps_the_law_of_chains()
    ensures { (d : DeckView) (h : List Entry) → IsTrue (is_well_formed d) → Legal d h
        → ChainLaw d h }
{}

/// Each FRR of a unit is younger than each of its ESTAE routines, since ESTAEX is an error while an FRR lives.
pub fn each_frr_is_younger_than_each_estae_routine()
    ensures { (d : DeckView) (h : List Entry) (u : ℕ) (frr estae : Reg)
        → IsTrue (is_well_formed d) → Legal d h → IsIn frr (Core.frrs (core_at u (world d h)))
        → IsIn estae (Core.estaes (core_at u (world d h))) → estae.born < frr.born }
{}

/// At every moment of a legal history the FRRs of a unit, and behind them its ESTAE routines, stand in one order: each
/// is older than the one before it.
pub fn recovery_routines_stand_in_one_order()
    ensures { (d : DeckView) (h : List Entry) (i u : ℕ) → IsTrue (is_well_formed d) → Legal d h
        → AreFalling (Core.frrs (core_before d h i u) ++ Core.estaes (core_before d h i u)) }
{}
