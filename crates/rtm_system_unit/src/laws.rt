//! Laws that the calls of a unit rest on. Each function does nothing: its contract is the law.

ghost use Rattle.std.specs.Prelude.{ℕ, ◌<◌, ◌≤◌, IsTrue, Option, length};
ghost use Rattle.rtm_deck_items.specs.View.{DeckView};
ghost use Rattle.rtm_deck_items.specs.WellFormed.{is_well_formed};
ghost use Rattle.rtm_model.specs.Aborts.{first_abort};
ghost use Rattle.rtm_model.specs.inner.Applies.{CanMake, IsDormant};
ghost use Rattle.rtm_model.specs.Chains.{inherited_estais};
ghost use Rattle.rtm_model.specs.Limits.{most_estais};
ghost use Rattle.rtm_model.specs.inner.Soundness.{IsSound};
ghost use Rattle.rtm_model.specs.World.{Core, UnitOfWork, World, core_at, unit_at};
ghost use Rattle.rtm_model.specs.declared.entry.What.{What};
ghost use Rattle.rtm_model.specs.declared.reg.Reg.{Reg};
ghost use Rattle.rtm_system_unit.specs.Applying.{CanApplyTo};

/// What a unit can make in a sound world can be applied to its control blocks.
pub fn what_can_be_made_can_be_applied()
    ensures { (d : DeckView) (n : ℕ) (w : World) (u : ℕ) (what : What) → IsSound d n w
        → CanMake d w u what →
        CanApplyTo d (core_at u w) w.managers (first_abort (UnitOfWork.pending (unit_at u w.units))) what }
{}

/// A dormant unit has room for its own ESTAI routine and those of the unit that attaches it.
pub fn routines_can_be_inherited()
    ensures { (d : DeckView) (n : ℕ) (w : World) (u unit : ℕ) (own : Option Reg)
        → IsTrue (is_well_formed d) →
        IsSound d n w → unit < length d.units → IsDormant w unit →
        length (inherited_estais own (Core.estais (core_at u w))) ≤ most_estais }
{}
