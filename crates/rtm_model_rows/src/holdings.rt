//! What is held and what was released, by entries, and the law of holdings.

ghost use Rattle.std.specs.Prelude.{◌≡◌, ◌∷◌, [], true, false, take};
ghost use Rattle.rtm_codes.specs.declared.code.Code.TheVariants.{Sys};
ghost use Rattle.rtm_deck_operands.specs.declared.value.Res.TheVariants.{Dsn, Enq, Timr};
ghost use Rattle.rtm_model.specs.Held.{living_holdings, releases, times_held};
ghost use Rattle.rtm_model.specs.HoldLaw.{keeps_holdings};
ghost use Rattle.rtm_model_rows.specs.Writing.{exec, front_and, holding, memend, plain_done, release};
ghost use Rattle.rtm_model_rows.specs.ManagerFails as manager_fails_row;
ghost use Rattle.rtm_model_rows.specs.MemoryEnd as memory_end_row;
ghost use Rattle.rtm_model_rows.specs.NightlyBatch as nightly_batch_row;

/// What was got lives, the newest first.
pub fn got_holdings()
    ensures { living_holdings manager_fails_row.deck (take 5 manager_fails_row.history)
        ≡ holding 4 Enq 8 0 ∷ holding 1 Timr 4 0 ∷ [] }
{}

/// Two equal holdings count twice.
pub fn equal_holdings()
    ensures { times_held memory_end_row.deck (take 7 memory_end_row.history) 1 Enq 2 ≡ 2 }
{}

/// A RELEASE ends one of two equal holdings.
pub fn release_of_one()
    ensures { times_held memory_end_row.deck (take 15 memory_end_row.history) 1 Enq 2 ≡ 1 }
{}

/// A purge leaves the holdings of its unit.
pub fn purge_leaves_holdings()
    ensures { times_held memory_end_row.deck (take 14 memory_end_row.history) 1 Enq 2 ≡ 2 }
{}

/// At the end nothing is held.
pub fn nothing_held_at_the_end()
    ensures { living_holdings memory_end_row.deck memory_end_row.history ≡ [] }
{}

/// The ENQs that were released, each with its owner, in order.
pub fn released_enqs()
    ensures { releases Enq memory_end_row.history ≡ (1, 2) ∷ (1, 2) ∷ (0, 1) ∷ [] }
{}

/// No timer was released.
pub fn released_timers()
    ensures { releases Timr memory_end_row.history ≡ [] }
{}

/// One data set was released.
pub fn released_data_sets()
    ensures { releases Dsn memory_end_row.history ≡ (0, 7) ∷ [] }
{}

/// What a manager's routine got is released.
pub fn manager_keeps_the_law()
    ensures { keeps_holdings manager_fails_row.deck manager_fails_row.history ≡ true }
{}

/// Memory end releases all that is held.
pub fn memory_end_keeps_the_law()
    ensures { keeps_holdings memory_end_row.deck memory_end_row.history ≡ true }
{}

/// A night of jobs keeps the law.
pub fn night_keeps_the_law()
    ensures { keeps_holdings nightly_batch_row.deck nightly_batch_row.history ≡ true }
{}

/// A unit is done with what it holds.
pub fn done_with_a_holding()
    ensures { keeps_holdings manager_fails_row.deck
        (front_and manager_fails_row.history 8 (plain_done 0 (Sys 0x000))) ≡ false }
{}

/// A resource is released twice.
pub fn release_twice()
    ensures { keeps_holdings manager_fails_row.deck
        (front_and manager_fails_row.history 8 (release 0 Enq 8 0)) ≡ false }
{}

/// A resource of another owner is released.
pub fn release_of_another_owner()
    ensures { keeps_holdings memory_end_row.deck
        (front_and memory_end_row.history 14 (release 2 Enq 2 0)) ≡ false }
{}

/// The address space ends while a data set is held.
pub fn memory_end_with_a_holding()
    ensures { keeps_holdings memory_end_row.deck (front_and memory_end_row.history 18 (memend 2))
        ≡ false }
{}

/// A unit gets something after its end.
pub fn got_after_the_end()
    ensures { keeps_holdings manager_fails_row.deck
        (front_and manager_fails_row.history 10 (exec 0 0 2 0)) ≡ false }
{}
