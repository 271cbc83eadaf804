//! Histories that break the law of holdings, each with the sentence that it breaks, as in `broken_chains`. Others
//! stand in `holdings`.

ghost use Rattle.std.specs.Prelude.{◌≡◌, ◌++◌, ◌∷◌, [], false, take};
ghost use Rattle.rtm_codes.specs.declared.code.Code.TheVariants.{User};
ghost use Rattle.rtm_deck_operands.specs.declared.value.Res.TheVariants.{Dsn, Enq, Stor};
ghost use Rattle.rtm_model.specs.HoldLaw.{keeps_holdings};
ghost use Rattle.rtm_model_rows.specs.Writing.{exec, front_and, memend, plain_done, release};
ghost use Rattle.rtm_model_rows.specs.DenseAborts as dense_aborts_row;
ghost use Rattle.rtm_model_rows.specs.ManagerFails as manager_fails_row;
ghost use Rattle.rtm_model_rows.specs.MemoryEnd as memory_end_row;
ghost use Rattle.rtm_model_rows.specs.NightlyBatch as nightly_batch_row;

/// A RELEASE ends one of two equal holdings, and no other: one of them is still held at memory end.
pub fn one_release_for_two()
    ensures { keeps_holdings memory_end_row.deck (take 15 memory_end_row.history
        ++ release 2 Enq 1 0 ∷ release 2 Stor 5 1 ∷ release 2 Dsn 7 0 ∷ memend 2 ∷ []) ≡ false }
{}

/// Two equal holdings are released twice, and not three times.
pub fn three_releases_for_two()
    ensures { keeps_holdings memory_end_row.deck
        (front_and memory_end_row.history 16 (release 2 Enq 2 1)) ≡ false }
{}

/// What is released is held under its class.
pub fn release_of_another_class()
    ensures { keeps_holdings manager_fails_row.deck
        (front_and manager_fails_row.history 7 (release 0 Stor 8 0)) ≡ false }
{}

/// What is released is held under its number.
pub fn release_of_another_number()
    ensures { keeps_holdings manager_fails_row.deck
        (front_and manager_fails_row.history 7 (release 0 Enq 9 0)) ≡ false }
{}

/// What is released is held: nobody has got it yet.
pub fn release_of_what_nobody_got()
    ensures { keeps_holdings manager_fails_row.deck
        (front_and manager_fails_row.history 0 (release 0 Enq 8 0)) ≡ false }
{}

/// What a FREE has ended isn't released at the end.
pub fn release_of_what_was_freed()
    ensures { keeps_holdings nightly_batch_row.deck
        (front_and nightly_batch_row.history 17 (release 1 Dsn 1 1)) ≡ false }
{}

/// What a FREE has ended isn't freed again.
pub fn free_twice()
    ensures { keeps_holdings nightly_batch_row.deck
        (front_and nightly_batch_row.history 14 (exec 1 1 4 0)) ≡ false }
{}

/// A FREE that finds nothing doesn't say that it did.
pub fn free_of_what_nobody_holds()
    ensures { keeps_holdings dense_aborts_row.deck
        (front_and dense_aborts_row.history 32 (exec 4 2 1 0)) ≡ false }
{}

/// At its DONE a unit holds nothing: PRINT has its data set still.
pub fn done_without_a_release()
    ensures { keeps_holdings nightly_batch_row.deck
        (front_and nightly_batch_row.history 21 (plain_done 3 (User 20))) ≡ false }
{}

/// At memory end nobody holds anything, not the units either that were purged.
pub fn memory_end_at_once()
    ensures { keeps_holdings memory_end_row.deck (front_and memory_end_row.history 14 (memend 2))
        ≡ false }
{}
