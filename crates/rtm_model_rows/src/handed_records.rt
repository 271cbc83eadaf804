//! The records that recovery routines get: that of a history, one for each ENTER of a recovery routine.

ghost use Rattle.std.specs.Prelude.{◌≡◌, ◌∷◌, [], None};
ghost use Rattle.rtm_codes.specs.declared.code.Code.TheVariants.{Sys};
ghost use Rattle.rtm_model.specs.Record.{after_percolation, fresh, no_flags};
ghost use Rattle.rtm_model.specs.Records.{records};
ghost use Rattle.rtm_model_rows.specs.ManagerFails as manager_fails_row;
ghost use Rattle.rtm_model_rows.specs.PercolationAndRetry as percolation_and_retry_row;
ghost use Rattle.rtm_model_rows.specs.BareRoutine as bare_routine_row;
ghost use Rattle.rtm_model_rows.specs.FrrBesideABareEstae as frr_beside_a_bare_estae_row;

/// The routine that percolates gets the record of the error, the next one the same with PERC.
pub fn records_of_percolation_and_retry()
    ensures { records percolation_and_retry_row.deck percolation_and_retry_row.history
        ≡ fresh (Sys 0x0C1) None no_flags ∷ after_percolation (fresh (Sys 0x0C1) None no_flags)
        ∷ [] }
{}

/// A resource manager gets no record.
pub fn no_record_for_a_manager()
    ensures { records manager_fails_row.deck manager_fails_row.history ≡ [] }
{}

/// A routine without an SDWA gets no record.
pub fn no_record_for_a_bare_routine()
    ensures { records bare_routine_row.deck bare_routine_row.history ≡ [] }
{}

/// An FRR gets the record, and the ESTAE routine behind it none, where the region has no SDWA for it.
pub fn record_of_an_frr_alone()
    ensures { records frr_beside_a_bare_estae_row.deck frr_beside_a_bare_estae_row.history
        ≡ fresh (Sys 0x0C4) None no_flags ∷ [] }
{}
