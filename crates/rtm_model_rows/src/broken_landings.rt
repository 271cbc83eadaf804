//! Histories that break the law of aborts, each with the sentence that it breaks, as in `broken_chains`. Others stand
//! in `landings`.

ghost use Rattle.std.specs.Prelude.{◌≡◌, true, false, None};
ghost use Rattle.rtm_codes.specs.declared.code.Code.TheVariants.{Sys, User};
ghost use Rattle.rtm_model.specs.declared.entry.Class.TheVariants.{Abterm, Cancel, Detach, Srb};
ghost use Rattle.rtm_model.specs.declared.reg.Kind.TheVariants.{Estai};
ghost use Rattle.rtm_model.specs.AbortLaw.{keeps_aborts};
ghost use Rattle.rtm_model_rows.specs.Writing.{exec, front_and, full_mark, land, leave, mark, retry};
ghost use Rattle.rtm_model_rows.specs.AbtermWithoutRetry as abterm_without_retry_row;
ghost use Rattle.rtm_model_rows.specs.CancelDiesAtBegin as cancel_dies_at_begin_row;
ghost use Rattle.rtm_model_rows.specs.CancelHeldOff as cancel_held_off_row;
ghost use Rattle.rtm_model_rows.specs.CancelPassesARoutine as cancel_passes_a_routine_row;
ghost use Rattle.rtm_model_rows.specs.CancelWhileAnFrrLives as cancel_while_an_frr_lives_row;
ghost use Rattle.rtm_model_rows.specs.DenseRecovery as dense_recovery_row;
ghost use Rattle.rtm_model_rows.specs.DetachDiesAtPurge as detach_dies_at_purge_row;
ghost use Rattle.rtm_model_rows.specs.NightlyBatch as nightly_batch_row;
ghost use Rattle.rtm_model_rows.specs.SrbAndRelatedTask as srb_and_related_task_row;
ghost use Rattle.rtm_model_rows.specs.TwoAborts as two_aborts_row;

/// A cancel that never lands keeps the law.
pub fn cancel_that_dies_keeps_the_law()
    ensures { keeps_aborts cancel_dies_at_begin_row.deck cancel_dies_at_begin_row.history ≡ true }
{}

/// A cancel that is held off for ever keeps the law.
pub fn cancel_held_off_keeps_the_law()
    ensures { keeps_aborts cancel_held_off_row.deck cancel_held_off_row.history ≡ true }
{}

/// A DETACH that is pending until its task is purged keeps the law.
pub fn detach_that_dies_keeps_the_law()
    ensures { keeps_aborts detach_dies_at_purge_row.deck detach_dies_at_purge_row.history ≡ true }
{}

/// A LAND names an entry that queued its abort: not a SETFRR.
pub fn landing_of_what_nobody_queued()
    ensures { keeps_aborts cancel_while_an_frr_lives_row.deck
        (front_and cancel_while_an_frr_lives_row.history 5
        (land 0 Cancel 0 (full_mark (Sys 0x222) None true false false))) ≡ false }
{}

/// It names an earlier entry.
pub fn landing_that_names_itself()
    ensures { keeps_aborts cancel_while_an_frr_lives_row.deck
        (front_and cancel_while_an_frr_lives_row.history 5
        (land 0 Cancel 5 (full_mark (Sys 0x222) None true false false))) ≡ false }
{}

/// An abort lands in the unit for which it was queued.
pub fn landing_in_another_unit()
    ensures { keeps_aborts two_aborts_row.deck
        (front_and two_aborts_row.history 7 (land 0 Abterm 6 (mark (User 5)))) ≡ false }
{}

/// What came too late doesn't land.
pub fn landing_of_what_came_too_late()
    ensures { keeps_aborts srb_and_related_task_row.deck
        (front_and srb_and_related_task_row.history 16 (land 1 Srb 15 (mark (Sys 0x0C4))))
        ≡ false }
{}

/// While a routine with CANCEL=NO runs no abort lands.
pub fn landing_in_a_cancel_no_routine()
    ensures { keeps_aborts cancel_held_off_row.deck (front_and cancel_held_off_row.history 4
        (land 0 Cancel 3 (full_mark (Sys 0x222) None true false false))) ≡ false }
{}

/// Where an error is open no abort lands.
pub fn landing_at_an_error()
    ensures { keeps_aborts two_aborts_row.deck (front_and two_aborts_row.history 12
        (land 1 Detach 8 (full_mark (Sys 0x13E) None true false false))) ≡ false }
{}

/// After its BEGIN no abort lands in a unit.
pub fn landing_after_the_begin()
    ensures { keeps_aborts cancel_dies_at_begin_row.deck
        (front_and cancel_dies_at_begin_row.history 6
        (land 0 Cancel 1 (full_mark (Sys 0x222) None true false false))) ≡ false }
{}

/// After its PURGE no abort lands in a unit.
pub fn landing_after_the_purge()
    ensures { keeps_aborts detach_dies_at_purge_row.deck
        (front_and detach_dies_at_purge_row.history 10
        (land 1 Detach 6 (full_mark (Sys 0x13E) None true false false))) ≡ false }
{}

/// A routine that may be interrupted doesn't run on while an abort is pending.
pub fn routine_runs_on()
    ensures { keeps_aborts cancel_passes_a_routine_row.deck
        (front_and cancel_passes_a_routine_row.history 6 (exec 0 1 1 0)) ≡ false }
{}

/// Each abort lands at most once.
pub fn landing_once_more()
    ensures { keeps_aborts two_aborts_row.deck
        (front_and two_aborts_row.history 13 (land 1 Abterm 6 (mark (User 5)))) ≡ false }
{}

/// A DETACH forbids retry, and its LAND says so.
pub fn detach_that_hides_clup()
    ensures { keeps_aborts two_aborts_row.deck
        (front_and two_aborts_row.history 13 (land 1 Detach 8 (mark (Sys 0x13E)))) ≡ false }
{}

/// CALLRTM TYPE=ABTERM with RETRY=NO forbids retry, and its LAND says so.
pub fn abterm_that_hides_clup()
    ensures { keeps_aborts abterm_without_retry_row.deck
        (front_and abterm_without_retry_row.history 2 (land 0 Abterm 1 (mark (User 5)))) ≡ false }
{}

/// After a CANCEL no routine retries: not an ESTAI routine.
pub fn retry_of_an_estai_after_a_cancel()
    ensures { keeps_aborts nightly_batch_row.deck
        (front_and nightly_batch_row.history 27 (leave 2 Estai 4 (retry 2 3))) ≡ false }
{}

/// After a DETACH with STAE=YES no routine retries.
pub fn retry_after_a_detach()
    ensures { keeps_aborts dense_recovery_row.deck
        (front_and dense_recovery_row.history 52 (leave 1 Estai 32 (retry 6 2))) ≡ false }
{}
