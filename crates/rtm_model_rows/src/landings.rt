//! The law of aborts: what an entry queues, where an abort may land, and histories that keep the law or break it.

ghost use Rattle.std.specs.Prelude.{◌≡◌, true, false, None};
ghost use Rattle.rtm_codes.specs.declared.code.Code.TheVariants.{Sys, User};
ghost use Rattle.rtm_model.specs.declared.entry.Class.TheVariants.{Abterm, Cancel, Detach, Mother, Srb, Step};
ghost use Rattle.rtm_model.specs.declared.reg.Kind.TheVariants.{Estae};
ghost use Rattle.rtm_model.specs.AbortLaw.{is_first, is_queued_at, is_subtask, keeps_aborts, may_interrupt};
ghost use Rattle.rtm_model.specs.Moments.{unit_before};
ghost use Rattle.rtm_model.specs.World.{UnitOfWork};
ghost use Rattle.rtm_model_rows.specs.Writing.{exec, front_and, full_mark, land, leave, mark, retry};
ghost use Rattle.rtm_model_rows.specs.AbtermWithoutRetry as abterm_without_retry_row;
ghost use Rattle.rtm_model_rows.specs.CancelHeldOff as cancel_held_off_row;
ghost use Rattle.rtm_model_rows.specs.CancelInsideARoutine as cancel_inside_a_routine_row;
ghost use Rattle.rtm_model_rows.specs.CancelWhileAnFrrLives as cancel_while_an_frr_lives_row;
ghost use Rattle.rtm_model_rows.specs.EndOfTheMother as end_of_the_mother_row;
ghost use Rattle.rtm_model_rows.specs.JobStepEnds as job_step_ends_row;
ghost use Rattle.rtm_model_rows.specs.NightlyBatch as nightly_batch_row;
ghost use Rattle.rtm_model_rows.specs.SrbAndRelatedTask as srb_and_related_task_row;
ghost use Rattle.rtm_model_rows.specs.TwoAborts as two_aborts_row;
ghost use Rattle.rtm_model_rows.specs.DenseAborts as dense_aborts_row;
ghost use Rattle.rtm_model_rows.specs.DenseRecovery as dense_recovery_row;

/// CALLRTM TYPE=ABTERM queues its abort.
pub fn abterm_is_queued()
    ensures { is_queued_at two_aborts_row.deck two_aborts_row.history 6 Abterm 1 ≡ true }
{}

/// CALLRTM TYPE=ABTERM queues an abort for no other unit than it names.
pub fn abterm_of_another_unit()
    ensures { is_queued_at two_aborts_row.deck two_aborts_row.history 6 Abterm 0 ≡ false }
{}

/// DETACH queues its abort.
pub fn detach_is_queued()
    ensures { is_queued_at two_aborts_row.deck two_aborts_row.history 8 Detach 1 ≡ true }
{}

/// The first CANCEL is queued.
pub fn cancel_is_queued()
    ensures { is_queued_at cancel_while_an_frr_lives_row.deck cancel_while_an_frr_lives_row.history
        1 Cancel 0 ≡ true }
{}

/// A second CANCEL becomes one with the first, and is not queued.
pub fn merged_cancel()
    ensures { is_queued_at cancel_while_an_frr_lives_row.deck cancel_while_an_frr_lives_row.history
        2 Cancel 0 ≡ false }
{}

/// The task that a card names is a subtask of the one that executed it.
pub fn subtask_by_its_card()
    ensures { is_subtask end_of_the_mother_row.deck end_of_the_mother_row.history 0 1 ≡ true }
{}

/// A mother that begins to end queues the abort of her subtask.
pub fn mother_is_queued()
    ensures { is_queued_at end_of_the_mother_row.deck end_of_the_mother_row.history 1 Mother 1
        ≡ true }
{}

/// The end of a unit queues that of the job step.
pub fn step_is_queued()
    ensures { is_queued_at job_step_ends_row.deck job_step_ends_row.history 3 Step 0 ≡ true }
{}

/// What comes too late is not queued.
pub fn late_abort_of_an_srb()
    ensures { is_queued_at srb_and_related_task_row.deck srb_and_related_task_row.history 15 Srb 1
        ≡ false }
{}

/// While an FRR lives no abort interrupts its unit.
pub fn frr_lives()
    ensures { may_interrupt cancel_while_an_frr_lives_row.deck cancel_while_an_frr_lives_row.history
        4 0 ≡ false }
{}

/// Once the FRR is gone an abort may interrupt it.
pub fn frr_is_gone()
    ensures { may_interrupt cancel_while_an_frr_lives_row.deck cancel_while_an_frr_lives_row.history
        5 0 ≡ true }
{}

/// While a routine with CANCEL=NO runs no abort interrupts its unit.
pub fn cancel_no_routine_runs()
    ensures { may_interrupt cancel_held_off_row.deck cancel_held_off_row.history 4 0 ≡ false }
{}

/// Where an error is open no abort interrupts the unit.
pub fn error_is_open()
    ensures { may_interrupt two_aborts_row.deck two_aborts_row.history 12 1 ≡ false }
{}

/// An abort may interrupt a routine with CANCEL=YES.
pub fn routine_is_interrupted()
    ensures { may_interrupt two_aborts_row.deck two_aborts_row.history 13 1 ≡ true }
{}

/// Of two that are pending the first is the one that was posted first.
pub fn posted_first()
    ensures { is_first Abterm 6
        (UnitOfWork.pending (unit_before two_aborts_row.deck two_aborts_row.history 11 1)) ≡ true }
{}

/// The one that was posted later is not the first.
pub fn posted_second()
    ensures { is_first Detach 8
        (UnitOfWork.pending (unit_before two_aborts_row.deck two_aborts_row.history 11 1)) ≡ false }
{}

/// Two aborts land in their turn.
pub fn two_aborts_keep_the_law()
    ensures { keeps_aborts two_aborts_row.deck two_aborts_row.history ≡ true }
{}

/// A cancel lands once the FRR is gone.
pub fn cancel_keeps_the_law()
    ensures { keeps_aborts cancel_while_an_frr_lives_row.deck cancel_while_an_frr_lives_row.history
        ≡ true }
{}

/// A cancel lands inside a routine.
pub fn cancel_in_a_routine_keeps_the_law()
    ensures { keeps_aborts cancel_inside_a_routine_row.deck cancel_inside_a_routine_row.history
        ≡ true }
{}

/// The end of the job step lands in the job step task.
pub fn step_keeps_the_law()
    ensures { keeps_aborts job_step_ends_row.deck job_step_ends_row.history ≡ true }
{}

/// The subtask of a mother that ends is aborted.
pub fn mother_keeps_the_law()
    ensures { keeps_aborts end_of_the_mother_row.deck end_of_the_mother_row.history ≡ true }
{}

/// A night of jobs keeps the law.
pub fn night_keeps_the_law()
    ensures { keeps_aborts nightly_batch_row.deck nightly_batch_row.history ≡ true }
{}

/// An SRB whose error comes too late keeps the law.
pub fn srb_keeps_the_law()
    ensures { keeps_aborts srb_and_related_task_row.deck srb_and_related_task_row.history ≡ true }
{}

/// An abort that forbids retry lands, and its routine asks in vain.
pub fn abterm_keeps_the_law()
    ensures { keeps_aborts abterm_without_retry_row.deck abterm_without_retry_row.history ≡ true }
{}

/// A routine retries after an abort that forbids it.
pub fn retry_after_an_abterm()
    ensures { keeps_aborts abterm_without_retry_row.deck
        (front_and abterm_without_retry_row.history 5 (leave 0 Estae 0 (retry 0 3))) ≡ false }
{}

/// A cancel lands while an FRR lives.
pub fn landing_while_an_frr_lives()
    ensures { keeps_aborts cancel_while_an_frr_lives_row.deck (front_and
        cancel_while_an_frr_lives_row.history 4
        (land 0 Cancel 1 (full_mark (Sys 0x222) None true false false))) ≡ false }
{}

/// A merged cancel lands.
pub fn landing_of_a_merged_cancel()
    ensures { keeps_aborts cancel_while_an_frr_lives_row.deck (front_and
        cancel_while_an_frr_lives_row.history 5
        (land 0 Cancel 2 (full_mark (Sys 0x222) None true false false))) ≡ false }
{}

/// The second of two aborts lands before the first.
pub fn landing_out_of_turn()
    ensures { keeps_aborts two_aborts_row.deck (front_and two_aborts_row.history 11
        (land 1 Detach 8 (full_mark (Sys 0x13E) None true false false))) ≡ false }
{}

/// A unit runs on although an abort may land.
pub fn landing_put_off()
    ensures { keeps_aborts cancel_while_an_frr_lives_row.deck
        (front_and cancel_while_an_frr_lives_row.history 5 (exec 0 0 4 0)) ≡ false }
{}

/// A LAND says of an abort that forbids retry that it allows it.
pub fn landing_that_hides_clup()
    ensures { keeps_aborts cancel_while_an_frr_lives_row.deck
        (front_and cancel_while_an_frr_lives_row.history 5 (land 0 Cancel 1 (mark (Sys 0x222))))
        ≡ false }
{}

/// A LAND says of an abort that allows retry that it forbids it.
pub fn landing_that_shows_clup()
    ensures { keeps_aborts two_aborts_row.deck (front_and two_aborts_row.history 11
        (land 1 Abterm 6 (full_mark (User 5) None true false false))) ≡ false }
{}

/// A second abort lands in a doomed unit.
pub fn landing_in_a_doomed_unit()
    ensures { keeps_aborts two_aborts_row.deck
        (front_and two_aborts_row.history 14 (land 1 Abterm 6 (mark (User 5)))) ≡ false }
{}

/// A routine of a doomed unit retries.
pub fn retry_in_a_doomed_unit()
    ensures { keeps_aborts cancel_inside_a_routine_row.deck
        (front_and cancel_inside_a_routine_row.history 14 (leave 0 Estae 0 (retry 0 4))) ≡ false }
{}

/// Two aborts that one DONE posts land in their turn.
pub fn aborts_of_one_done_keep_the_law()
    ensures { keeps_aborts dense_aborts_row.deck dense_aborts_row.history ≡ true }
{}

/// Aborts by DETACH, by CALLRTM and by the operator land in three tasks.
pub fn each_abort_keeps_the_law()
    ensures { keeps_aborts dense_recovery_row.deck dense_recovery_row.history ≡ true }
{}
