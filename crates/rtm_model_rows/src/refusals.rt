//! Histories that the machine may not make: a row of `rows`, up to an entry that is changed. Each is the contract
//! of a function that does nothing: the entries before it are legal, it is not, and its unit may make the entry
//! that is named next, or none.

ghost use Rattle.std.specs.Prelude.{true, false, take, None, Some};
ghost use Rattle.rtm_codes.specs.declared.code.Code.TheVariants.{Sys, User};
ghost use Rattle.rtm_deck_operands.specs.declared.value.Res.TheVariants.{Enq, Timr};
ghost use Rattle.rtm_model.specs.declared.entry.Class.TheVariants.{Cancel, Detach};
ghost use Rattle.rtm_model.specs.declared.entry.Fate.TheVariants.{Queued, Late};
ghost use Rattle.rtm_model.specs.declared.entry.Verdict.TheVariants.{Perc, Bad, Fail};
ghost use Rattle.rtm_model.specs.declared.reg.Kind.TheVariants.{Estae, Estai, Frr, Mgr};
ghost use Rattle.rtm_model_rows.specs.Writing.{exec, error, land, enter, enter_bare, leave, arrive};
ghost use Rattle.rtm_model_rows.specs.Writing.{begin, release, plain_done, done_with, retry, mark, full_mark};
ghost use Rattle.rtm_model_rows.specs.Refusal.{IsRefused};
ghost use Rattle.rtm_model_rows.specs.CancelInsideARoutine as cancel_inside_a_routine_row;
ghost use Rattle.rtm_model_rows.specs.CancelWhileAnFrrLives as cancel_while_an_frr_lives_row;
ghost use Rattle.rtm_model_rows.specs.EndOfTheMother as end_of_the_mother_row;
ghost use Rattle.rtm_model_rows.specs.FailureOfARoutine as failure_of_a_routine_row;
ghost use Rattle.rtm_model_rows.specs.InheritedEstai as inherited_estai_row;
ghost use Rattle.rtm_model_rows.specs.LinkUnderAnFrr as link_under_an_frr_row;
ghost use Rattle.rtm_model_rows.specs.ManagerFails as manager_fails_row;
ghost use Rattle.rtm_model_rows.specs.MemoryEnd as memory_end_row;
ghost use Rattle.rtm_model_rows.specs.PercolationAndRetry as percolation_and_retry_row;
ghost use Rattle.rtm_model_rows.specs.RetryUnderTheOwner as retry_under_the_owner_row;
ghost use Rattle.rtm_model_rows.specs.SrbAndRelatedTask as srb_and_related_task_row;
ghost use Rattle.rtm_model_rows.specs.StopByAnEstai as stop_by_an_estai_row;
ghost use Rattle.rtm_model_rows.specs.TwoAborts as two_aborts_row;
ghost use Rattle.rtm_model_rows.specs.BareRoutine as bare_routine_row;
ghost use Rattle.rtm_model_rows.specs.FrrBesideABareEstae as frr_beside_a_bare_estae_row;
ghost use Rattle.rtm_model_rows.specs.Ret15InAManager as ret15_in_a_manager_row;
ghost use Rattle.rtm_model_rows.specs.SetrpInABareRoutine as setrp_in_a_bare_routine_row;

/// A routine that has percolated is entered again.
pub fn routine_entered_twice()
    ensures { IsRefused percolation_and_retry_row.deck (take 6 percolation_and_retry_row.history)
        (enter 0 Estae 1 (full_mark (Sys 0x0C1) None false true false))
        (Some (enter 0 Estae 0 (full_mark (Sys 0x0C1) None false true false))) }
{}

/// The oldest routine is entered before the newest.
pub fn oldest_routine_first()
    ensures { IsRefused percolation_and_retry_row.deck (take 3 percolation_and_retry_row.history)
        (enter 0 Estae 0 (mark (Sys 0x0C1)))
        (Some (enter 0 Estae 1 (mark (Sys 0x0C1)))) }
{}

/// A routine that was to be removed at its retry is entered for the next error.
pub fn removed_routine_entered()
    ensures { IsRefused percolation_and_retry_row.deck (take 10 percolation_and_retry_row.history)
        (enter 0 Estae 0 (mark (Sys 0x0C4)))
        (Some (begin 0 (Sys 0x0C4) false)) }
{}

/// A retry stays under the request block that failed.
pub fn retry_under_the_newest_block()
    ensures { IsRefused retry_under_the_owner_row.deck (take 7 retry_under_the_owner_row.history)
        (leave 0 Estae 0 (retry 3 1))
        (Some (leave 0 Estae 0 (retry 0 3))) }
{}

/// A unit begins to end at an error inside a recovery routine.
pub fn end_inside_a_routine()
    ensures { IsRefused failure_of_a_routine_row.deck (take 5 failure_of_a_routine_row.history)
        (begin 0 (User 7) false)
        (Some (leave 0 Estae 1 Fail)) }
{}

/// A routine retries although a cancel has landed.
pub fn retry_after_a_cancel()
    ensures { IsRefused cancel_inside_a_routine_row.deck
        (take 14 cancel_inside_a_routine_row.history)
        (leave 0 Estae 0 (retry 0 4))
        (Some (leave 0 Estae 0 Bad)) }
{}

/// A routine is cancelled, and the record of the error around it stays as it was.
pub fn record_as_it_was_after_a_cancel()
    ensures { IsRefused cancel_inside_a_routine_row.deck
        (take 12 cancel_inside_a_routine_row.history)
        (enter 0 Estae 0 (full_mark (Sys 0x0C1) None false false true))
        (Some (enter 0 Estae 0 (full_mark (Sys 0x222) None true false true))) }
{}

/// A cancel lands while an FRR lives.
pub fn landing_while_an_frr_lives()
    ensures { IsRefused cancel_while_an_frr_lives_row.deck
        (take 3 cancel_while_an_frr_lives_row.history)
        (land 0 Cancel 1 (full_mark (Sys 0x222) None true false false))
        (Some (exec 0 0 2 0)) }
{}

/// A unit that a pending cancel may interrupt goes on.
pub fn landing_put_off()
    ensures { IsRefused cancel_while_an_frr_lives_row.deck
        (take 5 cancel_while_an_frr_lives_row.history)
        (begin 0 (Sys 0x000) false)
        (Some (land 0 Cancel 1 (full_mark (Sys 0x222) None true false false))) }
{}

/// A second abort lands while the first one's error is open.
pub fn two_aborts_at_one_error()
    ensures { IsRefused two_aborts_row.deck (take 12 two_aborts_row.history)
        (land 1 Detach 8 (full_mark (Sys 0x13E) None true false false))
        (Some (enter 1 Estae 1 (mark (User 5)))) }
{}

/// A subtask of a subtask ends without the ESTAI routine that it inherits.
pub fn estai_not_inherited()
    ensures { IsRefused inherited_estai_row.deck (take 5 inherited_estai_row.history)
        (begin 2 (Sys 0x0C7) false)
        (Some (enter 2 Estai 0 (full_mark (Sys 0x0C7) None false true false))) }
{}

/// After RC=16 of an ESTAI routine the next one is entered.
pub fn estai_after_a_stop()
    ensures { IsRefused stop_by_an_estai_row.deck (take 6 stop_by_an_estai_row.history)
        (enter 2 Estai 0 (full_mark (Sys 0x0C7) None false true false))
        (Some (begin 2 (Sys 0x0C7) false)) }
{}

/// A task ends without releasing what a manager got.
pub fn release_skipped()
    ensures { IsRefused manager_fails_row.deck (take 7 manager_fails_row.history)
        (release 0 Timr 4 0)
        (Some (release 0 Enq 8 0)) }
{}

/// A manager that has failed is entered again.
pub fn manager_entered_twice()
    ensures { IsRefused manager_fails_row.deck (take 7 manager_fails_row.history)
        (enter 0 Mgr 0 (mark (Sys 0x000)))
        (Some (release 0 Enq 8 0)) }
{}

/// A routine runs on after memory end has begun.
pub fn routine_after_memory_end()
    ensures { IsRefused memory_end_row.deck (take 12 memory_end_row.history)
        (leave 1 Estae 6 Perc)
        None }
{}

/// Of two holdings of a class the older is released first.
pub fn oldest_holding_first()
    ensures { IsRefused memory_end_row.deck (take 14 memory_end_row.history)
        (release 2 Enq 1 0)
        (Some (release 2 Enq 2 1)) }
{}

/// An abort is queued for a task that has ended.
pub fn queued_although_late()
    ensures { IsRefused srb_and_related_task_row.deck (take 15 srb_and_related_task_row.history)
        (done_with 2 (Sys 0x0C4) (Some Queued) None)
        (Some (done_with 2 (Sys 0x0C4) (Some Late) None)) }
{}

/// LINK is executed under an FRR.
pub fn link_under_an_frr()
    ensures { IsRefused link_under_an_frr_row.deck (take 3 link_under_an_frr_row.history)
        (exec 1 1 2 0)
        (Some (error 1 1 2 (mark (Sys 0x0F8)))) }
{}

/// A task whose subtask lives ends normally.
pub fn normal_end_with_a_subtask()
    ensures { IsRefused end_of_the_mother_row.deck (take 1 end_of_the_mother_row.history)
        (begin 0 (Sys 0x000) false)
        (Some (begin 0 (Sys 0xA03) false)) }
{}

/// A task is done before its subtask.
pub fn done_while_a_subtask_lives()
    ensures { IsRefused end_of_the_mother_row.deck (take 2 end_of_the_mother_row.history)
        (plain_done 0 (Sys 0xA03))
        None }
{}

/// A command arrives before its number of entries stands, while a unit can go on.
pub fn arrival_too_early()
    ensures { IsRefused cancel_while_an_frr_lives_row.deck
        (take 0 cancel_while_an_frr_lives_row.history)
        (arrive 0 0 Queued)
        (Some (exec 0 0 1 0)) }
{}

/// A later command of a task arrives before an earlier one.
pub fn arrival_out_of_turn()
    ensures { IsRefused cancel_while_an_frr_lives_row.deck
        (take 1 cancel_while_an_frr_lives_row.history)
        (arrive 0 1 Queued)
        (Some (exec 0 0 2 0)) }
{}

/// A routine is entered with an SDWA although the region has none for it.
pub fn sdwa_in_a_bare_region()
    ensures { IsRefused bare_routine_row.deck (take 2 bare_routine_row.history)
        (enter 0 Estae 0 (mark (Sys 0x0C1)))
        (Some (enter_bare 0 Estae 0 (mark (Sys 0x0C1)))) }
{}

/// A routine is entered without an SDWA although the region has one for it.
pub fn bare_routine_in_a_whole_region()
    ensures { IsRefused percolation_and_retry_row.deck (take 3 percolation_and_retry_row.history)
        (enter_bare 0 Estae 1 (mark (Sys 0x0C1)))
        (Some (enter 0 Estae 1 (mark (Sys 0x0C1)))) }
{}

/// An FRR is entered without an SDWA.
pub fn bare_frr()
    ensures { IsRefused frr_beside_a_bare_estae_row.deck
        (take 3 frr_beside_a_bare_estae_row.history)
        (enter_bare 0 Frr 1 (mark (Sys 0x0C4)))
        (Some (enter 0 Frr 1 (mark (Sys 0x0C4)))) }
{}

/// A resource manager is entered as one that gets no SDWA, though it never gets one.
pub fn bare_manager()
    ensures { IsRefused ret15_in_a_manager_row.deck (take 2 ret15_in_a_manager_row.history)
        (enter_bare 0 Mgr 0 (mark (Sys 0x000)))
        (Some (enter 0 Mgr 0 (mark (Sys 0x000)))) }
{}

/// SETRP is executed in a routine that has no SDWA.
pub fn setrp_without_an_sdwa()
    ensures { IsRefused setrp_in_a_bare_routine_row.deck
        (take 3 setrp_in_a_bare_routine_row.history)
        (exec 0 1 1 0)
        (Some (error 0 1 1 (mark (Sys 0xEE7)))) }
{}
