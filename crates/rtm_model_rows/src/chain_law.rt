//! The law of chains in its own words: the ENTERs that are made for an error, the LEAVEs of its routines, what is
//! left of the list of those that were eligible, and whether an entry may end it.

ghost use Rattle.std.specs.Prelude.{◌≡◌, ◌∷◌, [], true, false, take, None, Some};
ghost use Rattle.rtm_codes.specs.declared.code.Code.TheVariants.{Sys, User};
ghost use Rattle.rtm_model.specs.declared.entry.Entry.{Entry};
ghost use Rattle.rtm_model.specs.declared.entry.Verdict.TheVariants.{Fail, Perc};
ghost use Rattle.rtm_model.specs.declared.reg.Kind.TheVariants.{Estae, Frr, Mgr};
ghost use Rattle.rtm_model.specs.ChainLaw.{are_entered_once, are_left, chain, ends_by, forced_end_at};
ghost use Rattle.rtm_model.specs.ChainLaw.{forced_chain, free_chain, keeps_chains, leavings, rest_of_list};
ghost use Rattle.rtm_model_rows.specs.Writing.{begin, enter, front_and, full_mark, leave, leaving, mark, memend};
ghost use Rattle.rtm_model_rows.specs.Writing.{opening, purge, retry, routine};
ghost use Rattle.rtm_model_rows.specs.CancelInsideARoutine as cancel_inside_a_routine_row;
ghost use Rattle.rtm_model_rows.specs.FailureOfARoutine as failure_of_a_routine_row;
ghost use Rattle.rtm_model_rows.specs.InheritedEstai as inherited_estai_row;
ghost use Rattle.rtm_model_rows.specs.ManagerFails as manager_fails_row;
ghost use Rattle.rtm_model_rows.specs.MemoryEnd as memory_end_row;
ghost use Rattle.rtm_model_rows.specs.NightlyBatch as nightly_batch_row;
ghost use Rattle.rtm_model_rows.specs.PercolationAndRetry as percolation_and_retry_row;
ghost use Rattle.rtm_model_rows.specs.RetryInsideARoutine as retry_inside_a_routine_row;
ghost use Rattle.rtm_model_rows.specs.RetryUnderTheOwner as retry_under_the_owner_row;
ghost use Rattle.rtm_model_rows.specs.StopByAnEstai as stop_by_an_estai_row;
ghost use Rattle.rtm_model_rows.specs.TwoAborts as two_aborts_row;
ghost use Rattle.rtm_model_rows.specs.RoutineOfABareRoutine as routine_of_a_bare_routine_row;
ghost use Rattle.rtm_model_rows.specs.DenseRecovery as dense_recovery_row;

/// Two routines are entered for one error.
pub fn chain_of_two()
    ensures { chain 2 0 percolation_and_retry_row.history
        ≡ opening 3 Estae 1 ∷ opening 6 Estae 0 ∷ [] }
{}

/// No routine is entered for the next error.
pub fn chain_of_none()
    ensures { chain 9 0 percolation_and_retry_row.history ≡ [] }
{}

/// A routine that is entered again stands twice in the chain.
pub fn entered_twice()
    ensures { are_entered_once (chain 2 0 (front_and percolation_and_retry_row.history 6
        (enter 0 Estae 1 (full_mark (Sys 0x0C1) None false true false)))) ≡ false }
{}

/// The two are left, the first with a percolation, the second with a retry.
pub fn leavings_of_two()
    ensures { leavings 2 0 percolation_and_retry_row.history
        ≡ leaving 5 Estae 1 Perc ∷ leaving 8 Estae 0 (retry 0 4) ∷ [] }
{}

/// A routine that was entered for an error inside another routine stands in that error's chain.
pub fn chain_inside_a_routine()
    ensures { chain 5 0 cancel_inside_a_routine_row.history ≡ opening 6 Estae 4 ∷ [] }
{}

/// Each of the two is left under its own name.
pub fn left_under_their_names()
    ensures { are_left (chain 2 0 percolation_and_retry_row.history)
        (leavings 2 0 percolation_and_retry_row.history) ≡ true }
{}

/// A LEAVE under another name is not the routine's.
pub fn left_under_another_name()
    ensures { are_left (chain 2 0 (take 5 percolation_and_retry_row.history))
        (leavings 2 0 (front_and percolation_and_retry_row.history 5 (leave 0 Estae 0 Perc)))
        ≡ false }
{}

/// After the first the oldest is left of the list.
pub fn rest_of_the_list()
    ensures { rest_of_list percolation_and_retry_row.deck
        (take 5 percolation_and_retry_row.history) 2 0
        ≡ Some (routine Estae 0 1 ∷ []) }
{}

/// A chain that begins with the oldest is no prefix of the list.
pub fn oldest_first()
    ensures { rest_of_list percolation_and_retry_row.deck
        (front_and percolation_and_retry_row.history 3 (enter 0 Estae 0 (mark (Sys 0x0C1)))) 2 0
        ≡ None }
{}

/// A cancel has landed inside a routine, which fails by a TERM-only error.
pub fn forced_by_a_cancel()
    ensures { forced_end_at cancel_inside_a_routine_row.deck cancel_inside_a_routine_row.history 2 0
        ≡ Some 11 }
{}

/// Before that failure one routine was entered.
pub fn chain_before_it()
    ensures { free_chain cancel_inside_a_routine_row.deck cancel_inside_a_routine_row.history 2 0
        ≡ opening 3 Estae 1 ∷ [] }
{}

/// After it the chain goes on with the routine that has TERM=YES.
pub fn chain_after_it()
    ensures { forced_chain cancel_inside_a_routine_row.deck cancel_inside_a_routine_row.history 2 0
        ≡ opening 12 Estae 0 ∷ [] }
{}

/// Then nothing is left of the list.
pub fn nothing_left()
    ensures { rest_of_list cancel_inside_a_routine_row.deck cancel_inside_a_routine_row.history 2 0
        ≡ Some [] }
{}

/// A failure by an error that is not TERM-only forces nothing.
pub fn failure_forces_nothing()
    ensures { forced_end_at failure_of_a_routine_row.deck failure_of_a_routine_row.history 2 0
        ≡ None }
{}

/// A valid retry of the routine that runs ends its error.
pub fn ends_by_a_retry()
    ensures { ends_by percolation_and_retry_row.deck (take 8 percolation_and_retry_row.history) 2 0
        (Entry.what (leave 0 Estae 0 (retry 0 4))) ≡ true }
{}

/// A retry of another routine does not end it.
pub fn retry_of_another_routine()
    ensures { ends_by percolation_and_retry_row.deck (take 8 percolation_and_retry_row.history) 2 0
        (Entry.what (leave 0 Frr 5 (retry 0 4))) ≡ false }
{}

/// A retry that the record forbids does not end it.
pub fn retry_that_is_forbidden()
    ensures { ends_by cancel_inside_a_routine_row.deck (take 14 cancel_inside_a_routine_row.history)
        2 0 (Entry.what (leave 0 Estae 0 (retry 0 4))) ≡ false }
{}

/// BEGIN ends an error whose list is used up.
pub fn ends_by_begin()
    ensures { ends_by failure_of_a_routine_row.deck (take 8 failure_of_a_routine_row.history) 2 0
        (Entry.what (begin 0 (Sys 0x0C1) false)) ≡ true }
{}

/// BEGIN ends no error while a routine is left on its list.
pub fn begin_too_early()
    ensures { ends_by failure_of_a_routine_row.deck (take 6 failure_of_a_routine_row.history) 2 0
        (Entry.what (begin 0 (Sys 0x0C1) false)) ≡ false }
{}

/// BEGIN ends an error after a Stop.
pub fn ends_after_a_stop()
    ensures { ends_by stop_by_an_estai_row.deck (take 6 stop_by_an_estai_row.history) 2 2
        (Entry.what (begin 2 (Sys 0x0C7) false)) ≡ true }
{}

/// BEGIN ends no error of an inner bracket.
pub fn begin_in_an_inner_bracket()
    ensures { ends_by manager_fails_row.deck (take 6 manager_fails_row.history) 5 0
        (Entry.what (begin 0 (User 1) false)) ≡ false }
{}

/// The failure of the bracket's own routine ends an error whose list is used up.
pub fn ends_by_a_failure()
    ensures { ends_by manager_fails_row.deck (take 6 manager_fails_row.history) 5 0
        (Entry.what (leave 0 Mgr 0 Fail)) ≡ true }
{}

/// The failure of another routine does not end it.
pub fn failure_of_another()
    ensures { ends_by manager_fails_row.deck (take 6 manager_fails_row.history) 5 0
        (Entry.what (leave 0 Mgr 77 Fail)) ≡ false }
{}

/// A purge of its unit ends an error.
pub fn ends_by_a_purge()
    ensures { ends_by memory_end_row.deck (take 13 memory_end_row.history) 7 1
        (Entry.what (purge 2 1)) ≡ true }
{}

/// The end of the address space ends no error.
pub fn memory_end_ends_no_error()
    ensures { ends_by memory_end_row.deck (take 13 memory_end_row.history) 7 1
        (Entry.what (memend 2)) ≡ false }
{}

/// The errors of a percolation and a retry keep the law.
pub fn retry_keeps_the_law()
    ensures { keeps_chains percolation_and_retry_row.deck percolation_and_retry_row.history ≡ true }
{}

/// A retry inside a routine keeps the law.
pub fn retry_in_a_routine_keeps_the_law()
    ensures { keeps_chains retry_inside_a_routine_row.deck retry_inside_a_routine_row.history
        ≡ true }
{}

/// The failure of a routine keeps the law.
pub fn failure_keeps_the_law()
    ensures { keeps_chains failure_of_a_routine_row.deck failure_of_a_routine_row.history ≡ true }
{}

/// A cancel inside a routine of a routine keeps the law.
pub fn cancel_keeps_the_law()
    ensures { keeps_chains cancel_inside_a_routine_row.deck cancel_inside_a_routine_row.history
        ≡ true }
{}

/// Two aborts, the second inside a routine, keep the law.
pub fn two_aborts_keep_the_law()
    ensures { keeps_chains two_aborts_row.deck two_aborts_row.history ≡ true }
{}

/// A Stop keeps the law.
pub fn stop_keeps_the_law()
    ensures { keeps_chains stop_by_an_estai_row.deck stop_by_an_estai_row.history ≡ true }
{}

/// A resource manager that fails keeps the law.
pub fn manager_keeps_the_law()
    ensures { keeps_chains manager_fails_row.deck manager_fails_row.history ≡ true }
{}

/// A purge while a routine runs keeps the law.
pub fn purge_keeps_the_law()
    ensures { keeps_chains memory_end_row.deck memory_end_row.history ≡ true }
{}

/// A task that inherits its ESTAI routines keeps the law.
pub fn estais_keep_the_law()
    ensures { keeps_chains inherited_estai_row.deck inherited_estai_row.history ≡ true }
{}

/// A retry under an older request block keeps the law.
pub fn owner_keeps_the_law()
    ensures { keeps_chains retry_under_the_owner_row.deck retry_under_the_owner_row.history ≡ true }
{}

/// A night of jobs keeps the law.
pub fn night_keeps_the_law()
    ensures { keeps_chains nightly_batch_row.deck nightly_batch_row.history ≡ true }
{}

/// A LEAVE under the name of another routine breaks the law.
pub fn name_of_another_breaks_the_law()
    ensures { keeps_chains percolation_and_retry_row.deck
        (front_and percolation_and_retry_row.history 5 (leave 0 Estae 0 Perc)) ≡ false }
{}

/// The BEGIN of a unit inside a resource manager breaks the law.
pub fn end_in_a_manager_breaks_the_law()
    ensures { keeps_chains manager_fails_row.deck
        (front_and manager_fails_row.history 6 (begin 0 (User 1) false)) ≡ false }
{}

/// A retry after a cancel breaks the law.
pub fn retry_breaks_the_law()
    ensures { keeps_chains cancel_inside_a_routine_row.deck
        (front_and cancel_inside_a_routine_row.history 14 (leave 0 Estae 0 (retry 0 4))) ≡ false }
{}

/// A routine of a routine, both without an SDWA, keeps the law.
pub fn bare_routines_keep_the_law()
    ensures { keeps_chains routine_of_a_bare_routine_row.deck routine_of_a_bare_routine_row.history
        ≡ true }
{}

/// Each way in which a routine of each kind ends keeps the law.
pub fn each_end_keeps_the_law()
    ensures { keeps_chains dense_recovery_row.deck dense_recovery_row.history ≡ true }
{}
