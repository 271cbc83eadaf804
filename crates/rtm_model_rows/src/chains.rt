//! The law of chains on rows: the course of an error through a history, from the list of the routines that were
//! eligible when it came. Where a history breaks the law there is none.

ghost use Rattle.std.specs.Prelude.{◌≡◌, ◌++◌, ◌∷◌, [], true, false, take, None, Some};
ghost use Rattle.rtm_codes.specs.declared.code.Code.TheVariants.{Sys, User};
ghost use Rattle.rtm_deck_operands.specs.declared.value.Res.TheVariants.{Enq};
ghost use Rattle.rtm_model.specs.declared.entry.Verdict.TheVariants.{Perc, Fail};
ghost use Rattle.rtm_model.specs.declared.reg.Kind.TheVariants.{Estae, Estai, Frr, Mgr};
ghost use Rattle.rtm_model.specs.Course.{Goes, Runs, Closed, course_of};
ghost use Rattle.rtm_model.specs.Eligible.{list_of};
ghost use Rattle.rtm_model_rows.specs.Writing.{enter, leave, begin, retry, release, plain_done, purge, memend, front_and};
ghost use Rattle.rtm_model_rows.specs.Writing.{full_mark, mark, routine};
ghost use Rattle.rtm_model_rows.specs.CancelInsideARoutine as cancel_inside_a_routine_row;
ghost use Rattle.rtm_model_rows.specs.FailureOfARoutine as failure_of_a_routine_row;
ghost use Rattle.rtm_model_rows.specs.InheritedEstai as inherited_estai_row;
ghost use Rattle.rtm_model_rows.specs.ManagerFails as manager_fails_row;
ghost use Rattle.rtm_model_rows.specs.MemoryEnd as memory_end_row;
ghost use Rattle.rtm_model_rows.specs.PercolationAndRetry as percolation_and_retry_row;
ghost use Rattle.rtm_model_rows.specs.RetryUntilTheLimit as retry_until_the_limit_row;
ghost use Rattle.rtm_model_rows.specs.SeventeenFrrs as seventeen_frrs_row;
ghost use Rattle.rtm_model_rows.specs.SixteenBrackets as sixteen_brackets_row;
ghost use Rattle.rtm_model_rows.specs.StopByAnEstai as stop_by_an_estai_row;

/// For an error of the outermost bracket its ESTAE routines are eligible, the newest first.
pub fn eligible_routines()
    ensures { list_of percolation_and_retry_row.deck percolation_and_retry_row.history 2 0
        ≡ routine Estae 1 2 ∷ routine Estae 0 1 ∷ [] }
{}

/// For a cancel no routine with TERM=NO is eligible.
pub fn no_eligible_routine()
    ensures { list_of cancel_inside_a_routine_row.deck cancel_inside_a_routine_row.history 9 0
        ≡ [] }
{}

/// A routine percolates and the next one retries: the error is over.
pub fn percolation_then_retry()
    ensures { course_of percolation_and_retry_row.deck percolation_and_retry_row.history 2 0
        ≡ Some Closed }
{}

/// The last error of a history that ends first still has its whole list.
pub fn retry_not_yet_over()
    ensures { course_of retry_until_the_limit_row.deck retry_until_the_limit_row.history 9 0
        ≡ Some (Goes (list_of retry_until_the_limit_row.deck retry_until_the_limit_row.history 9
        0)) }
{}

/// Sixteen FRRs percolate, and the unit begins to end.
pub fn sixteen_percolations()
    ensures { course_of seventeen_frrs_row.deck seventeen_frrs_row.history 16 0 ≡ Some Closed }
{}

/// Fifteen routines fail inside one another; the first error ends with its unit.
pub fn failures_down_to_the_outermost()
    ensures { course_of sixteen_brackets_row.deck sixteen_brackets_row.history 1 0 ≡ Some Closed }
{}

/// After a cancel inside a routine those with TERM=YES alone go on.
pub fn only_those_with_term_go_on()
    ensures { course_of cancel_inside_a_routine_row.deck cancel_inside_a_routine_row.history 2 0
        ≡ Some Closed }
{}

/// After a Stop the unit begins to end.
pub fn stop_ends_the_list()
    ensures { course_of stop_by_an_estai_row.deck stop_by_an_estai_row.history 2 2 ≡ Some Closed }
{}

/// A purge ends an error whose routine runs.
pub fn purge_ends_an_error()
    ensures { course_of memory_end_row.deck memory_end_row.history 7 1 ≡ Some Closed }
{}

/// The newest routine runs, and the oldest is left.
pub fn routine_runs()
    ensures { course_of percolation_and_retry_row.deck
        (take 5 percolation_and_retry_row.history) 2 0
        ≡ Some (Runs (routine Estae 1 2) (routine Estae 0 1 ∷ []) 0) }
{}

/// An error inside a routine has its own list; the routine runs on.
pub fn error_inside_a_routine()
    ensures { course_of failure_of_a_routine_row.deck (take 5 failure_of_a_routine_row.history) 4 0
        ≡ Some (Goes []) }
{}

/// An error in a resource manager's bracket ends with the manager.
pub fn failure_of_a_manager()
    ensures { course_of manager_fails_row.deck manager_fails_row.history 5 0 ≡ Some Closed }
{}

/// A routine that has percolated is entered again.
pub fn routine_entered_twice()
    ensures { course_of percolation_and_retry_row.deck
        (take 6 percolation_and_retry_row.history ++ enter 0 Estae 1 (full_mark (Sys 0x0C1) None false true false) ∷ []) 2
        0
        ≡ None }
{}

/// The oldest routine is entered before the newest.
pub fn oldest_routine_first()
    ensures { course_of percolation_and_retry_row.deck
        (take 3 percolation_and_retry_row.history ++ enter 0 Estae 0 (mark (Sys 0x0C1)) ∷ []) 2 0
        ≡ None }
{}

/// A routine that was to be removed at its retry is entered for the next error.
pub fn removed_routine_entered()
    ensures { course_of percolation_and_retry_row.deck
        (take 10 percolation_and_retry_row.history ++ enter 0 Estae 0 (mark (Sys 0x0C4)) ∷ []) 9 0
        ≡ None }
{}

/// A unit begins to end at an error inside a recovery routine.
pub fn end_inside_a_routine()
    ensures { course_of failure_of_a_routine_row.deck
        (take 5 failure_of_a_routine_row.history ++ begin 0 (User 7) false ∷ []) 2 0
        ≡ None }
{}

/// A routine retries although a cancel has landed.
pub fn retry_after_a_cancel()
    ensures { course_of cancel_inside_a_routine_row.deck
        (take 14 cancel_inside_a_routine_row.history ++ leave 0 Estae 0 (retry 0 4) ∷ []) 2 0
        ≡ None }
{}

/// A subtask of a subtask ends without the ESTAI routine that it inherits.
pub fn estai_not_inherited()
    ensures { course_of inherited_estai_row.deck
        (take 5 inherited_estai_row.history ++ begin 2 (Sys 0x0C7) false ∷ []) 2 2
        ≡ None }
{}

/// After RC=16 of an ESTAI routine the next one is entered.
pub fn estai_after_a_stop()
    ensures { course_of stop_by_an_estai_row.deck
        (take 6 stop_by_an_estai_row.history ++ enter 2 Estai 0 (full_mark (Sys 0x0C7) None false true false) ∷ []) 2
        2
        ≡ None }
{}

/// A routine is left under the name of another one.
pub fn routine_left_under_another_name()
    ensures { course_of percolation_and_retry_row.deck
        (front_and percolation_and_retry_row.history 5 (leave 0 Estae 0 Perc)) 2 0 ≡ None }
{}

/// A retry is by an FRR that nobody has entered.
pub fn retry_by_another_kind()
    ensures { course_of percolation_and_retry_row.deck
        (front_and percolation_and_retry_row.history 8 (leave 0 Frr 5 (retry 0 4))) 2 0 ≡ None }
{}

/// A resource manager fails under another number.
pub fn manager_left_under_another_name()
    ensures { course_of manager_fails_row.deck
        (front_and manager_fails_row.history 6 (leave 0 Mgr 77 Fail)) 5 0 ≡ None }
{}

/// A unit begins to end at an error inside a resource manager.
pub fn end_inside_a_manager()
    ensures { course_of manager_fails_row.deck
        (front_and manager_fails_row.history 6 (begin 0 (User 1) false)) 5 0 ≡ None }
{}

/// A routine fails in the outermost bracket, where none runs.
pub fn failure_in_the_outermost()
    ensures { course_of percolation_and_retry_row.deck
        (front_and percolation_and_retry_row.history 10 (leave 0 Estae 0 Fail)) 9 0 ≡ None }
{}

/// A routine fails although no error is open in it.
pub fn failure_without_an_error()
    ensures { course_of percolation_and_retry_row.deck
        (front_and percolation_and_retry_row.history 5 (leave 0 Estae 1 Fail)) 2 0 ≡ None }
{}

/// A unit is done while a routine of it runs.
pub fn done_inside_a_routine()
    ensures { course_of percolation_and_retry_row.deck
        (front_and percolation_and_retry_row.history 4 (plain_done 0 (Sys 0x0C1))) 2 0 ≡ None }
{}

/// A resource is released while a routine runs.
pub fn release_inside_a_routine()
    ensures { course_of percolation_and_retry_row.deck
        (front_and percolation_and_retry_row.history 4 (release 0 Enq 1 0)) 2 0 ≡ None }
{}

/// A unit inside a routine purges another one.
pub fn purge_inside_a_routine()
    ensures { course_of percolation_and_retry_row.deck
        (front_and percolation_and_retry_row.history 4 (purge 0 1)) 2 0 ≡ None }
{}

/// The address space ends while a routine runs.
pub fn memory_end_inside_a_routine()
    ensures { course_of percolation_and_retry_row.deck
        (front_and percolation_and_retry_row.history 4 (memend 0)) 2 0 ≡ None }
{}
