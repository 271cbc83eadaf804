//! Histories that break the law of chains, each with the sentence that it breaks. A row of `rows` up to an entry that
//! another machine would make: the form of the law that is computed refuses each.

ghost use Rattle.std.specs.Prelude.{◌≡◌, true, false, None};
ghost use Rattle.rtm_codes.specs.declared.code.Code.TheVariants.{Sys, User};
ghost use Rattle.rtm_deck_operands.specs.declared.value.Res.TheVariants.{Enq};
ghost use Rattle.rtm_model.specs.declared.entry.Verdict.TheVariants.{Fail};
ghost use Rattle.rtm_model.specs.declared.reg.Kind.TheVariants.{Estae, Estai, Frr, Mgr};
ghost use Rattle.rtm_model.specs.ChainLaw.{keeps_chains};
ghost use Rattle.rtm_model_rows.specs.Writing.{begin, enter, front_and, full_mark, leave, mark, memend};
ghost use Rattle.rtm_model_rows.specs.Writing.{plain_done, purge, release, retry};
ghost use Rattle.rtm_model_rows.specs.CancelInsideARoutine as cancel_inside_a_routine_row;
ghost use Rattle.rtm_model_rows.specs.CancelPassesARoutine as cancel_passes_a_routine_row;
ghost use Rattle.rtm_model_rows.specs.FailureOfARoutine as failure_of_a_routine_row;
ghost use Rattle.rtm_model_rows.specs.InheritedEstai as inherited_estai_row;
ghost use Rattle.rtm_model_rows.specs.ManagerFails as manager_fails_row;
ghost use Rattle.rtm_model_rows.specs.PercolationAndRetry as percolation_and_retry_row;
ghost use Rattle.rtm_model_rows.specs.StopByAnEstai as stop_by_an_estai_row;

/// A cancel that passes a routine over keeps the law.
pub fn passed_routine_keeps_the_law()
    ensures { keeps_chains cancel_passes_a_routine_row.deck cancel_passes_a_routine_row.history
        ≡ true }
{}

/// Routines are entered in their order: not the oldest before the newest.
pub fn oldest_before_the_newest()
    ensures { keeps_chains percolation_and_retry_row.deck
        (front_and percolation_and_retry_row.history 3 (enter 0 Estae 0 (mark (Sys 0x0C1))))
        ≡ false }
{}

/// No routine is entered twice for an error.
pub fn entered_once_more()
    ensures { keeps_chains percolation_and_retry_row.deck
        (front_and percolation_and_retry_row.history 6
        (enter 0 Estae 1 (full_mark (Sys 0x0C1) None false true false))) ≡ false }
{}

/// The routines that are entered are those that were eligible when the error was born: not one that a retry has
/// removed.
pub fn removed_and_entered()
    ensures { keeps_chains percolation_and_retry_row.deck
        (front_and percolation_and_retry_row.history 10 (enter 0 Estae 0 (mark (Sys 0x0C4))))
        ≡ false }
{}

/// For a TERM-only error no routine with TERM=NO is eligible.
pub fn term_no_for_a_cancel()
    ensures { keeps_chains cancel_inside_a_routine_row.deck
        (front_and cancel_inside_a_routine_row.history 10
        (enter 0 Estae 7 (full_mark (Sys 0x222) None true false false))) ≡ false }
{}

/// The end of a unit waits until the list of its error is used up: it begins without the ESTAI routine of its mother.
pub fn end_before_the_list_is_used_up()
    ensures { keeps_chains inherited_estai_row.deck
        (front_and inherited_estai_row.history 5 (begin 2 (Sys 0x0C7) false)) ≡ false }
{}

/// After a Stop no routine is entered.
pub fn entered_after_a_stop()
    ensures { keeps_chains stop_by_an_estai_row.deck (front_and stop_by_an_estai_row.history 6
        (enter 2 Estai 0 (full_mark (Sys 0x0C7) None false true false))) ≡ false }
{}

/// A retry is of the routine that runs: not of an FRR that nobody has entered.
pub fn retry_of_a_stranger()
    ensures { keeps_chains percolation_and_retry_row.deck
        (front_and percolation_and_retry_row.history 8 (leave 0 Frr 5 (retry 0 4))) ≡ false }
{}

/// What fails is the routine that runs: not another manager.
pub fn failure_of_a_stranger()
    ensures { keeps_chains manager_fails_row.deck
        (front_and manager_fails_row.history 6 (leave 0 Mgr 77 Fail)) ≡ false }
{}

/// Nothing fails in the outermost bracket, where no routine runs.
pub fn failure_of_nobody()
    ensures { keeps_chains percolation_and_retry_row.deck
        (front_and percolation_and_retry_row.history 10 (leave 0 Estae 0 Fail)) ≡ false }
{}

/// A routine fails by an error of its own alone.
pub fn failure_by_no_error()
    ensures { keeps_chains percolation_and_retry_row.deck
        (front_and percolation_and_retry_row.history 5 (leave 0 Estae 1 Fail)) ≡ false }
{}

/// A unit begins to end in its outermost bracket: not at an error inside a recovery routine.
pub fn begin_inside_a_routine()
    ensures { keeps_chains failure_of_a_routine_row.deck
        (front_and failure_of_a_routine_row.history 5 (begin 0 (User 7) false)) ≡ false }
{}

/// A unit isn't done while a routine of it runs.
pub fn done_while_a_routine_runs()
    ensures { keeps_chains percolation_and_retry_row.deck
        (front_and percolation_and_retry_row.history 4 (plain_done 0 (Sys 0x0C1))) ≡ false }
{}

/// A unit releases nothing while a routine of it runs.
pub fn release_while_a_routine_runs()
    ensures { keeps_chains percolation_and_retry_row.deck
        (front_and percolation_and_retry_row.history 4 (release 0 Enq 1 0)) ≡ false }
{}

/// A unit purges no other while a routine of it runs.
pub fn purge_while_a_routine_runs()
    ensures { keeps_chains percolation_and_retry_row.deck
        (front_and percolation_and_retry_row.history 4 (purge 0 1)) ≡ false }
{}

/// A unit doesn't end the address space while a routine of it runs.
pub fn memory_end_while_a_routine_runs()
    ensures { keeps_chains percolation_and_retry_row.deck
        (front_and percolation_and_retry_row.history 4 (memend 0)) ≡ false }
{}
