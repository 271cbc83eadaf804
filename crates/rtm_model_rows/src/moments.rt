//! What entries alone say of a unit at a moment of a history: its brackets, whether it has begun to end, whether
//! it is doomed, and whether memory end has begun.

ghost use Rattle.std.specs.Prelude.{◌≡◌, ◌∷◌, [], true, false, take, None, Some};
ghost use Rattle.rtm_codes.specs.declared.code.Code.TheVariants.{User};
ghost use Rattle.rtm_deck_items.specs.declared.op.Op.TheVariants as ops;
ghost use Rattle.rtm_model.specs.declared.entry.Class.TheVariants.{Abterm, Cancel, Detach, Mother, Srb, Step};
ghost use Rattle.rtm_model.specs.declared.reg.Kind.TheVariants.{Estae};
ghost use Rattle.rtm_model.specs.Entries.{bracket, forbids_retry, has_begun, is_doomed, op_executed_at};
ghost use Rattle.rtm_model.specs.Entries.{is_held_off, is_open, memory_end_begun, open_enters, open_error};
ghost use Rattle.rtm_model_rows.specs.Writing.{front_and, opening, purge};
ghost use Rattle.rtm_model_rows.specs.AbtermWithoutRetry as abterm_without_retry_row;
ghost use Rattle.rtm_model_rows.specs.CancelHeldOff as cancel_held_off_row;
ghost use Rattle.rtm_model_rows.specs.CancelInsideARoutine as cancel_inside_a_routine_row;
ghost use Rattle.rtm_model_rows.specs.EndOfTheMother as end_of_the_mother_row;
ghost use Rattle.rtm_model_rows.specs.JobStepEnds as job_step_ends_row;
ghost use Rattle.rtm_model_rows.specs.ManagerFails as manager_fails_row;
ghost use Rattle.rtm_model_rows.specs.MemoryEnd as memory_end_row;
ghost use Rattle.rtm_model_rows.specs.PercolationAndRetry as percolation_and_retry_row;
ghost use Rattle.rtm_model_rows.specs.SrbAndRelatedTask as srb_and_related_task_row;
ghost use Rattle.rtm_model_rows.specs.TwoAborts as two_aborts_row;

/// In a routine of a routine two brackets are open, the newest first.
pub fn brackets_in_brackets()
    ensures { open_enters 0 (take 9 cancel_inside_a_routine_row.history)
        ≡ opening 6 Estae 4 ∷ opening 3 Estae 1 ∷ [] }
{}

/// The bracket of a unit is the newest of those that are open.
pub fn newest_bracket()
    ensures { bracket 0 (take 9 cancel_inside_a_routine_row.history) ≡ Some (opening 6 Estae 4) }
{}

/// When it is left, the one around it is the unit's bracket.
pub fn bracket_around()
    ensures { bracket 0 (take 11 cancel_inside_a_routine_row.history) ≡ Some (opening 3 Estae 1) }
{}

/// When all are left the unit is in the outermost.
pub fn outermost_bracket()
    ensures { bracket 0 (take 12 cancel_inside_a_routine_row.history) ≡ None }
{}

/// Another unit's brackets are its own.
pub fn brackets_of_another_unit()
    ensures { open_enters 0 (take 9 memory_end_row.history) ≡ [] }
{}

/// A purge closes all brackets of its unit.
pub fn purge_closes_brackets()
    ensures { open_enters 1 (front_and memory_end_row.history 9 (purge 2 1)) ≡ [] }
{}

/// A landed abort is the error of the bracket in which it lands.
pub fn landed_error()
    ensures { open_error 0 (take 10 cancel_inside_a_routine_row.history) ≡ Some 9 }
{}

/// While a routine runs, the error that it was entered for stays open, though in no innermost bracket.
pub fn error_around_a_routine()
    ensures { open_error 0 (take 4 percolation_and_retry_row.history) ≡ None }
{}

/// An error stays open until its routine retries.
pub fn error_stays_open()
    ensures { is_open 2 0 (take 8 percolation_and_retry_row.history) ≡ true }
{}

/// A retry ends it.
pub fn error_after_a_retry()
    ensures { is_open 2 0 (take 9 percolation_and_retry_row.history) ≡ false }
{}

/// A unit has begun to end just after its BEGIN.
pub fn begin_of_a_unit()
    ensures { has_begun 0 (take 11 percolation_and_retry_row.history) ≡ true }
{}

/// Before its BEGIN a unit has not begun to end.
pub fn before_the_begin()
    ensures { has_begun 0 (take 10 percolation_and_retry_row.history) ≡ false }
{}

/// The BEGIN of another unit is not its own.
pub fn begin_of_another_unit()
    ensures { has_begun 0 (take 17 two_aborts_row.history) ≡ false }
{}

/// The card of an entry is looked up by the entry.
pub fn executed_card()
    ensures { op_executed_at two_aborts_row.deck two_aborts_row.history 6
        ≡ Some (ops.Abterm 1 (User 5) None false true) }
{}

/// CALLRTM TYPE=ABTERM with RETRY=YES does not forbid retry.
pub fn abterm_with_retry()
    ensures { forbids_retry two_aborts_row.deck two_aborts_row.history Abterm 6 ≡ false }
{}

/// CALLRTM TYPE=ABTERM with RETRY=NO forbids retry.
pub fn abterm_without_retry()
    ensures { forbids_retry abterm_without_retry_row.deck abterm_without_retry_row.history Abterm 1
        ≡ true }
{}

/// A DETACH forbids retry.
pub fn detach_forbids_retry()
    ensures { forbids_retry two_aborts_row.deck two_aborts_row.history Detach 8 ≡ true }
{}

/// A CANCEL forbids retry.
pub fn cancel_forbids_retry()
    ensures { forbids_retry cancel_inside_a_routine_row.deck cancel_inside_a_routine_row.history
        Cancel 8 ≡ true }
{}

/// The end of the mother forbids retry.
pub fn mother_forbids_retry()
    ensures { forbids_retry end_of_the_mother_row.deck end_of_the_mother_row.history Mother 1
        ≡ true }
{}

/// The end of the job step forbids retry.
pub fn step_forbids_retry()
    ensures { forbids_retry job_step_ends_row.deck job_step_ends_row.history Step 3 ≡ true }
{}

/// The error of an SRB does not forbid retry.
pub fn srb_allows_retry()
    ensures { forbids_retry srb_and_related_task_row.deck srb_and_related_task_row.history Srb 15
        ≡ false }
{}

/// An abort with retry dooms nobody.
pub fn not_yet_doomed()
    ensures { is_doomed two_aborts_row.deck 1 (take 13 two_aborts_row.history) ≡ false }
{}

/// An abort that forbids retry dooms the unit in which it lands.
pub fn doomed_by_a_detach()
    ensures { is_doomed two_aborts_row.deck 1 (take 14 two_aborts_row.history) ≡ true }
{}

/// A routine with CANCEL=NO holds aborts off.
pub fn held_off_by_cancel_no()
    ensures { is_held_off cancel_held_off_row.deck 0 cancel_held_off_row.history ≡ true }
{}

/// Routines with CANCEL=YES hold nothing off.
pub fn not_held_off()
    ensures { is_held_off cancel_inside_a_routine_row.deck 0
        (take 9 cancel_inside_a_routine_row.history) ≡ false }
{}

/// An FRR that runs holds aborts off.
pub fn held_off_by_an_frr()
    ensures { is_held_off srb_and_related_task_row.deck 2 (take 9 srb_and_related_task_row.history)
        ≡ true }
{}

/// A resource manager that runs holds aborts off.
pub fn held_off_by_a_manager()
    ensures { is_held_off manager_fails_row.deck 0 (take 4 manager_fails_row.history) ≡ true }
{}

/// CALLRTM TYPE=MEMTERM begins memory end.
pub fn memory_end_by_a_card()
    ensures { memory_end_begun memory_end_row.deck (take 12 memory_end_row.history) ≡ true }
{}

/// Before it memory end has not begun.
pub fn before_memory_end()
    ensures { memory_end_begun memory_end_row.deck (take 11 memory_end_row.history) ≡ false }
{}

/// The end of a subtask begins no memory end.
pub fn end_of_a_subtask()
    ensures { memory_end_begun job_step_ends_row.deck (take 6 job_step_ends_row.history) ≡ false }
{}

/// The end of the job step task begins memory end.
pub fn end_of_the_job_step()
    ensures { memory_end_begun job_step_ends_row.deck (take 7 job_step_ends_row.history) ≡ true }
{}
