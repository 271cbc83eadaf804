//! Decks with their histories. Each row is the contract of a function that does nothing: that the history is legal,
//! how it ends, and that it is the one that a single thread makes.

ghost use Rattle.std.specs.Prelude.{◌≡◌, Some};
ghost use Rattle.rtm_model.specs.declared.entry.End.TheVariants.{Ended, Limit, Stalled};
ghost use Rattle.rtm_model.specs.Legal.{Legal, end_of};
ghost use Rattle.rtm_model.specs.Turns.{seq};
ghost use Rattle.rtm_model_rows.specs.PercolationAndRetry as percolation_and_retry_row;
ghost use Rattle.rtm_model_rows.specs.RetryUntilTheLimit as retry_until_the_limit_row;
ghost use Rattle.rtm_model_rows.specs.RoutineOfAnotherBlock as routine_of_another_block_row;
ghost use Rattle.rtm_model_rows.specs.RetryUnderTheOwner as retry_under_the_owner_row;
ghost use Rattle.rtm_model_rows.specs.RoutinesAtXctl as routines_at_xctl_row;
ghost use Rattle.rtm_model_rows.specs.SeventeenFrrs as seventeen_frrs_row;
ghost use Rattle.rtm_model_rows.specs.RetryInsideARoutine as retry_inside_a_routine_row;
ghost use Rattle.rtm_model_rows.specs.FailureOfARoutine as failure_of_a_routine_row;
ghost use Rattle.rtm_model_rows.specs.CancelInsideARoutine as cancel_inside_a_routine_row;
ghost use Rattle.rtm_model_rows.specs.CancelHeldOff as cancel_held_off_row;
ghost use Rattle.rtm_model_rows.specs.CancelPassesARoutine as cancel_passes_a_routine_row;
ghost use Rattle.rtm_model_rows.specs.CancelDiesAtBegin as cancel_dies_at_begin_row;
ghost use Rattle.rtm_model_rows.specs.DetachDiesAtPurge as detach_dies_at_purge_row;
ghost use Rattle.rtm_model_rows.specs.CancelWhileAnFrrLives as cancel_while_an_frr_lives_row;
ghost use Rattle.rtm_model_rows.specs.StopByAnEstai as stop_by_an_estai_row;
ghost use Rattle.rtm_model_rows.specs.InheritedEstai as inherited_estai_row;
ghost use Rattle.rtm_model_rows.specs.SrbAndRelatedTask as srb_and_related_task_row;
ghost use Rattle.rtm_model_rows.specs.MemoryEnd as memory_end_row;
ghost use Rattle.rtm_model_rows.specs.NightlyBatch as nightly_batch_row;
ghost use Rattle.rtm_model_rows.specs.EndOfTheMother as end_of_the_mother_row;
ghost use Rattle.rtm_model_rows.specs.ManagerFails as manager_fails_row;
ghost use Rattle.rtm_model_rows.specs.LinkUnderAnFrr as link_under_an_frr_row;
ghost use Rattle.rtm_model_rows.specs.WaitForEver as wait_for_ever_row;
ghost use Rattle.rtm_model_rows.specs.SixteenBrackets as sixteen_brackets_row;
ghost use Rattle.rtm_model_rows.specs.JobStepEnds as job_step_ends_row;
ghost use Rattle.rtm_model_rows.specs.NormalEnd as normal_end_row;
ghost use Rattle.rtm_model_rows.specs.TwoAborts as two_aborts_row;
ghost use Rattle.rtm_model_rows.specs.AbtermWithoutRetry as abterm_without_retry_row;
ghost use Rattle.rtm_model_rows.specs.BareRoutine as bare_routine_row;
ghost use Rattle.rtm_model_rows.specs.SetrpInABareRoutine as setrp_in_a_bare_routine_row;
ghost use Rattle.rtm_model_rows.specs.BareEstai as bare_estai_row;
ghost use Rattle.rtm_model_rows.specs.FrrBesideABareEstae as frr_beside_a_bare_estae_row;
ghost use Rattle.rtm_model_rows.specs.RoutineOfABareRoutine as routine_of_a_bare_routine_row;
ghost use Rattle.rtm_model_rows.specs.Ret15OutsideARoutine as ret15_outside_a_routine_row;
ghost use Rattle.rtm_model_rows.specs.Ret15InAManager as ret15_in_a_manager_row;
ghost use Rattle.rtm_model_rows.specs.Ret15InAWholeRoutine as ret15_in_a_whole_routine_row;
ghost use Rattle.rtm_model_rows.specs.DenseRecovery as dense_recovery_row;
ghost use Rattle.rtm_model_rows.specs.DenseAborts as dense_aborts_row;
ghost use Rattle.rtm_model_rows.specs.DenseLimits as dense_limits_row;

/// A routine that percolates, and an older one that retries and is removed.
pub fn percolation_and_retry()
    ensures legal { Legal percolation_and_retry_row.deck percolation_and_retry_row.history }
    ensures ends { end_of percolation_and_retry_row.deck percolation_and_retry_row.history
        ≡ Some Ended }
    ensures in_turns { seq percolation_and_retry_row.deck ≡ percolation_and_retry_row.history }
{}

/// A routine that retries the card that failed, until the history has as many entries as it may have.
pub fn retry_until_the_limit()
    ensures legal { Legal retry_until_the_limit_row.deck retry_until_the_limit_row.history }
    ensures ends { end_of retry_until_the_limit_row.deck retry_until_the_limit_row.history
        ≡ Some Limit }
    ensures in_turns { seq retry_until_the_limit_row.deck ≡ retry_until_the_limit_row.history }
{}

/// ESTAEX 0 takes away no routine that another request block has made.
pub fn routine_of_another_block()
    ensures legal { Legal routine_of_another_block_row.deck routine_of_another_block_row.history }
    ensures ends { end_of routine_of_another_block_row.deck routine_of_another_block_row.history
        ≡ Some Ended }
    ensures in_turns { seq routine_of_another_block_row.deck
        ≡ routine_of_another_block_row.history }
{}

/// A retry runs under the request block that made the routine; the newer ones are gone.
pub fn retry_under_the_owner()
    ensures legal { Legal retry_under_the_owner_row.deck retry_under_the_owner_row.history }
    ensures ends { end_of retry_under_the_owner_row.deck retry_under_the_owner_row.history
        ≡ Some Ended }
    ensures in_turns { seq retry_under_the_owner_row.deck ≡ retry_under_the_owner_row.history }
{}

/// XCTL leaves of its request block the routines with XCTL=YES alone.
pub fn routines_at_xctl()
    ensures legal { Legal routines_at_xctl_row.deck routines_at_xctl_row.history }
    ensures ends { end_of routines_at_xctl_row.deck routines_at_xctl_row.history ≡ Some Ended }
    ensures in_turns { seq routines_at_xctl_row.deck ≡ routines_at_xctl_row.history }
{}

/// The seventeenth FRR is the error 07D, and the sixteen percolate, newest first.
pub fn seventeen_frrs()
    ensures legal { Legal seventeen_frrs_row.deck seventeen_frrs_row.history }
    ensures ends { end_of seventeen_frrs_row.deck seventeen_frrs_row.history ≡ Some Ended }
    ensures in_turns { seq seventeen_frrs_row.deck ≡ seventeen_frrs_row.history }
{}

/// An error inside a recovery routine is retried by a routine that it made itself.
pub fn retry_inside_a_routine()
    ensures legal { Legal retry_inside_a_routine_row.deck retry_inside_a_routine_row.history }
    ensures ends { end_of retry_inside_a_routine_row.deck retry_inside_a_routine_row.history
        ≡ Some Ended }
    ensures in_turns { seq retry_inside_a_routine_row.deck ≡ retry_inside_a_routine_row.history }
{}

/// A recovery routine fails, and the next older one gets control.
pub fn failure_of_a_routine()
    ensures legal { Legal failure_of_a_routine_row.deck failure_of_a_routine_row.history }
    ensures ends { end_of failure_of_a_routine_row.deck failure_of_a_routine_row.history
        ≡ Some Ended }
    ensures in_turns { seq failure_of_a_routine_row.deck ≡ failure_of_a_routine_row.history }
{}

/// A cancel lands in a routine of a routine: nothing retries from then on.
pub fn cancel_inside_a_routine()
    ensures legal { Legal cancel_inside_a_routine_row.deck cancel_inside_a_routine_row.history }
    ensures ends { end_of cancel_inside_a_routine_row.deck cancel_inside_a_routine_row.history
        ≡ Some Ended }
    ensures in_turns { seq cancel_inside_a_routine_row.deck ≡ cancel_inside_a_routine_row.history }
{}

/// A routine with CANCEL=NO waits for ever: the cancel stays pending, and the history stalls.
pub fn cancel_held_off()
    ensures legal { Legal cancel_held_off_row.deck cancel_held_off_row.history }
    ensures ends { end_of cancel_held_off_row.deck cancel_held_off_row.history ≡ Some Stalled }
    ensures in_turns { seq cancel_held_off_row.deck ≡ cancel_held_off_row.history }
{}

/// A cancel lands inside a routine: of the others the one with TERM=YES alone gets control.
pub fn cancel_passes_a_routine()
    ensures legal { Legal cancel_passes_a_routine_row.deck cancel_passes_a_routine_row.history }
    ensures ends { end_of cancel_passes_a_routine_row.deck cancel_passes_a_routine_row.history
        ≡ Some Ended }
    ensures in_turns { seq cancel_passes_a_routine_row.deck ≡ cancel_passes_a_routine_row.history }
{}

/// A cancel that is pending when its task begins to end lands no more.
pub fn cancel_dies_at_begin()
    ensures legal { Legal cancel_dies_at_begin_row.deck cancel_dies_at_begin_row.history }
    ensures ends { end_of cancel_dies_at_begin_row.deck cancel_dies_at_begin_row.history
        ≡ Some Ended }
    ensures in_turns { seq cancel_dies_at_begin_row.deck ≡ cancel_dies_at_begin_row.history }
{}

/// A DETACH that is pending when memory end purges its task lands no more.
pub fn detach_dies_at_purge()
    ensures legal { Legal detach_dies_at_purge_row.deck detach_dies_at_purge_row.history }
    ensures ends { end_of detach_dies_at_purge_row.deck detach_dies_at_purge_row.history
        ≡ Some Ended }
    ensures in_turns { seq detach_dies_at_purge_row.deck ≡ detach_dies_at_purge_row.history }
{}

/// Two cancels become one, which lands once the FRR is gone.
pub fn cancel_while_an_frr_lives()
    ensures legal { Legal cancel_while_an_frr_lives_row.deck cancel_while_an_frr_lives_row.history }
    ensures ends { end_of cancel_while_an_frr_lives_row.deck cancel_while_an_frr_lives_row.history
        ≡ Some Ended }
    ensures in_turns { seq cancel_while_an_frr_lives_row.deck
        ≡ cancel_while_an_frr_lives_row.history }
{}

/// RC=16 of an ESTAI routine: no further one of the unit gets control.
pub fn stop_by_an_estai()
    ensures legal { Legal stop_by_an_estai_row.deck stop_by_an_estai_row.history }
    ensures ends { end_of stop_by_an_estai_row.deck stop_by_an_estai_row.history ≡ Some Ended }
    ensures in_turns { seq stop_by_an_estai_row.deck ≡ stop_by_an_estai_row.history }
{}

/// A task inherits the ESTAI routine of its mother.
pub fn inherited_estai()
    ensures legal { Legal inherited_estai_row.deck inherited_estai_row.history }
    ensures ends { end_of inherited_estai_row.deck inherited_estai_row.history ≡ Some Ended }
    ensures in_turns { seq inherited_estai_row.deck ≡ inherited_estai_row.history }
{}

/// The error of an SRB comes too late for its related task.
pub fn srb_and_related_task()
    ensures legal { Legal srb_and_related_task_row.deck srb_and_related_task_row.history }
    ensures ends { end_of srb_and_related_task_row.deck srb_and_related_task_row.history
        ≡ Some Ended }
    ensures in_turns { seq srb_and_related_task_row.deck ≡ srb_and_related_task_row.history }
{}

/// CALLRTM MEMTERM ends the address space past all recovery routines.
pub fn memory_end()
    ensures legal { Legal memory_end_row.deck memory_end_row.history }
    ensures ends { end_of memory_end_row.deck memory_end_row.history ≡ Some Ended }
    ensures in_turns { seq memory_end_row.deck ≡ memory_end_row.history }
{}

/// A batch of four tasks: a retry, an abend with a dump, and a cancel that an ESTAI routine sees.
pub fn nightly_batch()
    ensures legal { Legal nightly_batch_row.deck nightly_batch_row.history }
    ensures ends { end_of nightly_batch_row.deck nightly_batch_row.history ≡ Some Ended }
    ensures in_turns { seq nightly_batch_row.deck ≡ nightly_batch_row.history }
{}

/// The job step task ends while a subtask lives: A03, and the subtask is aborted.
pub fn end_of_the_mother()
    ensures legal { Legal end_of_the_mother_row.deck end_of_the_mother_row.history }
    ensures ends { end_of end_of_the_mother_row.deck end_of_the_mother_row.history ≡ Some Ended }
    ensures in_turns { seq end_of_the_mother_row.deck ≡ end_of_the_mother_row.history }
{}

/// A resource manager that fails is passed over, and what it got is released.
pub fn manager_fails()
    ensures legal { Legal manager_fails_row.deck manager_fails_row.history }
    ensures ends { end_of manager_fails_row.deck manager_fails_row.history ≡ Some Ended }
    ensures in_turns { seq manager_fails_row.deck ≡ manager_fails_row.history }
{}

/// LINK in an SRB is the error 0F8, and memory end purges the SRB.
pub fn link_under_an_frr()
    ensures legal { Legal link_under_an_frr_row.deck link_under_an_frr_row.history }
    ensures ends { end_of link_under_an_frr_row.deck link_under_an_frr_row.history ≡ Some Ended }
    ensures in_turns { seq link_under_an_frr_row.deck ≡ link_under_an_frr_row.history }
{}

/// A wait for an event that nobody posts.
pub fn wait_for_ever()
    ensures legal { Legal wait_for_ever_row.deck wait_for_ever_row.history }
    ensures ends { end_of wait_for_ever_row.deck wait_for_ever_row.history ≡ Some Stalled }
    ensures in_turns { seq wait_for_ever_row.deck ≡ wait_for_ever_row.history }
{}

/// Recovery routines that fail inside one another, down to the sixteenth bracket.
pub fn sixteen_brackets()
    ensures legal { Legal sixteen_brackets_row.deck sixteen_brackets_row.history }
    ensures ends { end_of sixteen_brackets_row.deck sixteen_brackets_row.history ≡ Some Ended }
    ensures in_turns { seq sixteen_brackets_row.deck ≡ sixteen_brackets_row.history }
{}

/// An error that is to end the job step aborts the job step task.
pub fn job_step_ends()
    ensures legal { Legal job_step_ends_row.deck job_step_ends_row.history }
    ensures ends { end_of job_step_ends_row.deck job_step_ends_row.history ≡ Some Ended }
    ensures in_turns { seq job_step_ends_row.deck ≡ job_step_ends_row.history }
{}

/// A task that does nothing ends.
pub fn normal_end()
    ensures legal { Legal normal_end_row.deck normal_end_row.history }
    ensures ends { end_of normal_end_row.deck normal_end_row.history ≡ Some Ended }
    ensures in_turns { seq normal_end_row.deck ≡ normal_end_row.history }
{}

/// Two aborts are pending: the first lands once the FRR is gone, the second in the routine of its error.
pub fn two_aborts()
    ensures legal { Legal two_aborts_row.deck two_aborts_row.history }
    ensures ends { end_of two_aborts_row.deck two_aborts_row.history ≡ Some Ended }
    ensures in_turns { seq two_aborts_row.deck ≡ two_aborts_row.history }
{}

/// CALLRTM TYPE=ABTERM with RETRY=NO: the retry that a routine asks for is refused.
pub fn abterm_without_retry()
    ensures legal { Legal abterm_without_retry_row.deck abterm_without_retry_row.history }
    ensures ends { end_of abterm_without_retry_row.deck abterm_without_retry_row.history
        ≡ Some Ended }
    ensures in_turns { seq abterm_without_retry_row.deck ≡ abterm_without_retry_row.history }
{}

/// A routine without an SDWA asks for a retry by its return code in register 15.
pub fn bare_routine()
    ensures legal { Legal bare_routine_row.deck bare_routine_row.history }
    ensures ends { end_of bare_routine_row.deck bare_routine_row.history ≡ Some Ended }
    ensures in_turns { seq bare_routine_row.deck ≡ bare_routine_row.history }
{}

/// SETRP in a routine without an SDWA is the error EE7.
pub fn setrp_in_a_bare_routine()
    ensures legal { Legal setrp_in_a_bare_routine_row.deck setrp_in_a_bare_routine_row.history }
    ensures ends { end_of setrp_in_a_bare_routine_row.deck setrp_in_a_bare_routine_row.history
        ≡ Some Ended }
    ensures in_turns { seq setrp_in_a_bare_routine_row.deck ≡ setrp_in_a_bare_routine_row.history }
{}

/// An ESTAI routine without an SDWA retries under the oldest request block.
pub fn bare_estai()
    ensures legal { Legal bare_estai_row.deck bare_estai_row.history }
    ensures ends { end_of bare_estai_row.deck bare_estai_row.history ≡ Some Ended }
    ensures in_turns { seq bare_estai_row.deck ≡ bare_estai_row.history }
{}

/// An FRR has its SDWA where ESTAE routines get none.
pub fn frr_beside_a_bare_estae()
    ensures legal { Legal frr_beside_a_bare_estae_row.deck frr_beside_a_bare_estae_row.history }
    ensures ends { end_of frr_beside_a_bare_estae_row.deck frr_beside_a_bare_estae_row.history
        ≡ Some Ended }
    ensures in_turns { seq frr_beside_a_bare_estae_row.deck ≡ frr_beside_a_bare_estae_row.history }
{}

/// A routine that a bare routine makes has its own record: what it asks for leaves that of the other as it was.
pub fn routine_of_a_bare_routine()
    ensures legal { Legal routine_of_a_bare_routine_row.deck routine_of_a_bare_routine_row.history }
    ensures ends { end_of routine_of_a_bare_routine_row.deck routine_of_a_bare_routine_row.history
        ≡ Some Ended }
    ensures in_turns { seq routine_of_a_bare_routine_row.deck
        ≡ routine_of_a_bare_routine_row.history }
{}

/// RET15 outside of a recovery routine is the error EE6.
pub fn ret15_outside_a_routine()
    ensures legal { Legal ret15_outside_a_routine_row.deck ret15_outside_a_routine_row.history }
    ensures ends { end_of ret15_outside_a_routine_row.deck ret15_outside_a_routine_row.history
        ≡ Some Ended }
    ensures in_turns { seq ret15_outside_a_routine_row.deck ≡ ret15_outside_a_routine_row.history }
{}

/// RET15 in a resource manager is the error EE6.
pub fn ret15_in_a_manager()
    ensures legal { Legal ret15_in_a_manager_row.deck ret15_in_a_manager_row.history }
    ensures ends { end_of ret15_in_a_manager_row.deck ret15_in_a_manager_row.history ≡ Some Ended }
    ensures in_turns { seq ret15_in_a_manager_row.deck ≡ ret15_in_a_manager_row.history }
{}

/// RET15 in a routine that has its SDWA changes RC= and RETADDR= of it alone.
pub fn ret15_in_a_whole_routine()
    ensures legal { Legal ret15_in_a_whole_routine_row.deck ret15_in_a_whole_routine_row.history }
    ensures ends { end_of ret15_in_a_whole_routine_row.deck ret15_in_a_whole_routine_row.history
        ≡ Some Ended }
    ensures in_turns { seq ret15_in_a_whole_routine_row.deck
        ≡ ret15_in_a_whole_routine_row.history }
{}

/// Retries by an FRR, an ESTAE and an ESTAI routine, branches that depend on the record, and each abort that a task
/// posts to another.
pub fn dense_recovery()
    ensures legal { Legal dense_recovery_row.deck dense_recovery_row.history }
    ensures ends { end_of dense_recovery_row.deck dense_recovery_row.history ≡ Some Ended }
    ensures in_turns { seq dense_recovery_row.deck ≡ dense_recovery_row.history }
{}

/// Two aborts of one DONE land one after the other; a manager fails, and the master runs that of the address space.
pub fn dense_aborts()
    ensures legal { Legal dense_aborts_row.deck dense_aborts_row.history }
    ensures ends { end_of dense_aborts_row.deck dense_aborts_row.history ≡ Some Ended }
    ensures in_turns { seq dense_aborts_row.deck ≡ dense_aborts_row.history }
{}

/// One request block, ESTAE routine, holding and resource manager more than there may be.
pub fn dense_limits()
    ensures legal { Legal dense_limits_row.deck dense_limits_row.history }
    ensures ends { end_of dense_limits_row.deck dense_limits_row.history ≡ Some Ended }
    ensures in_turns { seq dense_limits_row.deck ≡ dense_limits_row.history }
{}
