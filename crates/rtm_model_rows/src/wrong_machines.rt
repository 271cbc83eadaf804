//! Machines with one wrong rule each, and a history that each makes to its end. The right machine doesn't make it: it
//! breaks one of the laws, whose form that is computed refuses it.

ghost use Rattle.std.specs.Prelude.{◌≡◌, ◌++◌, ◌∷◌, [], true, false, drop, take, None};
ghost use Rattle.rtm_codes.specs.declared.code.Code.TheVariants.{Sys, User};
ghost use Rattle.rtm_deck_operands.specs.declared.value.Res.TheVariants.{Dsn, Enq};
ghost use Rattle.rtm_model.specs.declared.entry.Class.TheVariants.{Abterm, Cancel};
ghost use Rattle.rtm_model.specs.declared.entry.Verdict.TheVariants.{Fail, Perc};
ghost use Rattle.rtm_model.specs.declared.reg.Kind.TheVariants.{Estae, Estai};
ghost use Rattle.rtm_model.specs.AbortLaw.{keeps_aborts};
ghost use Rattle.rtm_model.specs.ChainLaw.{keeps_chains};
ghost use Rattle.rtm_model.specs.HoldLaw.{keeps_holdings};
ghost use Rattle.rtm_model_rows.specs.Writing.{begin, enter, exec, full_mark, land, leave, mark, memend};
ghost use Rattle.rtm_model_rows.specs.Writing.{plain_done, release, retry};
ghost use Rattle.rtm_model_rows.specs.AbtermWithoutRetry as abterm_without_retry_row;
ghost use Rattle.rtm_model_rows.specs.CancelPassesARoutine as cancel_passes_a_routine_row;
ghost use Rattle.rtm_model_rows.specs.CancelWhileAnFrrLives as cancel_while_an_frr_lives_row;
ghost use Rattle.rtm_model_rows.specs.MemoryEnd as memory_end_row;
ghost use Rattle.rtm_model_rows.specs.StopByAnEstai as stop_by_an_estai_row;
ghost use Rattle.rtm_model_rows.specs.TwoAborts as two_aborts_row;

/// It forgets FRRs where it asks whether a unit may be interrupted: the cancel lands at once.
pub fn frr_forgotten()
    ensures { keeps_aborts cancel_while_an_frr_lives_row.deck
        (take 3 cancel_while_an_frr_lives_row.history
        ++ land 0 Cancel 1 (full_mark (Sys 0x222) None true false false)
        ∷ begin 0 (Sys 0x222) false ∷ plain_done 0 (Sys 0x222) ∷ memend 1 ∷ []) ≡ false }
{}

/// Its SETRP clears CLUP: the retry that the abort forbids is made.
pub fn setrp_that_clears_clup()
    ensures aborts { keeps_aborts abterm_without_retry_row.deck
        (take 5 abterm_without_retry_row.history
        ++ leave 0 Estae 0 (retry 0 3) ∷ exec 0 0 3 0
        ∷ begin 0 (Sys 0x000) false ∷ plain_done 0 (Sys 0x000) ∷ memend 1 ∷ []) ≡ false }
    ensures chains { keeps_chains abterm_without_retry_row.deck
        (take 5 abterm_without_retry_row.history
        ++ leave 0 Estae 0 (retry 0 3) ∷ exec 0 0 3 0
        ∷ begin 0 (Sys 0x000) false ∷ plain_done 0 (Sys 0x000) ∷ memend 1 ∷ []) ≡ false }
{}

/// Its purge takes a unit away and forgets what it holds: memory end releases the rest alone.
pub fn purge_that_leaves_a_holding()
    ensures { keeps_holdings memory_end_row.deck (take 14 memory_end_row.history
        ++ release 2 Enq 1 0 ∷ release 2 Dsn 7 0 ∷ memend 2 ∷ []) ≡ false }
{}

/// It goes on after the Stop of an ESTAI routine: the next one is entered.
pub fn stop_that_goes_on()
    ensures { keeps_chains stop_by_an_estai_row.deck (take 6 stop_by_an_estai_row.history
        ++ enter 2 Estai 0 (full_mark (Sys 0x0C7) None false true false) ∷ leave 2 Estai 0 Perc
        ∷ drop 6 stop_by_an_estai_row.history) ≡ false }
{}

/// It enters routines with TERM=NO after a cancel: the routine that a cancel has interrupted fails, and the next one
/// gets control whatever its card says.
pub fn term_no_entered()
    ensures { keeps_chains cancel_passes_a_routine_row.deck
        (take 8 cancel_passes_a_routine_row.history
        ++ enter 0 Estae 1 (full_mark (Sys 0x222) None true false true) ∷ leave 0 Estae 1 Perc
        ∷ enter 0 Estae 0 (full_mark (Sys 0x222) None true true true)
        ∷ drop 9 cancel_passes_a_routine_row.history) ≡ false }
{}

/// It leaves an abort pending that has landed: it lands again, in the routine that its error has entered.
pub fn abort_that_lands_twice()
    ensures { keeps_aborts two_aborts_row.deck (take 13 two_aborts_row.history
        ++ land 1 Abterm 6 (mark (User 5)) ∷ leave 1 Estae 1 Fail
        ∷ begin 1 (User 5) false ∷ plain_done 1 (User 5) ∷ drop 17 two_aborts_row.history)
        ≡ false }
{}
