//! Each law is the contract of a function that does no work.

ghost use Rattle.std.specs.Prelude.{IsTrue, List, ℕ};
ghost use Rattle.rtm_crew.specs.Histories.{in_any_order, in_turns};
ghost use Rattle.rtm_deck_items.specs.View.{DeckView};
ghost use Rattle.rtm_deck_items.specs.WellFormed.{is_well_formed};
ghost use Rattle.rtm_desk.specs.Told.{Row};
ghost use Rattle.rtm_model.specs.Legal.{Legal};
ghost use Rattle.rtm_model.specs.declared.entry.Entry.{Entry};
ghost use Rattle.rtm_top_answers.specs.Run.{IsRunOf};
ghost use Rattle.rtm_top_answers.specs.View.{AnswerView};
ghost use Rattle.rtm_trace_judge.specs.Judged.{IsJudged};
ghost use Rattle.rtm_laws.specs.Laws.{KeepsTheLaws};

use rtm_crew::Region;
use rtm_deck_items::Deck;
use rtm_desk::Manager;
use rtm_model::{End, Entry};
use rtm_system::System;

/// Every legal history of a well-formed deck keeps the three laws, in whatever order its units run.
pub fn every_legal_history_keeps_the_laws()
    ensures { (d : DeckView) (h : List Entry) → IsTrue (is_well_formed d) → Legal d h
        → KeepsTheLaws d h }
{}

/// The trace of every system keeps the three laws, whichever calls have made it.
pub fn every_system_keeps_the_laws(system: &System)
    ensures { KeepsTheLaws system.now.deck system.now.trace }
{
    every_legal_history_keeps_the_laws();
    system.trace();
    system.deck().keeps_its_form();
}

/// The trace of every region keeps the three laws, whatever its managers do.
pub fn every_region_keeps_the_laws<M: Manager>(region: &Region<M>)
    ensures { KeepsTheLaws region.now.system.deck region.now.system.trace }
{
    every_system_keeps_the_laws(region.system());
}

/// Every history that is judged to be one of the machine, with whichever end, keeps the three laws.
pub fn every_judged_history_keeps_the_laws(deck: &Deck, entries: &[Entry], end: End)
    ensures { IsJudged deck.now entries.now end → KeepsTheLaws deck.now entries.now }
{
    every_legal_history_keeps_the_laws();
    deck.keeps_its_form();
}

/// Every history that is written under `seq` or `run` keeps the three laws.
pub fn every_written_run_keeps_the_laws()
    ensures in_turns { (bytes : List ℕ) (answer : AnswerView) (told : List Row)
        → (written : IsRunOf in_turns bytes answer told)
        → KeepsTheLaws written.deck written.run.history }
    ensures in_any_order { (bytes : List ℕ) (answer : AnswerView) (told : List Row)
        → (written : IsRunOf in_any_order bytes answer told)
        → KeepsTheLaws written.deck written.run.history }
{
    every_legal_history_keeps_the_laws();
}
