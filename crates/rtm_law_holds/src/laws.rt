//! Each law is the contract of a function that does nothing.

ghost use Rattle.std.specs.Prelude.{IsTrue, List};
ghost use Rattle.rtm_deck_items.specs.View.{DeckView};
ghost use Rattle.rtm_deck_items.specs.WellFormed.{is_well_formed};
ghost use Rattle.rtm_model.specs.HoldLaw.{HoldLaw};
ghost use Rattle.rtm_model.specs.Legal.{Legal};
ghost use Rattle.rtm_model.specs.declared.entry.Entry.{Entry};

/// Every legal history keeps the law of holdings: a holding dies at most once, by one FREE or one RELEASE, the newest
/// of equal ones first; after its DONE a unit holds nothing, and after MEMEND nobody does.
pub fn every_legal_history_keeps_the_law_of_holdings()
    ensures { (d : DeckView) (h : List Entry) → IsTrue (is_well_formed d) → Legal d h
        → HoldLaw d h }
{}
