//! Each law is the contract of a function that does nothing.

ghost use Rattle.std.specs.Prelude.{IsTrue, List, take, ℕ};
ghost use Rattle.rtm_deck_items.specs.View.{DeckView};
ghost use Rattle.rtm_deck_items.specs.WellFormed.{is_well_formed};
ghost use Rattle.rtm_model.specs.Legal.{Legal};
ghost use Rattle.rtm_model.specs.declared.entry.Entry.{Entry};
ghost use Rattle.rtm_law_flags.specs.Births.{AreBornOnce, HasWhatLives};
ghost use Rattle.rtm_law_flags.specs.Brackets.{HasNamedBrackets};
ghost use Rattle.rtm_law_flags.specs.Flags.{AreTheFlags, AreTheSharedFlags, KeepsItsBeginning, LivesOnce};

/// At every moment of a legal history the entries before it say of each unit whether it was born, who attached it,
/// whether it has begun to end, is doomed or has ended, and how many of its commands have arrived.
pub fn entries_say_what_each_unit_is()
    ensures { (d : DeckView) (h : List Entry) (i u : ℕ) → IsTrue (is_well_formed d) → Legal d h
        → AreTheFlags d h i u }
{}

/// At every moment of a legal history the entries before it say which events are posted, whether memory end has begun
/// and with which code, and whether the address space has ended.
pub fn entries_say_what_units_share()
    ensures { (d : DeckView) (h : List Entry) (i : ℕ) → IsTrue (is_well_formed d) → Legal d h
        → AreTheSharedFlags d h i }
{}

/// No unit of a legal history is born twice, begins to end twice or dies twice, and none begins to end or dies that
/// doesn't live.
pub fn each_unit_lives_once()
    ensures { (d : DeckView) (h : List Entry) (u : ℕ) → IsTrue (is_well_formed d) → Legal d h
        → LivesOnce d h u }
{}

/// With the code of its BEGIN, and the error that was open then, a unit goes on ending: neither changes any more.
pub fn each_unit_keeps_its_beginning()
    ensures { (d : DeckView) (h : List Entry) (u : ℕ) → IsTrue (is_well_formed d) → Legal d h
        → KeepsItsBeginning d h u }
{}

/// At every moment of a legal history what lives is what the entries before it have made and not ended, kind by kind.
pub fn what_lives_at_every_moment()
    ensures { (d : DeckView) (h : List Entry) (i : ℕ) → IsTrue (is_well_formed d) → Legal d h
        → HasWhatLives d (take i h) }
{}

/// Each thing of a legal history has one entry that is its birth, and what lives is not born again.
pub fn each_thing_is_born_once()
    ensures { (d : DeckView) (h : List Entry) → IsTrue (is_well_formed d) → Legal d h
        → AreBornOnce d h }
{}

/// At every moment of a legal history a unit's open brackets are those of the ENTERs that entries name, each with the
/// routine of its ENTER and the error of the ERROR or LAND that they name; and each was entered after the one around it.
pub fn entries_name_each_bracket_and_error()
    ensures { (d : DeckView) (h : List Entry) (i u : ℕ) → IsTrue (is_well_formed d) → Legal d h
        → HasNamedBrackets d (take i h) u }
{}
