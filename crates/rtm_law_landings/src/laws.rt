//! Each law is the contract of a function that does nothing.

ghost use Rattle.std.specs.Prelude.{IsTrue, List, is_some, take, ℕ, ◌≡◌};
ghost use Rattle.rtm_deck_items.specs.View.{DeckView};
ghost use Rattle.rtm_deck_items.specs.WellFormed.{is_well_formed};
ghost use Rattle.rtm_model.specs.AbortLaw.{AbortLaw, may_interrupt};
ghost use Rattle.rtm_model.specs.Entries.{memory_end_begun};
ghost use Rattle.rtm_model.specs.Legal.{Legal};
ghost use Rattle.rtm_model.specs.Moments.{before, core_before};
ghost use Rattle.rtm_model.specs.NextEntry.{interruptible};
ghost use Rattle.rtm_model.specs.World.{World};
ghost use Rattle.rtm_model.specs.declared.entry.Entry.{Entry};

/// Every legal history keeps the law of aborts: each abort that an entry queues is pending from then on, until it
/// lands or its unit has its BEGIN or PURGE; it lands at most once, as the unit's next entry where it may land and is
/// the first that is pending; and after one that forbids retry no abort lands in the unit, and no routine of it
/// retries.
pub fn every_legal_history_keeps_the_law_of_aborts()
    ensures { (d : DeckView) (h : List Entry) → IsTrue (is_well_formed d) → Legal d h
        → AbortLaw d h }
{}

/// What the entries of a legal history say of where a unit may be interrupted, by its brackets, errors, BEGINs and
/// LANDs, is what its control blocks say.
pub fn entries_say_where_a_unit_may_be_interrupted()
    ensures { (d : DeckView) (h : List Entry) (i u : ℕ) → IsTrue (is_well_formed d) → Legal d h
        → may_interrupt d h i u ≡ interruptible (core_before d h i u) }
{}

/// Memory end has begun where the entries of a legal history say so: by CALLRTM TYPE=MEMTERM, or by the DONE of the
/// job step task.
pub fn entries_say_whether_memory_end_has_begun()
    ensures { (d : DeckView) (h : List Entry) (i : ℕ) → IsTrue (is_well_formed d) → Legal d h
        → is_some (World.memory_end (before d h i)) ≡ memory_end_begun d (take i h) }
{}
