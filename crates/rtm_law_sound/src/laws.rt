//! Each law is the contract of a function that does nothing. A deck is any that is well formed, as each one in hand is
//! (rtm_deck_items::Deck::keeps_its_form).

ghost use Rattle.std.specs.Prelude.{◌≡◌, ℕ, ◌<◌, ◌++◌, ◌∷◌, [], List, length, take, Some, IsTrue};
ghost use Rattle.std.specs.List.{AllByRecursion};
ghost use Rattle.rtm_deck_items.specs.View.{DeckView};
ghost use Rattle.rtm_deck_items.specs.WellFormed.{is_well_formed};
ghost use Rattle.rtm_model.specs.declared.entry.Entry.{Entry};
ghost use Rattle.rtm_model.specs.declared.entry.What.{What};
ghost use Rattle.rtm_model.specs.inner.Applies.{CanApply};
ghost use Rattle.rtm_model.specs.Arrivals.{arrival};
ghost use Rattle.rtm_model.specs.Advance.{world};
ghost use Rattle.rtm_model.specs.Fits.{Fits};
ghost use Rattle.rtm_model.specs.Legal.{Legal, MayFollow};
ghost use Rattle.rtm_model.specs.Moments.{IsAt, before};
ghost use Rattle.rtm_model.specs.NextEntry.{next};
ghost use Rattle.rtm_model.specs.inner.Soundness.{IsSound};
ghost use Rattle.rtm_model.specs.Turns.{entry_of};

/// After every legal history the world is sound: its counts are within their limits, its brackets stand in one another,
/// each with a request block, its routines are owned, and its numbers are in their ranges.
pub fn legal_histories_are_sound()
    ensures { (d : DeckView) (history : List Entry) → IsTrue (is_well_formed d) → Legal d history
        → IsSound d (length history) (world d history) }
{}

/// What a unit makes next after a legal history can be applied: what it names is there, and there is room for what it
/// makes. So can the arrival of a command.
pub fn whatever_may_follow_can_be_applied()
    ensures next { (d : DeckView) (history : List Entry) (u : ℕ) (what : What)
        → IsTrue (is_well_formed d)
        → Legal d history → next d (world d history) u ≡ Some what
        → CanApply d (world d history) (entry_of u what) }
    ensures arrival { (d : DeckView) (history : List Entry) (cmd : ℕ) (e : Entry)
        → IsTrue (is_well_formed d)
        → Legal d history → arrival d (world d history) (length history) cmd ≡ Some e
        → CanApply d (world d history) e }
{}

/// Each entry of a legal history could be applied where it stands.
pub fn each_entry_was_applied()
    ensures { (d : DeckView) (history : List Entry) (i : ℕ) (e : Entry) → IsTrue (is_well_formed d)
        → Legal d history
        → IsAt history i e → CanApply d (before d history i) e }
{}

/// Every prefix of a legal history is legal.
pub fn prefixes_are_legal()
    ensures { (d : DeckView) (history : List Entry) (i : ℕ) → Legal d history
        → Legal d (take i history) }
{}

/// An entry that may follow a legal history makes another legal one of it, below the limit.
pub fn one_more_entry_is_legal()
    ensures { (d : DeckView) (history : List Entry) (e : Entry) → Legal d history
        → length history < d.limit
        → MayFollow d (world d history) (length history) e e.what → Legal d (history ++ e ∷ []) }
{}

/// Each entry of a legal history fits the deck: places, commands, units and owners are the deck's, and completion codes
/// and all other numbers are in their ranges.
pub fn each_entry_fits()
    ensures { (d : DeckView) (history : List Entry) → IsTrue (is_well_formed d) → Legal d history
        → AllByRecursion (Fits d) history }
{}
