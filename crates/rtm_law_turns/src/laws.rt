//! Each law is the contract of a function that does nothing. A deck is any: none of these asks that it is well formed.

ghost use Rattle.std.specs.Prelude.{◌≡◌, ℕ, None, Some, IsSome, take};
ghost use Rattle.rtm_deck_items.specs.View.{DeckView};
ghost use Rattle.rtm_model.specs.declared.entry.Entry.{Entry};
ghost use Rattle.rtm_model.specs.Legal.{Legal, end_of};
ghost use Rattle.rtm_model.specs.Moments.{IsAt, before};
ghost use Rattle.rtm_model.specs.Turns.{seq, seq_step, turn_from};

/// The history that a single thread makes is one that the machine may make.
pub fn the_history_of_one_thread_is_legal()
    ensures { (d : DeckView) → Legal d (seq d) }
{}

/// It goes on until the address space ends, nobody goes on, or there are as many entries as there may be.
pub fn the_history_of_one_thread_has_an_end()
    ensures { (d : DeckView) → IsSome (end_of d (seq d)) }
{}

/// Each of its entries is the one whose turn it is after those before it, and whose turn it is can be read off these
/// alone. It has no end before any of its entries.
pub fn each_entry_is_that_of_its_turn()
    ensures turn { (d : DeckView) (i : ℕ) (e : Entry) → IsAt (seq d) i e
        → seq_step d (before d (seq d) i) i (turn_from d 0 (take i (seq d))) ≡ Some e }
    ensures no_end { (d : DeckView) (i : ℕ) (e : Entry) → IsAt (seq d) i e
        → end_of d (take i (seq d)) ≡ None }
{}
