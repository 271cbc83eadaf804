//! An input spells at most one deck, or has one first fault, and never both.

ghost use Rattle.std.specs.Prelude.{◌≡◌, ℕ, List};
ghost use Rattle.rtm_deck_items.specs.declared.why.Why.{Why};
ghost use Rattle.rtm_deck_items.specs.View.{DeckView};
ghost use Rattle.rtm_deck_items.specs.Spelling.{DeckText};
ghost use Rattle.rtm_deck_items.specs.Faults.{IsFirstFault};

/// Bytes spell at most one deck.
pub fn one_deck_for_one_input()
    ensures { (bytes : List ℕ) (a b : DeckView) → DeckText bytes a → DeckText bytes b → a ≡ b }
{}

/// Bytes that spell a deck have no first fault.
pub fn no_deck_with_a_fault()
    ensures { (bytes : List ℕ) (d : DeckView) (card : ℕ) (why : Why) → DeckText bytes d
        → IsFirstFault bytes card why → ⊥ }
{}

/// Bytes have at most one first fault.
pub fn one_first_fault()
    ensures card { (bytes : List ℕ) (a b : ℕ) (p q : Why) → IsFirstFault bytes a p
        → IsFirstFault bytes b q → a ≡ b }
    ensures why { (bytes : List ℕ) (a b : ℕ) (p q : Why) → IsFirstFault bytes a p
        → IsFirstFault bytes b q → p ≡ q }
{}
