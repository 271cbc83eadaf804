//! What the written cards say.

ghost use Rattle.std.specs.Prelude.{ℕ, ◌≤◌};
ghost use Rattle.rtm_deck_items.specs.Spelling.{DeckText};
ghost use Rattle.rtm_deck_load.specs.Deck.{load_deck};
ghost use Rattle.rtm_deck_load.specs.Text.{load_text};

/// The cards, written as text, spell the deck.
pub fn load_text_spells_load_deck()
    ensures { (n : ℕ) → 1 ≤ n → n ≤ 60 → DeckText (load_text n) (load_deck n) }
{}
