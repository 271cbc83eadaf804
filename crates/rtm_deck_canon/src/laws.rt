//! What the canonical text of a deck keeps.

ghost use Rattle.std.specs.Prelude.{◌≡◌, ℕ, ◌≤◌, IsTrue, List, length, map};
ghost use Rattle.std.specs.List.{AllByRecursion};
ghost use Rattle.rtm_cards.specs.Limits.{most_card_bytes};
ghost use Rattle.rtm_cards.specs.Lines.{lines_of};
ghost use Rattle.rtm_cards.specs.Cards.{card_of, cards_from};
ghost use Rattle.rtm_deck_items.specs.View.{DeckView};
ghost use Rattle.rtm_deck_items.specs.Items.{Item};
ghost use Rattle.rtm_deck_items.specs.WellFormed.{cards_needed, is_well_formed};
ghost use Rattle.rtm_deck_items.specs.Spelling.{SpellsItem, DeckText};
ghost use Rattle.rtm_deck_items.specs.Canon.{item_line, canon_items, canon};

/// The canonical text of a deck that some bytes spell is itself a spelling of that deck.
pub fn canonical_text_spells_its_deck()
    ensures spelled { (d : DeckView) (bytes : List ℕ) → DeckText bytes d → DeckText (canon d) d }

    // Whatever is well formed, and has no card that is too long, can be spelled.
    ensures possible { (d : DeckView) → IsTrue (is_well_formed d)
        → AllByRecursion (λ item. length (item_line d item) ≤ most_card_bytes) (canon_items d)
        → DeckText (canon d) d }

    // It is cut back into the lines that were written.
    ensures lines { (d : DeckView) (bytes : List ℕ) → DeckText bytes d
        → lines_of (canon d) ≡ map (item_line d) (canon_items d) }
{}

/// No spelling of a card is shorter than its canonical line, and none of a deck has fewer cards.
pub fn no_spelling_is_shorter()
    // The card may stand on any line, with comments, blanks and remarks.
    ensures card { (d : DeckView) (number : ℕ) (line : List ℕ) (item : Item)
        → SpellsItem d (card_of number line) item → length (item_line d item) ≤ length line }
    ensures fits { (d : DeckView) (bytes : List ℕ) → DeckText bytes d
        → AllByRecursion (λ item. length (item_line d item) ≤ most_card_bytes) (canon_items d) }
    ensures cards { (d : DeckView) (bytes : List ℕ) → DeckText bytes d
        → length (canon_items d) ≤ length (cards_from 1 (lines_of bytes)) }

    // The limit on cards counts the canonical ones.
    ensures count { (d : DeckView) → length (canon_items d) ≡ cards_needed d }
{}
