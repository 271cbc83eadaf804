//! What the definitions of decks and faults come to, with the reader in hand.

ghost use Rattle.std.specs.Prelude.{◌≡◌, ◌⊎◌, ◌↔◌, ℕ, List};
ghost use Rattle.rtm_deck_items.specs.declared.why.Why.{Why};
ghost use Rattle.rtm_deck_items.specs.View.{DeckView};
ghost use Rattle.rtm_deck_items.specs.Spelling.{DeckText};
ghost use Rattle.rtm_deck_items.specs.Faults.{IsFirstFault};
ghost use Rattle.rtm_deck_items.specs.Canon.{canon};

/// Each input spells exactly one deck or has exactly one first fault, and never both.
pub fn each_input_is_a_deck_or_has_a_fault()
    ensures either { (bytes : List ℕ) → ((d : DeckView) × DeckText bytes d)
        ⊎ ((card : ℕ) × (why : Why) × IsFirstFault bytes card why) }
    ensures not_both { (bytes : List ℕ) (d : DeckView) (card : ℕ) (why : Why) → DeckText bytes d
        → IsFirstFault bytes card why → ⊥ }
    ensures one_deck { (bytes : List ℕ) (a b : DeckView) → DeckText bytes a → DeckText bytes b
        → a ≡ b }
{}

/// The canonical text of a deck that is spelled spells that deck and no other. So two inputs have the same canonical
/// text exactly where they spell the same deck.
pub fn canonical_texts_are_read_back()
    ensures back { (bytes : List ℕ) (d other : DeckView) → DeckText bytes d
        → DeckText (canon d) other → other ≡ d }
    ensures same { (a b : List ℕ) (d e : DeckView) → DeckText a d → DeckText b e
        → ((canon d ≡ canon e) ↔ (d ≡ e)) }
{}
