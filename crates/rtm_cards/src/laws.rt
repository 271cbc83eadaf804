//! What the definitions of cutting come to.

ghost use Rattle.std.specs.Prelude.{◌≡◌, ◌⊎◌, ◌↔◌, ℕ, ◌+◌, ◌<◌, List, length, take};
ghost use Rattle.std.specs.List.{flat_map, AllByRecursion};
ghost use Rattle.rtm_cards.specs.declared.fault.CutFault.{CutFault};
ghost use Rattle.rtm_cards.specs.declared.fault.CutWhy.TheVariants.{TooLong};
ghost use Rattle.rtm_cards.specs.Limits.{most_bytes};
ghost use Rattle.rtm_cards.specs.Text.{line_feed};
ghost use Rattle.rtm_cards.specs.Lines.{lines_of, number_at};
ghost use Rattle.rtm_cards.specs.Fields.{op_of};
ghost use Rattle.rtm_cards.specs.Cards.{CardText, card_of};
ghost use Rattle.rtm_cards.specs.Faults.{HasNoFault, IsFirstFault};
ghost use Rattle.rtm_cards.specs.Spelling.{Lacks, line_with_feed, SpellLines, SpellsCard};

/// Each input has no fault, or exactly one first fault, and only its size makes it too long.
pub fn each_input_has_one_first_fault()
    ensures either { (bytes : List ℕ) → HasNoFault bytes
        ⊎ ((fault : CutFault) × IsFirstFault bytes fault) }
    ensures not_both { (bytes : List ℕ) (fault : CutFault) → HasNoFault bytes
        → IsFirstFault bytes fault → ⊥ }
    ensures one { (bytes : List ℕ) (a b : CutFault) → IsFirstFault bytes a
        → IsFirstFault bytes b → a ≡ b }
    ensures too_long { (bytes : List ℕ) (fault : CutFault) → IsFirstFault bytes fault
        → ((fault.why ≡ TooLong) ↔ (most_bytes < length bytes)) }
{}

/// The lines of an input are the only ones that spell it.
pub fn lines_spell_their_input()
    ensures spelled { (bytes : List ℕ) → SpellLines bytes (lines_of bytes) }
    ensures only { (bytes : List ℕ) (lines : List (List ℕ)) → SpellLines bytes lines
        → lines_of bytes ≡ lines }

    // Lines that are written are read again.
    ensures written { (lines : List (List ℕ)) → AllByRecursion (Lacks line_feed) lines
        → lines_of (flat_map line_with_feed lines) ≡ lines }

    // The card that holds a byte is the last one up to that byte.
    ensures number { (bytes : List ℕ) (i : ℕ) → i < length bytes
        → number_at bytes i ≡ length (lines_of (take (i + 1) bytes)) }
{}

/// The fields of a card with an operation are the only ones that its line spells.
pub fn fields_spell_their_card()
    ensures spelled { (number : ℕ) (line : List ℕ) → 0 < length (op_of line)
        → SpellsCard line (card_of number line) }
    ensures only { (line : List ℕ) (c : CardText) → SpellsCard line c → card_of c.number line ≡ c }
{}
