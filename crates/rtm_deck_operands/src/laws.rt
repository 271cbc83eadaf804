//! Laws of operands and tables. Each function does nothing: its contract is the law, for every table that is well made,
//! all operands and all values.

ghost use Rattle.std.specs.Prelude.{◌≡◌, ℕ, ◌∷◌, ◌≤◌, ◌↔◌, List, Option, Some, length};
ghost use Rattle.std.specs.List.{AllByRecursion, join_with_byte};
ghost use Rattle.rtm_deck_operands.specs.declared.slot.Slot.{Slot};
ghost use Rattle.rtm_deck_operands.specs.declared.value.Value.{Value};
ghost use Rattle.rtm_deck_operands.specs.inner.Reading.{read_slots};
ghost use Rattle.rtm_deck_operands.specs.Slot.{FitsSlots, IsOperandText, IsWellMade, SpellsSlots, blank, canon_operands, comma, field_of};

/// Operands are read as some values exactly where they spell those values.
pub fn reading_is_spelling()
    ensures { (slots : List Slot) (operands : List (List ℕ)) (values : List (Option Value)) →
        IsWellMade slots → (read_slots slots operands ≡ Some values)
        ↔ SpellsSlots slots operands values }
{}

/// Operands spell one list of values at most.
pub fn spelling_is_unique()
    ensures { (slots : List Slot) (operands : List (List ℕ)) (values others : List (Option Value)) →
        IsWellMade slots → SpellsSlots slots operands values → SpellsSlots slots operands others →
        values ≡ others }
{}

/// Values that are spelled fit their slots.
pub fn spelled_values_fit()
    ensures { (slots : List Slot) (operands : List (List ℕ)) (values : List (Option Value)) →
        IsWellMade slots → SpellsSlots slots operands values → FitsSlots slots values }
{}

/// What is written of values that fit spells them, and so is read as those values again.
pub fn written_is_read()
    ensures spelled { (slots : List Slot) (values : List (Option Value)) →
        IsWellMade slots → FitsSlots slots values
        → SpellsSlots slots (canon_operands slots values) values }
    ensures read { (slots : List Slot) (values : List (Option Value)) →
        IsWellMade slots → FitsSlots slots values →
        read_slots slots (canon_operands slots values) ≡ Some values }
{}

/// No spelling of values is shorter than what is written of them: the operand field, with the blank before it and the
/// commas in it, has at most as many bytes.
pub fn written_is_shortest()
    ensures { (slots : List Slot) (operands : List (List ℕ)) (values : List (Option Value)) →
        SpellsSlots slots operands values →
        length (field_of (canon_operands slots values)) ≤ length (field_of operands) }
{}

/// Each operand that is written has bytes, and they are printable, no blank and no comma: so it is cut out of its card
/// again as it is.
pub fn written_is_plain()
    ensures { (slots : List Slot) (values : List (Option Value)) →
        IsWellMade slots → FitsSlots slots values →
        AllByRecursion IsOperandText (canon_operands slots values) }
{}

/// An operand field that isn't empty is a blank and its operands, joined by commas.
pub fn fields_are_joined()
    ensures { (operand : List ℕ) (operands : List (List ℕ)) →
        field_of (operand ∷ operands) ≡ blank ∷ join_with_byte comma (operand ∷ operands) }
{}
