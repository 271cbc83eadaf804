//! Laws of codes, their texts and their words. Each function does nothing: its contract is the law,
//! for every code and every text.

ghost use Rattle.std.specs.Prelude.{◌≡◌, ℕ, ◌^◌, ◌<◌, ◌≤◌, ◌↔◌, IsTrue, List, Some, length};
ghost use Rattle.std.specs.List.{AllByRecursion};
ghost use Rattle.rtm_codes.specs.declared.code.Code.{Code};
ghost use Rattle.rtm_codes.specs.Code.{IsDigitOrCapital, IsInRange, IsVisible, Spells, packed_of, same_code, short_of, text_of};
ghost use Rattle.rtm_codes.specs.Reading.{code_in};

/// The test `same_code` of definitions is equality.
pub fn sameness_is_equality()
    ensures { (c d : Code) → IsTrue (same_code c d) ↔ (c ≡ d) }
{}

/// A text is read as a code exactly where it spells that code.
pub fn reading_is_spelling()
    ensures { (text : List ℕ) (code : Code) → (code_in text ≡ Some code) ↔ Spells text code }
{}

/// A text spells one code at most.
pub fn spelling_is_unique()
    ensures { (text : List ℕ) (c d : Code) → Spells text c → Spells text d → c ≡ d }
{}

/// A code that is spelled is in range.
pub fn spelled_is_in_range()
    ensures { (text : List ℕ) (code : Code) → Spells text code → IsInRange code }
{}

/// What is written of a code spells it, and so is read as that code again.
pub fn written_is_read()
    ensures text { (code : Code) → IsInRange code → Spells (text_of code) code }
    ensures short { (code : Code) → IsInRange code → Spells (short_of code) code }
    ensures text_again { (code : Code) → IsInRange code → code_in (text_of code) ≡ Some code }
    ensures short_again { (code : Code) → IsInRange code → code_in (short_of code) ≡ Some code }
{}

/// No spelling of a code is shorter than its short text.
pub fn short_is_shortest()
    ensures { (text : List ℕ) (code : Code) → Spells text code →
        length (short_of code) ≤ length text }
{}

/// Two codes in range with one text, one short text or one word are the same.
pub fn written_is_unique()
    ensures text { (c d : Code) → IsInRange c → IsInRange d → text_of c ≡ text_of d → c ≡ d }
    ensures short { (c d : Code) → IsInRange c → IsInRange d → short_of c ≡ short_of d → c ≡ d }
    ensures word { (c d : Code) → IsInRange c → IsInRange d → packed_of c ≡ packed_of d → c ≡ d }
{}

/// Each spelling of a code, and so each text that is written, has two to five characters.
pub fn spellings_are_short()
    ensures least { (text : List ℕ) (code : Code) → Spells text code → 2 ≤ length text }
    ensures most { (text : List ℕ) (code : Code) → Spells text code → length text ≤ 5 }
{}

/// Each character of a spelling, and so of a text that is written, is a digit or a capital letter.
pub fn spellings_are_visible()
    ensures plain { (text : List ℕ) (code : Code) → Spells text code →
        AllByRecursion IsDigitOrCapital text }
    ensures visible { (text : List ℕ) (code : Code) → Spells text code →
        AllByRecursion IsVisible text }
{}

/// The word of a code in range has 32 bits.
pub fn words_fit()
    ensures { (code : Code) → IsInRange code → packed_of code < 2 ^ 32 }
{}
