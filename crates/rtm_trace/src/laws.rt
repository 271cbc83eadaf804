//! Laws of a trace's text. Each function does nothing: its contract is the law.

ghost use Rattle.std.specs.Prelude.{◌≡◌, ◌⊎◌, ℕ, ◌<◌, ◌≤◌, ◌^◌, List, length, IsTrue};
ghost use Rattle.std.specs.List.{AllByRecursion};
ghost use Rattle.rtm_deck_items.specs.View.{DeckView};
ghost use Rattle.rtm_deck_items.specs.WellFormed.{is_well_formed};
ghost use Rattle.rtm_model.specs.declared.entry.End.{End};
ghost use Rattle.rtm_model.specs.declared.entry.Entry.{Entry};
ghost use Rattle.rtm_model.specs.Fits.{Fits, IsIndex};
ghost use Rattle.rtm_trace.specs.Lines.{IsTraceOf, IsFirstBadLine};
ghost use Rattle.rtm_trace.specs.Text.{line_text, trace_text};
ghost use Rattle.rtm_trace.specs.View.{TraceView};

/// For one deck, lists of entries that have the same text are the same list, and so are their ends. Texts are of fewer
/// than 2 to the power of 64 bytes.
pub fn texts_are_one_to_one()
    ensures { (d : DeckView) (a b : List Entry) (end other : End) → IsTrue (is_well_formed d)
        → AllByRecursion (Fits d) a → AllByRecursion (Fits d) b
        → length (trace_text d a end) < 2 ^ 64
        → trace_text d a end ≡ trace_text d b other → (a ≡ b) × (end ≡ other) }
{}

/// The line of an entry that fits its deck has at most 100 bytes.
pub fn lines_are_short()
    ensures { (d : DeckView) (n : ℕ) (e : Entry) → IsTrue (is_well_formed d) → IsIndex n → Fits d e
        → length (line_text d n e) ≤ 100 }
{}

/// Bytes are the text of a trace, or have a first bad line, and never both; and each is the only one.
pub fn each_input_is_a_trace_or_has_a_bad_line()
    ensures either { (d : DeckView) (bytes : List ℕ) → IsTrue (is_well_formed d)
        → length bytes < 2 ^ 64
        → ((t : TraceView) × IsTraceOf d bytes t) ⊎ ((line : ℕ) × IsFirstBadLine d bytes line) }
    ensures not_both { (d : DeckView) (bytes : List ℕ) (t : TraceView) (line : ℕ)
        → IsTrue (is_well_formed d)
        → length bytes < 2 ^ 64 → IsTraceOf d bytes t → IsFirstBadLine d bytes line → ⊥ }
    ensures one_trace { (d : DeckView) (bytes : List ℕ) (t u : TraceView)
        → IsTrue (is_well_formed d)
        → length bytes < 2 ^ 64 → IsTraceOf d bytes t → IsTraceOf d bytes u → t ≡ u }
    ensures one_line { (d : DeckView) (bytes : List ℕ) (line other : ℕ)
        → IsFirstBadLine d bytes line
        → IsFirstBadLine d bytes other → line ≡ other }
{}
