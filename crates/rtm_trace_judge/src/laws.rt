//! What the definitions of judging come to.

ghost use Rattle.std.specs.Prelude.{◌≡◌, List, Option, ℕ};
ghost use Rattle.rtm_deck_items.specs.View.{DeckView};
ghost use Rattle.rtm_model.specs.declared.entry.End.{End};
ghost use Rattle.rtm_model.specs.declared.entry.Entry.{Entry};
ghost use Rattle.rtm_model.specs.Legal.{Legal};
ghost use Rattle.rtm_trace_judge.specs.Judged.{IsFirstIllegal, IsJudged, IsWrongEnd};

/// The answers exclude each other: a legal history has no first illegal entry, and one with the stated end has no
/// other end.
pub fn answers_exclude_each_other()
    ensures legal { (d : DeckView) (entries : List Entry) (index : ℕ) (want : Option Entry)
        → Legal d entries
        → IsFirstIllegal d entries index want → ⊥ }
    ensures end { (d : DeckView) (entries : List Entry) (end stated : End) (found : Option End)
        → IsJudged d entries end
        → IsWrongEnd d entries end stated found → ⊥ }
{}

/// At most one entry of a history is its first illegal one, and one entry at most is wanted in its place.
pub fn one_entry_is_the_first_illegal_one()
    ensures index { (d : DeckView) (entries : List Entry) (i j : ℕ) (a b : Option Entry)
        → IsFirstIllegal d entries i a
        → IsFirstIllegal d entries j b → i ≡ j }
    ensures wanted { (d : DeckView) (entries : List Entry) (i j : ℕ) (a b : Option Entry)
        → IsFirstIllegal d entries i a
        → IsFirstIllegal d entries j b → a ≡ b }
{}
