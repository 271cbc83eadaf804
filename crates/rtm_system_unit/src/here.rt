//! The card at a place of a deck.

ghost use Rattle.std.specs.Prelude.{◌≡◌, unwrap_or};
ghost use Rattle.std.specs.Option.{option_copied};
ghost use Rattle.rtm_deck_items.specs.declared.op.Op.TheVariants.{Return};
ghost use Rattle.rtm_deck_items.specs.Reading.{op_at};

use rtm_deck_items::{Deck, Op};
use rtm_model::Place;

/// The card at a place, in the deck itself; none behind the last card, where a program returns (this profile).
pub fn card_at(deck: &Deck, at: Place) -> Option<&Op>
    ensures { unwrap_or (option_copied result) Return ≡ op_at deck.now at.prog at.op }
{
    let lines = deck.lines_of(at.prog);
    match lines.get((at.op as usize).saturating_sub(1)) {
        None => None,
        Some(line) => Some(&line.op),
    }
}
