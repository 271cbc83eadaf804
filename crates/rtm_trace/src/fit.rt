//! Whether an entry fits a deck.

ghost use Rattle.std.specs.Prelude.{◌≡◌};
ghost use Rattle.rtm_trace.specs.inner.Reading.{is_place, is_mark, verdict_fits, what_fits, fits};

use rtm_codes::is_in_range;
use rtm_deck_items::Deck;
use rtm_model::{Entry, Mark, Place, Verdict, What};

fn is_place(deck: &Deck, place: Place) -> bool
    ensures { result ≡ is_place deck.now place }
{
    (place.prog as usize) < deck.programs.len()
        && 1 <= place.op
        && place.op as usize <= deck.lines_of(place.prog).len() + 1
}

fn is_mark(mark: Mark) -> bool
    ensures { result ≡ is_mark mark }
{
    is_in_range(mark.code)
}

fn verdict_fits(deck: &Deck, verdict: Verdict) -> bool
    ensures { result ≡ verdict_fits deck.now verdict }
{
    match verdict {
        Verdict::Retry(place) => is_place(deck, place),
        Verdict::Perc | Verdict::Stop | Verdict::Bad | Verdict::Fail | Verdict::Over => true,
    }
}

/// Whether each number of what an entry says names what is there in the deck.
pub(crate) fn what_fits(deck: &Deck, what: What) -> bool
    ensures { result ≡ what_fits deck.now what }
{
    match what {
        What::Exec { at, .. } => is_place(deck, at),
        What::Error { at, mark } => is_place(deck, at) && is_mark(mark),
        What::Land { mark, .. } | What::Enter { mark, .. } => is_mark(mark),
        What::Leave { verdict, .. } => verdict_fits(deck, verdict),
        What::Arrive { cmd, .. } => (cmd as usize) < deck.commands.len(),
        What::Begin { code, .. } | What::Done { code, .. } => is_in_range(code),
        What::Release { id, owner, .. } => id <= 999_999 && owner as usize <= deck.units.len(),
        What::Purge { unit } => (unit as usize) < deck.units.len(),
        What::MemEnd => true,
    }
}

/// Whether each number of the entry names what is there in the deck.
pub(crate) fn fits(deck: &Deck, entry: &Entry) -> bool
    ensures { result ≡ fits deck.now entry.now }
{
    entry.unit as usize <= deck.units.len() && what_fits(deck, entry.what)
}
