//! Where the deck ends in an input that holds a deck and a trace.

ghost use Rattle.std.specs.Prelude.{◌≡◌, ◌≤◌, drop, length, take};
ghost use Rattle.rtm_cards.specs.Split.{deck_part, ends_deck, trace_part};

use rtm_text::{before, behind_blanks, find, from_first};

// Whether the line ends a deck.
fn ends_deck(line: &[u8]) -> bool
    ensures { result ≡ ends_deck line.now }
{
    before(line, b' ').is_empty()
        && before(behind_blanks(from_first(line, b' ')), b' ') == b"END".as_slice()
}

// How many bytes the deck has, with the line feed of the card that ends it.
fn deck_len(bytes: &[u8]) -> usize
    ensures front { take result bytes.now ≡ deck_part bytes.now }
    ensures rest { drop result bytes.now ≡ trace_part bytes.now }
    ensures within { result ≤ length bytes.now }
{
    let mut at = 0;
    'lines: while at < bytes.len() {
        let rest = bytes.split_at(at).1;
        let len = find(rest, b'\n');
        if ends_deck(rest.split_at(len).0) {
            return (at + len + 1).min(bytes.len());
        }
        at += len + 1;
    }
    bytes.len()
}

/// The deck, up to and with the first card that ends it, and what follows. Without such a card all is deck.
pub fn split(bytes: &[u8]) -> (&[u8], &[u8])
    ensures deck { result.0.now ≡ deck_part bytes.now }
    ensures trace { result.1.now ≡ trace_part bytes.now }
{
    bytes.split_at(deck_len(bytes))
}
