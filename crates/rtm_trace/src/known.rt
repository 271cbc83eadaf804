//! What lines said that were read lately. A program that loops, or that many units run, says the same over and over,
//! but for the index and the unit of each line: what stands behind these is known by its bytes, and needn't be read
//! anew.

ghost use Rattle.std.specs.Prelude.{◌≡◌, ◌<◌, ◌++◌, IfOk, IfSome};
ghost use Rattle.rtm_deck_items.specs.View.{DeckView};
ghost use Rattle.rtm_trace.specs.inner.Known.{AreKnown, IsBehindUnit, IsSaid, index_part};
ghost use Rattle.rtm_trace.specs.inner.Words.{names_of};

use crate::entry_line::unit_in;
use crate::names::Names;
use crate::push;
use crate::word::cut_word;
use rtm_codes::NoMemory;
use rtm_deck_items::Deck;
use rtm_model::What;

/// What stands behind the unit of a line that was read, and what it says.
#[derive(Clone, Copy)]
pub(crate) struct Known<'a> {
    bytes: &'a [u8],
    what: What,
}

// How many are remembered.
const PLACES: usize = 256;

/// What was read lately, each at the place that its bytes give.
pub(crate) type Places<'a> = [Option<Known<'a>>; PLACES];

/// The place of such bytes. Any would do; this one is quickly had, and tells most lines of a loop apart.
pub(crate) fn place_of(bytes: &[u8]) -> usize
    ensures { result < 256 }
{
    let mut sum = 0u32;
    let mut weight = 0u32;
    for byte in bytes {
        sum = sum.wrapping_add(u32::from(*byte).wrapping_mul(weight));
        weight = weight.wrapping_add(1);
    }
    (sum % PLACES as u32) as usize
}

/// Nothing is remembered.
pub(crate) fn no_places<'a>() -> Places<'a>
    ensures { (d : DeckView) → AreKnown d result }
{
    [None; PLACES]
}

/// What these bytes say, if they were read lately and are remembered at that place.
pub(crate) fn recall(places: &Places<'_>, place: usize, bytes: &[u8]) -> Option<What>
    requires { place < 256 }
    ensures { (d : DeckView) → AreKnown d places.now → IfSome result (IsSaid d bytes.now) }
{
    let found = places[place];
    let known = found?;
    if known.bytes == bytes {
        Some(known.what)
    } else {
        None
    }
}

/// Remembers at that place what these bytes say.
#[tactic(auto, using(crate::proofs::Remembered::all_set))]
pub(crate) fn remember<'a>(places: &mut Places<'a>, place: usize, bytes: &'a [u8], what: What)
    requires { place < 256 }
    ensures { (d : DeckView) → AreKnown d places.old → IsSaid d bytes.now what
        → AreKnown d places.new }
{
    places[place] = Some(Known { bytes, what });
}

// What stands behind that text, where the line begins with it.
#[tactic(auto, using(crate::proofs::Remembered::stripped))]
fn behind<'a>(line: &'a [u8], text: &[u8]) -> Option<&'a [u8]>
    ensures { IfSome result (λ rest. line.now ≡ text.now ++ rest.now) }
{
    line.strip_prefix(text)
}

/// What stands behind the index of a line and its blank, where the index is that one. The text is room for the index.
pub(crate) fn behind_index<'a>(
    line: &'a [u8],
    index: u64,
    text: &mut Vec<u8>,
) -> Result<Option<&'a [u8]>, NoMemory>
    ensures { IfOk result
        (λ found. IfSome found (λ rest. line.now ≡ index_part index ++ rest.now)) }
{
    text.clear();
    push::number(text, index)?;
    push::bytes(text, b" ")?;
    Ok(behind(line, text))
}

// What stands behind the unit of that number and its blank, where it is that one.
#[tactic(auto, using(crate::proofs::Remembered::behind_both))]
fn behind_unit<'a>(deck: &Deck, unit: u16, line: &'a [u8]) -> Option<&'a [u8]>
    ensures { IfSome result (λ rest. IsBehindUnit deck.now line.now unit rest.now) }
{
    if unit == deck.unit_count() {
        return behind(line, b"* ");
    }
    let card = deck.units.get(unit as usize)?;
    let rest = behind(line, push::name_text(&card.name))?;
    behind(rest, b" ")
}

/// The unit that the line begins with, and what stands behind it and its blank. The guessed one is tried before the
/// names are searched.
pub(crate) fn cut_unit<'a>(
    deck: &Deck,
    names: &Names,
    guess: u16,
    line: &'a [u8],
) -> Option<(u16, &'a [u8])>
    ensures { IfSome result (λ found. IsBehindUnit deck.now line.now found.0 found.1.now) }
{
    if let Some(rest) = behind_unit(deck, guess, line) {
        return Some((guess, rest));
    }
    let (word, _) = cut_word(line);
    let unit = unit_in(names, deck.unit_count(), word)?;
    let rest = behind_unit(deck, unit, line)?;
    Some((unit, rest))
}
