//! What the words ask for.

ghost use Rattle.std.specs.Prelude.{◌≡◌, ◌↔◌, ◌≤◌, IsTrue, MatchOption, decimal};
ghost use Rattle.rtm_top.specs.Request.{AreUnknown, IsThatLoad, IsNoLoad, IsRequest, words_of};

use crate::word::RtmWord;
use itoa::Buffer;

/// What a call of the program is to do.
#[derive(Clone, Copy, Debug, PartialEq, Eq)]
pub enum Request {
    /// Read a deck and write its canonical text.
    Scan,
    /// Run a deck on one thread and write its trace.
    Seq,
    /// Run a deck as the caller's runner does, on threads say, and write its trace.
    Run,
    /// Read a deck with a trace, and judge the trace.
    Verify,
    /// Run the deck that is made of so many tasks, and write what came of it in one line.
    Load(u8),
}

/// What the words ask for, where they are those of a request.
pub fn request_of(words: &[RtmWord]) -> Option<Request>
    ensures { MatchOption result (AreUnknown words.now)
        (λ request. IsRequest request × (words.now ≡ words_of request)) }
{
    match words {
        [word] if is_word(word, b"scan") => Some(Request::Scan),
        [word] if is_word(word, b"seq") => Some(Request::Seq),
        [word] if is_word(word, b"run") => Some(Request::Run),
        [word] if is_word(word, b"verify") => Some(Request::Verify),
        [word, number] if is_word(word, b"load") => load_of(number),
        _ => None,
    }
}

fn load_of(number: &RtmWord) -> Option<Request>
    ensures { MatchOption result (IsNoLoad number.now) (λ request. IsThatLoad number.now request) }
{
    match number_of(number.text.as_bytes()) {
        Some(tasks) => Some(Request::Load(tasks)),
        None => None,
    }
}

// The number from 1 to 60 that the text is, without leading zeros.
fn number_of(text: &[u8]) -> Option<u8>
    ensures { MatchOption result (IsNoLoad text.now)
        (λ n. (1 ≤ n) × (n ≤ 60) × (text.now ≡ decimal n)) }
{
    'numbers: for number in 1..61 {
        if is_decimal(text, number) {
            return Some(number);
        }
    }
    None
}

fn is_decimal(text: &[u8], number: u8) -> bool
    ensures { IsTrue result ↔ (text.now ≡ decimal number) }
{
    let mut buffer = Buffer::new();
    text == buffer.format(number).as_bytes()
}

fn is_word(word: &RtmWord, text: &[u8]) -> bool
    ensures { IsTrue result ↔ (word.now ≡ text.now) }
{
    word.text.as_bytes() == text
}
