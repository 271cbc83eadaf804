//! Words of a line, and the numbers that they are read as.

ghost use Rattle.std.specs.Prelude.{◌≡◌, ◌+◌, ◌≤◌, ◌<◌, length, take, drop, IfSome};
ghost use Rattle.rtm_trace.specs.inner.Words.{word_of, rest_of, before, behind, number_in};

/// What a number of 32 bits is below.
pub(crate) const BEYOND_U32: u64 = 4_294_967_296;

// How many bytes stand before the first that ends a word.
fn word_len(line: &[u8]) -> usize
    ensures within { result ≤ length line.now }
    ensures word { take result line.now ≡ word_of line.now }
    ensures rest { drop (result + 1) line.now ≡ rest_of line.now }
{
    for (i, byte) in line.iter().enumerate() {
        if *byte <= b' ' {
            return i;
        }
    }
    line.len()
}

// How many bytes stand before the first of that kind.
fn len_before(word: &[u8], stop: u8) -> usize
    ensures within { result ≤ length word.now }
    ensures front { take result word.now ≡ before stop word.now }
    ensures back { drop (result + 1) word.now ≡ behind stop word.now }
{
    for (i, byte) in word.iter().enumerate() {
        if *byte == stop {
            return i;
        }
    }
    word.len()
}

// The bytes before that index and those behind it.
fn parts_at(bytes: &[u8], at: usize) -> (&[u8], &[u8])
    requires { at ≤ length bytes.now }
    ensures front { result.0.now ≡ take at bytes.now }
    ensures back { result.1.now ≡ drop (at + 1) bytes.now }
{
    let (front, back) = bytes.split_at(at);
    match back.split_first() {
        None => (front, back),
        Some((_, rest)) => (front, rest),
    }
}

/// The first word, and what stands behind it and the byte that ends it.
pub(crate) fn cut_word(line: &[u8]) -> (&[u8], &[u8])
    ensures word { result.0.now ≡ word_of line.now }
    ensures rest { result.1.now ≡ rest_of line.now }
{
    parts_at(line, word_len(line))
}

/// The parts of a word before and behind the first byte of that kind.
pub(crate) fn cut_at(word: &[u8], stop: u8) -> (&[u8], &[u8])
    ensures front { result.0.now ≡ before stop word.now }
    ensures back { result.1.now ≡ behind stop word.now }
{
    parts_at(word, len_before(word, stop))
}

// The most digits of a number that is read.
const MOST_DIGITS: usize = 10;

/// The number that at most ten digits make in the base, where it is below the limit.
pub(crate) fn number_in(digits: &[u8], base: u64, limit: u64) -> Option<u64>
    requires { base ≤ 16 }
    ensures value { result ≡ number_in base limit digits.now }
    ensures below { IfSome result (λ n. n < limit) }
{
    if digits.len() > MOST_DIGITS {
        return None;
    }
    let number = rtm_text::number_in(digits, base)?;
    if number < limit { Some(number) } else { None }
}
