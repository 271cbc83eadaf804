//! Cutting a text at a byte.

ghost use Rattle.std.specs.Prelude.{◌≡◌, ◌≤◌, length, take, drop};
ghost use Rattle.rtm_text.specs.Cutting.{before, from_first, skip_blanks};

/// Where the first byte that is `stop` stands, or the length.
pub fn find(text: &[u8], stop: u8) -> usize
    ensures within { result ≤ length text.now }
    ensures front { take result text.now ≡ before stop text.now }
    ensures rest { drop result text.now ≡ from_first stop text.now }
{
    for (i, byte) in text.iter().enumerate() {
        if *byte == stop {
            return i;
        }
    }
    text.len()
}

/// How many blanks the text begins with.
pub fn count_blanks(text: &[u8]) -> usize
    ensures within { result ≤ length text.now }
    ensures rest { drop result text.now ≡ skip_blanks text.now }
{
    for (i, byte) in text.iter().enumerate() {
        if *byte != b' ' {
            return i;
        }
    }
    text.len()
}

/// The bytes before the first that is `stop`, or all of them.
pub fn before(text: &[u8], stop: u8) -> &[u8]
    ensures { result.now ≡ before stop text.now }
{
    text.split_at(find(text, stop)).0
}

/// The bytes from the first on that is `stop`, or none.
pub fn from_first(text: &[u8], stop: u8) -> &[u8]
    ensures { result.now ≡ from_first stop text.now }
{
    text.split_at(find(text, stop)).1
}

/// The bytes behind the blanks in front.
pub fn behind_blanks(text: &[u8]) -> &[u8]
    ensures { result.now ≡ skip_blanks text.now }
{
    text.split_at(count_blanks(text)).1
}
