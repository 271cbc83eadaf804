//! Parts of the input.

/// A part of an input of less than 4 GiB, by the indices of its bytes.
#[derive(Clone, Copy, Debug, PartialEq, Eq, Hash)]
pub struct Span {
    /// The index of the first byte.
    pub from: u32,
    /// The index behind the last byte.
    pub to: u32,
}

impl Span {
    ghost use Rattle.std.specs.Prelude.{◌≡◌, ◌+◌, ◌<◌, ◌^◌, ◌≤◌, ◌↔◌, IsTrue, length};
    ghost use Rattle.rtm_cards.specs.Span.{IsWithin, text_of};

    /// The span of all the bytes.
    pub(crate) fn whole_span(bytes: &[u8]) -> Span
        requires { length bytes.now < 2 ^ 32 }
        ensures within { IsWithin bytes.now result }
        ensures text { text_of bytes.now result ≡ bytes.now }
        ensures start { result.from ≡ 0 }
        ensures end { result.to ≡ length bytes.now }
    {
        Span {
            from: 0,
            to: bytes.len() as u32,
        }
    }

    /// Whether the span has no bytes.
    pub fn is_empty(self) -> bool
        ensures { IsTrue result ↔ (self.to ≤ self.from) }
    {
        self.to <= self.from
    }

    /// The bytes of the span.
    pub fn text(self, bytes: &[u8]) -> &[u8]
        requires { IsWithin bytes.now self }
        ensures bytes { result.now ≡ text_of bytes.now self }
        ensures len { self.from + length result.now ≡ self.to }
    {
        &bytes[self.from as usize..self.to as usize]
    }
}
