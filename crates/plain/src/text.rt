ghost use Rattle.std.specs.Prelude.{◌≤◌};

// The most bytes that a text may have.
pub(crate) const LONGEST_TEXT: usize = 96;

// A text, held in place: an engine takes no memory from the heap, so the room is that of the longest text.
#[derive(Clone, Copy)]
pub struct Text {
    bytes: [u8; LONGEST_TEXT],
    len: usize,
    ghost short: { len ≤ 96 },
}

impl Text {
    ghost use Rattle.std.specs.Prelude.{◌≡◌, ◌<◌, length, MatchOption};
    ghost use Rattle.plain.specs.Texts.{chars};

    // The text, where it is short enough.
    pub(crate) fn new(s: &[u8]) -> Option<Text>
        ensures { MatchOption result (96 < length s.now) (λ t. chars t ≡ s.now) }
    {
        let len = s.len();
        if len > LONGEST_TEXT {
            return None;
        }
        let mut bytes = [0; LONGEST_TEXT];
        bytes[..len].copy_from_slice(s);
        Some(Text { bytes, len })
    }

    pub(crate) fn as_slice(&self) -> &[u8]
        ensures { result.now ≡ chars self.now }
    {
        &self.bytes[..self.len]
    }
}
