ghost use Rattle.std.specs.Prelude.{◌≡◌, ◌<◌, ◌≤◌, length, MatchOption};
ghost use Rattle.grammar.specs.Marks.{first_byte, last_byte};

// The place of the first `mark`. The readers of controls have one that answers the length where there is none, as they go on from there.
pub(crate) fn first_byte(text: &[u8], mark: u8) -> Option<usize>
    ensures within { MatchOption result (0 ≤ 0) (λ at. at < length text.now) }
    ensures value { result ≡ first_byte mark text.now }
{
    text.iter().position(|b| *b == mark)
}

// The place of the last `mark`.
pub(crate) fn last_byte(text: &[u8], mark: u8) -> Option<usize>
    ensures within { MatchOption result (0 ≤ 0) (λ at. at < length text.now) }
    ensures value { result ≡ last_byte mark text.now }
{
    text.iter().rposition(|b| *b == mark)
}
