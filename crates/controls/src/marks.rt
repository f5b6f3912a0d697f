ghost use Rattle.std.specs.Prelude.{◌≡◌, ◌+◌, ◌≤◌, length, MatchOption};
ghost use Rattle.grammar.specs.Marks.{first_mark, up_to, unpaired as unpaired_in};

// What is looked for stands behind the text, as in the calls of the library; a struct of the two would be made for one call.

// The place of the first `one` with `two` right behind it.
pub(crate) fn first_mark(text: &[u8], one: u8, two: u8) -> Option<usize>
    ensures within { MatchOption result (0 ≤ 0) (λ at. at + 2 ≤ length text.now) }
    ensures first { result ≡ first_mark one two 0 text.now }
{
    text.windows(2)
        .position(|pair| matches!(pair, [a, b] if *a == one && *b == two))
}

// The place of the first `mark`, or the length where there is none.
pub(crate) fn end_of(text: &[u8], mark: u8) -> usize
    ensures within { result ≤ length text.now }
    ensures first { result ≡ up_to mark text.now }
{
    text.iter().position(|b| *b == mark).unwrap_or(text.len())
}

// How many bytes stand in front of the first `mark` without a partner, pairs being passed over from the left.
pub fn unpaired(text: &[u8], mark: u8) -> usize
    ensures within { result ≤ length text.now }
    ensures value { result ≡ unpaired_in mark text.now }
{
    let mut rest = text;
    // what is left is taken apart by patterns, since a pair is passed over as one, and no iterator of the library does that
    loop {
        rest = match rest {
            [one, behind @ ..] if *one != mark => behind,
            [_, two, behind @ ..] if *two == mark => behind,
            _ => return text.len() - rest.len(),
        };
    }
}
