ghost use Rattle.std.specs.Prelude.{◌≡◌, ◌<◌, ◌≤◌, length, IfSome};
ghost use Rattle.matching.specs.Reader.{special, plain, atom_at, times_at};

use matching::{Set, Times};

fn is_special(b: u8) -> bool
    ensures { result ≡ special b }
{
    matches!(
        b,
        b'\\'
            | b'.'
            | b'+'
            | b'*'
            | b'?'
            | b'('
            | b')'
            | b'|'
            | b'['
            | b']'
            | b'{'
            | b'}'
            | b'^'
            | b'$'
    )
}

fn is_plain(b: u8) -> bool
    ensures { result ≡ plain b }
{
    matches!(b, b' '..=b'~') && !is_special(b)
}

// The set that a text begins with, and how many bytes it takes beyond the first.
pub(crate) fn atom(text: &[u8]) -> Option<(Set, usize)>
    ensures within { IfSome result (λ p. p.1 < length text.now) }
    ensures set { result ≡ atom_at text.now }
{
    match text {
        [b'.', ..] => Some((Set::Dot, 0)),
        [b'\\', escaped, ..] => is_special(*escaped).then_some((Set::Byte(*escaped), 1)),
        [first, ..] => is_plain(*first).then_some((Set::Byte(*first), 0)),
        [] => None,
    }
}

// How often an item is taken, as the text behind its set begins, and how many bytes say so.
pub(crate) fn times(text: &[u8]) -> (Times, usize)
    ensures within { result.1 ≤ length text.now }
    ensures times { result ≡ times_at text.now }
{
    match text {
        [b'*', ..] => (Times::Many, 1),
        [b'+', ..] => (Times::Several, 1),
        [b'?', ..] => (Times::Maybe, 1),
        _ => (Times::Once, 0),
    }
}
