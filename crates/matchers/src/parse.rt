ghost use Rattle.std.specs.Prelude.{◌≡◌, ◌*◌, ◌-◌, ◌≤◌, length, take};
ghost use Rattle.grammar.specs.Limits.{matcher_limit};
ghost use Rattle.grammar.specs.Matchers.{blanks, kinded, matcher_read, matcher_at};
ghost use Rattle.matchers.specs.Views.{seen_matcher, matched};

use crate::defns_const::{MatcherConst, MatcherKindConst};
use grammar::MATCHER_LIMIT;
use refusal::{MatcherError, ParseError};

// The text without the ` _` at its end, and how many there are.
#[tactic(auto, using(crate::proofs::Ends::blank_more, crate::proofs::Ends::no_blank))]
fn without_blanks<'a>(text: &'a [u8]) -> (&'a [u8], u32)
    requires { length text.now ≤ matcher_limit }
    ensures rest { result.0.now ≡ take (length text.now - 2 * blanks text.now) text.now }
    ensures count { result.1 ≡ blanks text.now }
{
    let mut rest = text;
    let mut count = 0;
    while let [front @ .., b' ', b'_'] = rest {
        rest = front;
        count += 1;
    }
    (rest, count)
}

// A matcher without its brackets and blanks: a pattern between slashes, else exact.
fn kind_of<'a>(text: &'a [u8], children: Option<u32>) -> MatcherConst<'a>
    ensures { matched result ≡ kinded children text.now }
{
    match text {
        [b'/', data @ .., b'/'] => MatcherConst {
            data,
            children,
            kind: MatcherKindConst::Regex,
        },
        _ => MatcherConst {
            data: text,
            children,
            kind: MatcherKindConst::Exact,
        },
    }
}

// A matcher of at most the allowed length.
fn read_matcher<'a>(text: &'a [u8]) -> Result<MatcherConst<'a>, ParseError<MatcherError>>
    requires { length text.now ≤ matcher_limit }
    ensures { seen_matcher result ≡ matcher_read text.now }
{
    match text {
        [b'(', inside @ .., b')'] => {
            let (front, count) = without_blanks(inside);
            Ok(kind_of(front, Some(count)))
        }
        [b'(', rest @ ..] => Err(ParseError::new(MatcherError::InvalidChildrenSpec, 1, rest.len())),
        [rest @ .., b')'] => Err(ParseError::new(MatcherError::InvalidChildrenSpec, 0, rest.len())),
        _ => Ok(kind_of(text, None)),
    }
}

// Reads any bytes as a matcher.
pub fn parse_matcher<'a>(text: &'a [u8]) -> Result<MatcherConst<'a>, ParseError<MatcherError>>
    ensures { seen_matcher result ≡ matcher_at text.now }
{
    if text.len() > MATCHER_LIMIT {
        return Err(ParseError::new(MatcherError::MatcherTooLong, 0, 0));
    }
    read_matcher(text)
}
