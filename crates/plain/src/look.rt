ghost use Rattle.std.specs.Prelude.{◌≡◌, length};
ghost use Rattle.engine.specs.Holdings.{seen_match};
ghost use Rattle.plain.specs.Rules.{as_span, plain_count, plain_spans, listing};

use crate::descent::read;
use crate::finding::find;
use crate::found::PlainMatch;
use engine::{Span, Spans};

fn as_span(place: Option<(u8, u8)>) -> Option<Span>
    ensures { result ≡ as_span place }
{
    place.map(|(from, to)| Span {
        from: usize::from(from),
        to: usize::from(to),
    })
}

impl Spans for PlainMatch {
    ghost listed = { listing };

    fn at(&self, k: usize) -> Option<Span> {
        as_span(*self.places[..self.count].get(k)?)
    }
}

impl PlainMatch {
    // How many spans there are, absent ones among them.
    pub fn count(&self) -> usize
        ensures { result ≡ length (listing self.now) }
    {
        self.count
    }
}

// The group count of a text, where it is a pattern.
pub fn count_groups(text: &[u8]) -> Option<usize>
    ensures { result ≡ plain_count text.now }
{
    Some(usize::from(read(text)?.groups))
}

// The match of a pattern with a whole name, if there is one.
pub fn match_name(text: &[u8], name: &[u8]) -> Option<PlainMatch>
    ensures { seen_match listing result ≡ plain_spans text.now name.now }
{
    let pattern = read(text)?;
    let places = find(pattern.items(), name)?;
    Some(PlainMatch {
        places,
        count: usize::from(pattern.groups),
    })
}
