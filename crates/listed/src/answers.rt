ghost use Rattle.std.specs.Prelude.{◌≡◌, map, Some, None, MatchOption};
ghost use Rattle.engine.specs.Holdings.{seen_match};
ghost use Rattle.listed.specs.Facts.{lies, all_lie, is_whole, lawful_row, kept, count_in, spans_in};
ghost use Rattle.listed.specs.Firsts.{tells, hits, spans_for};
ghost use Rattle.listed.specs.Seen.{fact, listing};

use crate::rows::AnswerRow;
use engine::{LONGEST_NAME, Span, Spans};

// A match: the spans of its row.
#[derive(Clone, Copy)]
pub struct AnswerMatch<'a> {
    spans: &'a [Option<Span>],
}

impl<'a> Spans for AnswerMatch<'a> {
    ghost listed = { listing };

    fn at(&self, k: usize) -> Option<Span> {
        self.spans.get(k).copied().flatten()
    }
}

fn lies_in(span: Option<Span>, size: usize) -> bool
    ensures { result ≡ lies size span }
{
    span.is_none_or(|s| s.from <= s.to && s.to <= size)
}

fn all_lie(spans: &[Option<Span>], size: usize) -> bool
    ensures { result ≡ all_lie size spans.now }
{
    spans.iter().all(|span| lies_in(*span, size))
}

fn whole(spans: &[Option<Span>], size: usize) -> bool
    ensures { result ≡ is_whole size spans.now }
{
    matches!(spans, [Some(s), ..] if s.from == 0 && s.to == size)
}

fn lawful(row: &AnswerRow<'_>) -> bool
    ensures { result ≡ lawful_row (fact row.now) }
{
    row.spans.len() == row.count
        && row.name.len() <= LONGEST_NAME
        && whole(row.spans, row.name.len())
        && all_lie(row.spans, row.name.len())
}

// Functions of the rows and what is asked of them; what an engine holds plays no part in them, so they are no methods of it.

fn tells_of(row: &AnswerRow<'_>, text: &[u8]) -> bool
    ensures { result ≡ tells text.now (fact row.now) }
{
    row.text == text && lawful(row)
}

fn hits_on(row: &AnswerRow<'_>, count: usize, text: &[u8], name: &[u8]) -> bool
    ensures { result ≡ hits count text.now name.now (fact row.now) }
{
    tells_of(row, text) && row.count == count && row.name == name
}

// The first lawful row of a text: it is kept, and tells the count.
pub(crate) fn find<'a>(rows: &'a [AnswerRow<'a>], text: &[u8]) -> Option<&'a AnswerRow<'a>>
    ensures { MatchOption result (count_in (kept (map fact rows.now)) text.now ≡ None) (λ r. (r.now.text.now ≡ text.now) × (count_in (kept (map fact rows.now)) text.now ≡ Some r.now.count)) }
{
    rows.iter().find(|row| tells_of(row, text))
}

// The first lawful row with the count, the text and the name.
fn find_hit<'a>(
    rows: &'a [AnswerRow<'a>],
    count: usize,
    text: &[u8],
    name: &[u8],
) -> Option<&'a AnswerRow<'a>>
    ensures { MatchOption result (spans_for count (map fact rows.now) text.now name.now ≡ None) (λ r. spans_for count (map fact rows.now) text.now name.now ≡ Some r.now.spans.now) }
{
    rows.iter().find(|row| hits_on(row, count, text, name))
}

// The count of a text by the kept rows.
pub(crate) fn count_of(rows: &[AnswerRow<'_>], text: &[u8]) -> Option<usize>
    ensures { result ≡ count_in (kept (map fact rows.now)) text.now }
{
    Some(find(rows, text)?.count)
}

// The match of a text with a name by the kept rows.
pub(crate) fn match_of<'a>(
    rows: &'a [AnswerRow<'a>],
    text: &[u8],
    name: &[u8],
) -> Option<AnswerMatch<'a>>
    ensures { seen_match listing result ≡ spans_in (kept (map fact rows.now)) text.now name.now }
{
    let count = find(rows, text)?.count;
    let row = find_hit(rows, count, text, name)?;
    Some(AnswerMatch { spans: row.spans })
}
