ghost use Rattle.std.specs.Prelude.{◌≡◌, length, take};
ghost use Rattle.lines.specs.Chosen.{spans_by};
ghost use Rattle.lines.specs.Events.{spanned, captured};

use engine::{Span, Spans};
use terms::{LONGEST_NAME, TermSource};

// The part of a name that a span has.
fn spanned(name: &[u8], span: Option<Span>) -> &[u8]
    ensures { result.now ≡ spanned name.now span }
{
    match span {
        Some(s) => {
            let to = s.to.min(name.len());
            &name[s.from.min(to)..to]
        }
        None => &[],
    }
}

// The part of a name that a capture has; where no pattern was matched, capture 0 has the whole name.
pub fn captured<'n, M: Spans>(name: &'n [u8], found: &Option<M>, k: u32) -> &'n [u8]
    ensures { result.now ≡ captured name.now (spans_by M.Spans.listed (length name.now) found.now) k }
{
    match found {
        Some(m) => spanned(name, m.at(k as usize)),
        None if k == 0 => name,
        None => &[],
    }
}

// Copies the name of a term into the front of a buffer, and answers its length; nothing where there is no such term.
pub fn copy_name<S: TermSource>(source: &S, term: usize, out: &mut [u8; LONGEST_NAME]) -> usize
    ensures size { result ≡ length ((S.TermSource.view source.now).name term) }
    ensures copied { take result out.new ≡ (S.TermSource.view source.now).name term }
{
    let len = source.name_len(term).unwrap_or(0);
    // by index: of bytes that are written through `iter_mut` a proof knows nothing
    for i in 0..len {
        out[i] = source.name_byte(term, i).unwrap_or(0);
    }
    len
}
