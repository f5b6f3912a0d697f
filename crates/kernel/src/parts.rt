ghost use Rattle.std.specs.Prelude.{◌≡◌, ◌≤◌, map, length, Some};
ghost use Rattle.std.proofs.lemmas.List.Edits.{sets};
ghost use Rattle.plain.specs.Rules.{plain_count, plain_spans, listing};
ghost use Rattle.kernel.specs.Answers.{groups_answer, part_of, match_answer, parts_after};

use crate::calls::fulgavod_groups;
use crate::records::{Fault, Matched, Part};
use codes::CodeError;
use engine::{Span, Spans};
use plain::{PlainMatch, match_name};

// What a group took.
impl From<Option<Span>> for Part {
    ghost from_gives = { λ s r. r ≡ part_of s };

    fn from(span: Option<Span>) -> Part {
        match span {
            Some(s) => Part {
                taken: 1,
                from: s.from,
                to: s.to,
            },
            None => Part::default(),
        }
    }
}

// Writes the parts of a match to the start of the buffer. By number, since a number names the span as well as the part.
fn put_parts(found: &PlainMatch, parts: &mut [Part])
    requires { length (listing found.now) ≤ length parts.old }
    ensures { parts.new ≡ sets parts.old 0 (map part_of (listing found.now)) }
{
    for k in 0..found.count() {
        parts[k] = Part::from(found.at(k));
    }
}

fn matched(found: &PlainMatch, parts: &mut [Part]) -> Matched
    ensures answer { result ≡ match_answer (Some 1) (Some (listing found.now)) (length parts.old) }
    ensures buffer { parts.new ≡ parts_after (Some (listing found.now)) parts.old }
{
    if found.count() > parts.len() {
        return Matched {
            fault: CodeError::BufferTooShort.into(),
            ..Matched::default()
        };
    }
    put_parts(found, parts);
    Matched {
        fault: Fault::default(),
        matches: 1,
        count: found.count(),
    }
}

// Matches a pattern of the plain engine with a whole name, and writes what each group took to the start of the buffer.
#[unsafe(no_mangle)]
pub extern "C" fn fulgavod_match(pattern: &[u8], name: &[u8], parts: &mut [Part]) -> Matched
    ensures answer { result ≡ match_answer (plain_count pattern.now) (plain_spans pattern.now name.now) (length parts.old) }
    ensures buffer { parts.new ≡ parts_after (plain_spans pattern.now name.now) parts.old }
{
    match match_name(pattern, name) {
        Some(found) => matched(&found, parts),
        None => Matched {
            fault: fulgavod_groups(pattern).fault,
            ..Matched::default()
        },
    }
}
