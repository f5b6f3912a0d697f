ghost use Rattle.std.specs.Prelude.{◌≡◌, ◌≤◌, length, Ok};
ghost use Rattle.matchers.specs.Views.{matched};
ghost use Rattle.codes.specs.Calls.{filled, after, encoded, written_back};
ghost use Rattle.codes.specs.declared.error.CodeError.TheVariants.{BufferTooShort};
ghost use Rattle.codes.specs.declared.error.EncodeError.TheVariants.{Code};
ghost use Rattle.formatter.specs.Views.{formatter_read};
ghost use Rattle.grammar.specs.Matchers.{matcher_at};
ghost use Rattle.grammar.specs.Results.{on_ok};
ghost use Rattle.grammar.specs.Templates.{formatter_at};
ghost use Rattle.plain.specs.Rules.{plain_count};
ghost use Rattle.templates.specs.Views.{seen, summed};
ghost use Rattle.kernel.specs.Faults.{of_code, of_encode};
ghost use Rattle.kernel.specs.Answers.{matcher_answer, template_read, template_answer, formatter_answer, written_answer, groups_answer};

use crate::records::{Fault, Groups, Matcher, Template, Written};
use encode::encode;
use engine::PatternError;
use formatter::parse_formatter;
use matchers::{MatcherConst, MatcherKindConst, parse_matcher};
use plain::count_groups;
use templates::{FormatterConst, parse_template};
use written::write_back;

fn matcher_of(m: &MatcherConst) -> Matcher
    ensures { result ≡ matcher_answer (Ok (matched m.now)) }
{
    let counted = u32::from(m.children.is_some());
    let pattern = u32::from(m.kind == MatcherKindConst::Regex);
    Matcher {
        fault: Fault::default(),
        place: (counted + pattern) as usize,
        length: m.data.len(),
        pattern,
        counted,
        children: m.children.unwrap_or(0),
    }
}

// Reads a matcher.
#[unsafe(no_mangle)]
pub extern "C" fn fulgavod_matcher(text: &[u8]) -> Matcher
    ensures { result ≡ matcher_answer (matcher_at text.now) }
{
    match parse_matcher(text) {
        Ok(m) => matcher_of(&m),
        Err(e) => Matcher {
            fault: e.into(),
            ..Matcher::default()
        },
    }
}

fn template_of(f: &FormatterConst, most: Option<u32>) -> Template
    ensures { result ≡ template_read (seen f.now) most }
{
    Template {
        fault: Fault::default(),
        place: f.start,
        length: f.text.len().saturating_sub(f.start),
        pieces: f.outputs,
        left: f.bind_power.left,
        right: f.bind_power.right,
        captures: u32::from(most.is_some()),
        capture: most.unwrap_or(0),
    }
}

// Reads a template, its separators unread.
#[unsafe(no_mangle)]
pub extern "C" fn fulgavod_template(text: &[u8]) -> Template
    ensures { result ≡ template_answer (on_ok (formatter_at text.now) (summed text.now)) }
{
    match parse_template(text) {
        Ok(f) => template_of(&f, f.max_capture),
        Err(e) => Template {
            fault: e.into(),
            ..Template::default()
        },
    }
}

// Reads a template with its separators.
#[unsafe(no_mangle)]
pub extern "C" fn fulgavod_formatter(text: &[u8]) -> Template
    ensures { result ≡ formatter_answer (formatter_read text.now) }
{
    match parse_formatter(text) {
        Ok(f) => template_of(&f.parts, f.max_capture),
        Err(e) => Template {
            fault: e.into(),
            ..Template::default()
        },
    }
}

// What is written is told alike for both writers; a conversion for both would be over any refusal and say what the two matches say.

// Writes the code of a template to the start of the buffer.
#[unsafe(no_mangle)]
pub extern "C" fn fulgavod_encode(template: &[u8], out: &mut [u8]) -> Written
    ensures answer { result ≡ written_answer of_encode (filled (Code BufferTooShort) (encoded template.now) out.old) }
    ensures buffer { out.new ≡ after (encoded template.now) out.old }
{
    match encode(template, out) {
        Ok(length) => Written {
            length,
            ..Written::default()
        },
        Err(e) => Written {
            fault: e.into(),
            length: 0,
        },
    }
}

// Writes the template that a code stands for to the start of the buffer.
#[unsafe(no_mangle)]
pub extern "C" fn fulgavod_write_back(code: &[u8], out: &mut [u8]) -> Written
    ensures answer { result ≡ written_answer of_code (filled BufferTooShort (written_back code.now) out.old) }
    ensures buffer { out.new ≡ after (written_back code.now) out.old }
{
    match write_back(code, out) {
        Ok(length) => Written {
            length,
            ..Written::default()
        },
        Err(e) => Written {
            fault: e.into(),
            length: 0,
        },
    }
}

// The group count of a pattern of the plain engine.
#[unsafe(no_mangle)]
pub extern "C" fn fulgavod_groups(pattern: &[u8]) -> Groups
    ensures { result ≡ groups_answer (plain_count pattern.now) }
{
    match count_groups(pattern) {
        Some(count) => Groups {
            count,
            ..Groups::default()
        },
        None => Groups {
            fault: PatternError::InvalidPattern.into(),
            count: 0,
        },
    }
}
