ghost use Rattle.std.specs.Prelude.{◌≡◌, MatchResult};
ghost use Rattle.std.specs.Result.{result_err};
ghost use Rattle.engine.specs.Holdings.{Fixed, Took, Kept};
ghost use Rattle.displays.specs.Checks.{captures_fit, fits, held_fits, pattern_fits, checked_by, Accepted};

use crate::error::ConversionError;
use engine::{PatternEngine, Ticket};
use formatter::parse_formatter;
use matchers::MatcherKindConst;
use templates::parse_definition;

// Captures want a pattern, and a group each.
fn captures_fit(groups: Option<usize>, greatest: Option<u32>) -> Result<(), ConversionError>
    ensures { result ≡ captures_fit groups greatest }
{
    let Some(capture) = greatest else {
        return Ok(());
    };
    let groups = groups.ok_or(ConversionError::FormatterExpectsRegex)?;
    // no `From` leads from 32 bits to a size, which always has as many here
    if (capture as usize) < groups {
        Ok(())
    } else {
        Err(ConversionError::RegexNotEnoughCaptures)
    }
}

// Reads the template with its separators, and checks its captures, those of the separators included.
fn check_captures(template: &[u8], groups: Option<usize>) -> Result<(), ConversionError>
    ensures { result ≡ fits template.now groups }
{
    let formatter = parse_formatter(template)?;
    captures_fit(groups, formatter.max_capture)
}

// Engine and template go on together, since one is asked for the groups that the other wants; neither is a part of the other.

// The same with the groups of what a number holds.
fn check_held<E: PatternEngine>(
    engine: &E,
    number: usize,
    template: &[u8],
) -> Result<(), ConversionError>
    ensures { result ≡ held_fits (E.PatternEngine.view engine.now) number template.now }
{
    let groups = engine.count(number)?;
    check_captures(template, Some(groups))
}

// Prepares a pattern and checks the template with it; where that is refused the ticket goes back.
fn check_pattern<E: PatternEngine>(
    engine: &mut E,
    text: &[u8],
    template: &[u8],
) -> Result<Ticket, ConversionError>
    ensures fixed { Fixed (E.PatternEngine.view engine.old) (E.PatternEngine.view engine.new) }
    ensures refusal { result_err result ≡ result_err (pattern_fits (E.PatternEngine.view engine.old) text.now template.now) }
    ensures cases { MatchResult result (λ t. Took (E.PatternEngine.view engine.old).held (E.PatternEngine.view engine.new).held t.number text.now) (λ _. Kept (E.PatternEngine.view engine.old).held (E.PatternEngine.view engine.new).held) }
{
    let ticket = engine.prepare(text)?;
    // a match, since the ticket goes one way or the other
    match check_held(engine, ticket.number(), template) {
        Ok(()) => Ok(ticket),
        Err(e) => {
            let _ = engine.give_back(ticket);
            Err(e)
        }
    }
}

// Checks any bytes as a definition with an engine. Accepted, a pattern is left prepared, and its ticket handed on; refused,
// the engine holds what it held.
pub fn check_definition<'a, E: PatternEngine>(
    engine: &mut E,
    matcher: &'a [u8],
    template: &'a [u8],
) -> Result<Option<Ticket>, ConversionError>
    ensures fixed { Fixed (E.PatternEngine.view engine.old) (E.PatternEngine.view engine.new) }
    ensures refusal { result_err result ≡ result_err (checked_by (E.PatternEngine.view engine.old) matcher.now template.now) }
    ensures cases { MatchResult result (Accepted (checked_by (E.PatternEngine.view engine.old) matcher.now template.now) (E.PatternEngine.view engine.old).held (E.PatternEngine.view engine.new).held) (λ _. Kept (E.PatternEngine.view engine.old).held (E.PatternEngine.view engine.new).held) }
{
    let display = parse_definition(matcher, template)?;
    match display.matcher.kind {
        MatcherKindConst::Exact => {
            check_captures(template, None)?;
            Ok(None)
        }
        MatcherKindConst::Regex => {
            let ticket = check_pattern(engine, display.matcher.data, template)?;
            Ok(Some(ticket))
        }
    }
}
