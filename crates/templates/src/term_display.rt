ghost use Rattle.std.specs.Prelude.{◌≡◌};
ghost use Rattle.grammar.specs.Matchers.{definition_at};
ghost use Rattle.grammar.specs.Results.{on_ok};
ghost use Rattle.templates.specs.Views.{seen_definition, defined};

use crate::bodies::read_template;
use crate::defns_const::TermDisplayConst;
use grammar::{MATCHER_LIMIT, TEMPLATE_LIMIT};
use matchers::{MatcherKindConst, parse_matcher};
use refusal::{EitherError, FormatterError, MatcherError, ParseError};

// Reads any bytes as a matcher and a template, and checks that an exact matcher has no captures.
pub fn parse_definition<'a>(
    matcher: &'a [u8],
    template: &'a [u8],
) -> Result<TermDisplayConst<'a>, ParseError<EitherError>>
    ensures { seen_definition result ≡ on_ok (definition_at matcher.now template.now) (defined template.now) }
{
    if matcher.len() > MATCHER_LIMIT {
        let kind = EitherError::Matcher(MatcherError::MatcherTooLong);
        return Err(ParseError::new(kind, 0, 0));
    }
    if template.len() > TEMPLATE_LIMIT {
        let kind = EitherError::Formatter(FormatterError::TemplateTooLong);
        return Err(ParseError::new(kind, 0, 0));
    }
    let read = parse_matcher(matcher)?;
    let formatter = read_template(template)?;
    if let (MatcherKindConst::Exact, Some(_)) = (read.kind, formatter.max_capture) {
        return Err(ParseError::new(EitherError::InvalidCapture, 0, matcher.len()));
    }
    Ok(TermDisplayConst {
        matcher: read,
        formatter,
    })
}
