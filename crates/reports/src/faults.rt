use crate::show::Underlined;
use controls::SubFormatterConst;
use displays::ConversionError;
use engine::PatternError;
use formatter::halve;
use grammar::TEMPLATE_LIMIT;
use refusal::{DeepError, EitherError, FormatterError, InSeparator, ParseError, Refusal, Side};
use std::fmt;
use templates::parse_template;

// A refusal of a part of a text: number, name, where, and the text with carets under the part.
#[derive(Clone, Copy)]
pub struct Located<'a, K> {
    pub what: &'a str,
    pub text: &'a [u8],
    pub fault: ParseError<K>,
}

impl<K: Refusal> fmt::Display for Located<'_, K> {
    fn fmt<W: fmt::Write>(&self, f: &mut fmt::Formatter<W>) -> fmt::Result {
        let number = self.fault.number();
        let name = self.fault.name();
        let what = self.what;
        let place = self.fault.place;
        let length = self.fault.length;
        let text = self.text;
        writeln!(
            f,
            "  refused {number} {name} in the {what} at {place}, length {length}"
        )?;
        write!(
            f,
            "{}",
            Underlined {
                text,
                place,
                length
            }
        )
    }
}

// A fault of a template or of a separator, with the mark that it names and a hint where one is due.
#[derive(Clone, Copy)]
pub struct FormatterFault<'a>(pub Located<'a, FormatterError>);

impl fmt::Display for FormatterFault<'_> {
    fn fmt<W: fmt::Write>(&self, f: &mut fmt::Formatter<W>) -> fmt::Result {
        let located = self.0;
        write!(
            f,
            "{located}{}{}",
            Mark(located.fault.kind),
            Hint {
                text: located.text,
                place: located.fault.place,
            }
        )
    }
}

// The mark that a fault asks for, or has too many of.
#[derive(Clone, Copy)]
struct Mark(FormatterError);

impl fmt::Display for Mark {
    fn fmt<W: fmt::Write>(&self, f: &mut fmt::Formatter<W>) -> fmt::Result {
        match self.0 {
            FormatterError::MissingControl(mark) => {
                writeln!(f, "    the '{mark}' that goes with it is missing")
            }
            FormatterError::TooManyControl(mark) => {
                writeln!(f, "    too many or too few '{mark}' before it")
            }
            _ => Ok(()),
        }
    }
}

// A control that stands first or last is taken for a prefix or a suffix, which a newcomer does not expect.
#[derive(Clone, Copy)]
struct Hint<'a> {
    text: &'a [u8],
    place: usize,
}

impl fmt::Display for Hint<'_> {
    fn fmt<W: fmt::Write>(&self, f: &mut fmt::Formatter<W>) -> fmt::Result {
        let Hint { text, place } = *self;
        let first = matches!(text, [b'$', b'[' | b'(' | b'{', ..]);
        let last = matches!(text, [.., b']' | b')' | b'}', b'$']);
        if place == 1 && first {
            f.write_str(
                "    a template that begins with a control wants a prefix before it, as $0$\n",
            )
        } else if place > 1 && last {
            f.write_str("    a template that ends in a control wants a suffix behind it, as $0$\n")
        } else {
            Ok(())
        }
    }
}

// A fault of a template whose separators are read too.
#[derive(Clone, Copy)]
pub struct DeepFault<'a> {
    pub template: &'a [u8],
    pub fault: ParseError<DeepError>,
}

impl fmt::Display for DeepFault<'_> {
    fn fmt<W: fmt::Write>(&self, f: &mut fmt::Formatter<W>) -> fmt::Result {
        match self.fault.kind {
            DeepError::Formatter(kind) => FormatterFault(Located {
                what: "template",
                text: self.template,
                fault: self.fault.with(kind),
            })
            .fmt(f),
            DeepError::Separator(inner) => SeparatorFault {
                template: self.template,
                inner,
            }
            .fmt(f),
        }
    }
}

// A fault of a separator, shown under the separator with its bars halved.
#[derive(Clone, Copy)]
struct SeparatorFault<'a> {
    template: &'a [u8],
    inner: InSeparator,
}

impl<'a> SeparatorFault<'a> {
    // The separator as typed.
    fn typed(&self) -> Option<&'a [u8]> {
        let read = parse_template(self.template).ok()?;
        match (read.outputs().nth(self.inner.piece)?, self.inner.side) {
            (SubFormatterConst::Repeat { left_sep, .. }, Side::Left) => Some(left_sep),
            (SubFormatterConst::Repeat { middle_sep, .. }, Side::Middle) => Some(middle_sep),
            (SubFormatterConst::Repeat { right_sep, .. }, Side::Right) => Some(right_sep),
            _ => None,
        }
    }
}

impl fmt::Display for SeparatorFault<'_> {
    fn fmt<W: fmt::Write>(&self, f: &mut fmt::Formatter<W>) -> fmt::Result {
        let Some(typed) = self.typed() else {
            return Ok(());
        };
        let InSeparator { piece, side, fault } = self.inner;
        // as long as the longest template
        let mut scratch = [0; TEMPLATE_LIMIT];
        let size = halve(typed, b'|', &mut scratch).unwrap_or(0);
        let text = scratch.get(..size).unwrap_or(&[]);
        writeln!(
            f,
            "  in the {side} separator of the repeat that is piece {piece}, its bars halved:"
        )?;
        FormatterFault(Located {
            what: "separator",
            text,
            fault,
        })
        .fmt(f)
    }
}

// A fault of a matcher, of its template, or of the two together.
#[derive(Clone, Copy)]
pub struct EitherFault<'a> {
    pub matcher: &'a [u8],
    pub template: &'a [u8],
    pub fault: ParseError<EitherError>,
}

impl fmt::Display for EitherFault<'_> {
    fn fmt<W: fmt::Write>(&self, f: &mut fmt::Formatter<W>) -> fmt::Result {
        match self.fault.kind {
            EitherError::Formatter(kind) => FormatterFault(Located {
                what: "template",
                text: self.template,
                fault: self.fault.with(kind),
            })
            .fmt(f),
            _ => Located {
                what: "matcher",
                text: self.matcher,
                fault: self.fault,
            }
            .fmt(f),
        }
    }
}

// A refusal that no part of a text is at fault for, in words.
pub fn reason(fault: ConversionError) -> &'static str {
    match fault {
        ConversionError::Regex(PatternError::InvalidPattern) => {
            "the plain engine does not know this pattern"
        }
        ConversionError::Regex(PatternError::EngineFull) => "the engine is full",
        ConversionError::FormatterExpectsRegex => {
            "a separator asks for a capture, and the matcher is exact"
        }
        ConversionError::RegexNotEnoughCaptures => "a capture without a group in the pattern",
        _ => "",
    }
}
