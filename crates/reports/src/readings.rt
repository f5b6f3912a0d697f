use crate::show::Quoted;
use controls::{Steps, SubFormatterConst};
use formatter::{Formatter, halve};
use grammar::{BindPowerPair, ChildIndex, TEMPLATE_LIMIT};
use matchers::{MatcherConst, MatcherKindConst};
use refusal::Side;
use std::fmt;
use templates::parse_template;

// What a matcher is for.
#[derive(Clone, Copy)]
pub struct Matcher<'a>(pub MatcherConst<'a>);

impl fmt::Display for Matcher<'_> {
    fn fmt<W: fmt::Write>(&self, f: &mut fmt::Formatter<W>) -> fmt::Result {
        let kind = match self.0.kind {
            MatcherKindConst::Exact => "exactly",
            MatcherKindConst::Regex => "pattern",
        };
        write!(f, "  {kind} {} with ", Quoted(self.0.data))?;
        match self.0.children {
            Some(1) => f.write_str("1 child\n"),
            Some(n) => writeln!(f, "{n} children"),
            None => f.write_str("any number of children\n"),
        }
    }
}

// The powers and the pieces of a template, one to a line.
#[derive(Clone, Copy)]
pub struct Template<'a>(pub Formatter<'a>);

impl fmt::Display for Template<'_> {
    fn fmt<W: fmt::Write>(&self, f: &mut fmt::Formatter<W>) -> fmt::Result {
        let parts = self.0.parts;
        let BindPowerPair { left, right } = parts.bind_power;
        let pieces = parts.outputs;
        writeln!(
            f,
            "  binds {left} on the left, {right} on the right; pieces: {pieces}"
        )?;
        for piece in parts.outputs() {
            writeln!(f, "    {}", Piece(piece))?;
        }
        Ok(())
    }
}

#[derive(Clone, Copy)]
struct Piece<'a>(SubFormatterConst<'a>);

impl fmt::Display for Piece<'_> {
    fn fmt<W: fmt::Write>(&self, f: &mut fmt::Formatter<W>) -> fmt::Result {
        match self.0 {
            SubFormatterConst::Repeat {
                path,
                from,
                to,
                left,
                middle,
                right,
                left_sep,
                middle_sep,
                right_sep,
            } => {
                let first = Way { path, index: from };
                let last = to.0;
                let BindPowerPair {
                    left: before,
                    right: behind,
                } = middle;
                write!(
                    f,
                    "children {first} to {last}, bound {left} before the first, {before} and {behind} between, {right} behind the last"
                )?;
                write!(
                    f,
                    "{}{}{}",
                    Separator {
                        side: Side::Left,
                        typed: left_sep,
                    },
                    Separator {
                        side: Side::Middle,
                        typed: middle_sep,
                    },
                    Separator {
                        side: Side::Right,
                        typed: right_sep,
                    }
                )
            }
            other => Plain(other).fmt(f),
        }
    }
}

// A piece that is no repeat.
#[derive(Clone, Copy)]
struct Plain<'a>(SubFormatterConst<'a>);

impl fmt::Display for Plain<'_> {
    fn fmt<W: fmt::Write>(&self, f: &mut fmt::Formatter<W>) -> fmt::Result {
        match self.0 {
            SubFormatterConst::String(text) => {
                // as long as the longest template
                let mut scratch = [0; TEMPLATE_LIMIT];
                let size = halve(text, b'$', &mut scratch).unwrap_or(0);
                write!(f, "text {}", Quoted(scratch.get(..size).unwrap_or(&[])))
            }
            SubFormatterConst::Single {
                path,
                index,
                bind_power,
            } => {
                let child = Way { path, index };
                let BindPowerPair { left, right } = bind_power;
                write!(
                    f,
                    "child {child}, bound {left} on the left, {right} on the right"
                )
            }
            SubFormatterConst::Capture(n) => write!(f, "capture {n}"),
            SubFormatterConst::Repeat { .. } => Ok(()),
        }
    }
}

// The way to a child: the steps down, and the index there.
#[derive(Clone, Copy)]
struct Way<'a> {
    path: &'a [u8],
    index: ChildIndex,
}

impl fmt::Display for Way<'_> {
    fn fmt<W: fmt::Write>(&self, f: &mut fmt::Formatter<W>) -> fmt::Result {
        for step in Steps::of(self.path) {
            let number = step.0;
            write!(f, "{number} then ")?;
        }
        let number = self.index.0;
        write!(f, "{number}")
    }
}

// A separator that was written: its pieces, nothing where it was not.
#[derive(Clone, Copy)]
struct Separator<'a> {
    side: Side,
    typed: &'a [u8],
}

impl fmt::Display for Separator<'_> {
    fn fmt<W: fmt::Write>(&self, f: &mut fmt::Formatter<W>) -> fmt::Result {
        if self.typed.is_empty() {
            return Ok(());
        }
        let side = self.side;
        write!(f, "\n      {side} separator: ")?;
        // as long as the longest template
        let mut scratch = [0; TEMPLATE_LIMIT];
        let size = halve(self.typed, b'|', &mut scratch).unwrap_or(0);
        let Ok(read) = parse_template(scratch.get(..size).unwrap_or(&[])) else {
            return Ok(());
        };
        // `answers` parts its lists alike, with marks of one byte and another word for none
        let mut none = true;
        for piece in read.outputs() {
            if !none {
                f.write_str(", ")?;
            }
            write!(f, "{}", Plain(piece))?;
            none = false;
        }
        if none { f.write_str("nothing") } else { Ok(()) }
    }
}
