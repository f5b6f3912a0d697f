use crate::hex::{Hex, write_hex};
use crate::parted::write_parted;
use controls::{Halved, Steps, SubFormatterConst};
use formatter::{Formatter, halve};
use grammar::{BindPowerPair, ChildIndex, TEMPLATE_LIMIT};
use std::fmt;
use templates::{FormatterConst, parse_template};

// The greatest capture, `~` for none.
#[derive(Clone, Copy)]
pub struct Capture(pub Option<u32>);

impl fmt::Display for Capture {
    fn fmt<W: fmt::Write>(&self, f: &mut fmt::Formatter<W>) -> fmt::Result {
        match self.0 {
            Some(n) => write!(f, "{n}"),
            None => f.write_str("~"),
        }
    }
}

// `LEFT:RIGHT`.
#[derive(Clone, Copy)]
struct Powers(BindPowerPair);

impl fmt::Display for Powers {
    fn fmt<W: fmt::Write>(&self, f: &mut fmt::Formatter<W>) -> fmt::Result {
        let BindPowerPair { left, right } = self.0;
        write!(f, "{left}:{right}")
    }
}

// A number of a path.
#[derive(Clone, Copy)]
struct Index(ChildIndex);

impl fmt::Display for Index {
    fn fmt<W: fmt::Write>(&self, f: &mut fmt::Formatter<W>) -> fmt::Result {
        let number = self.0.0;
        write!(f, "{number}")
    }
}

// The steps of a path, parted by dots.
#[derive(Clone, Copy)]
struct Way<'a>(&'a [u8]);

impl fmt::Display for Way<'_> {
    fn fmt<W: fmt::Write>(&self, f: &mut fmt::Formatter<W>) -> fmt::Result {
        write_parted(f, '.', Steps::of(self.0).map(Index))
    }
}

// A piece that is no repeat, the pairs of `$` in its text halved.
#[derive(Clone, Copy)]
struct Plain<'a>(SubFormatterConst<'a>);

impl fmt::Display for Plain<'_> {
    fn fmt<W: fmt::Write>(&self, f: &mut fmt::Formatter<W>) -> fmt::Result {
        match self.0 {
            SubFormatterConst::String(text) => {
                f.write_str("t:")?;
                write_hex(f, Halved::of(text, b'$'))
            }
            SubFormatterConst::Single {
                path,
                index,
                bind_power,
            } => write!(f, "c:{}:{}:{}", Way(path), Index(index), Powers(bind_power)),
            SubFormatterConst::Capture(n) => write!(f, "k:{n}"),
            SubFormatterConst::Repeat { .. } => Ok(()),
        }
    }
}

// A separator, its bars halved and read as a template, which borrows the room: of the two lines that do it no function is made, as it would take the
// room and hand it back. The room is that of the longest template.
#[derive(Clone, Copy)]
struct Separator<'a>(&'a [u8]);

impl fmt::Display for Separator<'_> {
    fn fmt<W: fmt::Write>(&self, f: &mut fmt::Formatter<W>) -> fmt::Result {
        let mut scratch = [0; TEMPLATE_LIMIT];
        let size = halve(self.0, b'|', &mut scratch).unwrap_or(0);
        let Some(Ok(read)) = scratch.get(..size).map(|bytes| parse_template(bytes)) else {
            return Ok(());
        };
        let BindPowerPair { left, right } = read.bind_power;
        write!(f, "{left}/{right}/{}/", Capture(read.max_capture))?;
        write_parted(f, ',', read.outputs().map(Plain))
    }
}

// The range and the powers of a repeat.
#[derive(Clone, Copy)]
struct Range<'a> {
    path: &'a [u8],
    from: ChildIndex,
    to: ChildIndex,
    left: u32,
    middle: BindPowerPair,
    right: u32,
}

impl fmt::Display for Range<'_> {
    fn fmt<W: fmt::Write>(&self, f: &mut fmt::Formatter<W>) -> fmt::Result {
        let Range { left, right, .. } = *self;
        write!(
            f,
            "r:{}:{}:{}:{left}:{}:{right}",
            Way(self.path),
            Index(self.from),
            Index(self.to),
            Powers(self.middle)
        )
    }
}

// A piece as it was typed: texts and separators with their marks doubled. `Read` below takes a repeat apart alike: of a function that
// answers its range and its separators no proof was made.
#[derive(Clone, Copy)]
struct Typed<'a>(SubFormatterConst<'a>);

impl fmt::Display for Typed<'_> {
    fn fmt<W: fmt::Write>(&self, f: &mut fmt::Formatter<W>) -> fmt::Result {
        match self.0 {
            SubFormatterConst::String(text) => write!(f, "t:{}", Hex(text)),
            SubFormatterConst::Repeat {
                path,
                from,
                to,
                left,
                middle,
                right,
                left_sep,
                middle_sep,
                right_sep,
            } => {
                let range = Range {
                    path,
                    from,
                    to,
                    left,
                    middle,
                    right,
                };
                write!(
                    f,
                    "{range}|{}|{}|{}",
                    Hex(left_sep),
                    Hex(middle_sep),
                    Hex(right_sep)
                )
            }
            other => Plain(other).fmt(f),
        }
    }
}

// A piece with its text halved, or its separators read.
#[derive(Clone, Copy)]
struct Read<'a>(SubFormatterConst<'a>);

impl fmt::Display for Read<'_> {
    fn fmt<W: fmt::Write>(&self, f: &mut fmt::Formatter<W>) -> fmt::Result {
        match self.0 {
            SubFormatterConst::Repeat {
                path,
                from,
                to,
                left,
                middle,
                right,
                left_sep,
                middle_sep,
                right_sep,
            } => {
                let range = Range {
                    path,
                    from,
                    to,
                    left,
                    middle,
                    right,
                };
                write!(
                    f,
                    "{range}|{}|{}|{}",
                    Separator(left_sep),
                    Separator(middle_sep),
                    Separator(right_sep)
                )
            }
            other => Plain(other).fmt(f),
        }
    }
}

// `LEFT RIGHT CAPTURE PIECES` of a template as it was typed.
#[derive(Clone, Copy)]
pub struct TypedTemplate<'a>(pub FormatterConst<'a>);

impl fmt::Display for TypedTemplate<'_> {
    fn fmt<W: fmt::Write>(&self, f: &mut fmt::Formatter<W>) -> fmt::Result {
        let BindPowerPair { left, right } = self.0.bind_power;
        write!(f, "{left} {right} {} ", Capture(self.0.max_capture))?;
        write_parted(f, ';', self.0.outputs().map(Typed))
    }
}

// The same of a template whose separators are read.
#[derive(Clone, Copy)]
pub struct ReadTemplate<'a>(pub Formatter<'a>);

impl fmt::Display for ReadTemplate<'_> {
    fn fmt<W: fmt::Write>(&self, f: &mut fmt::Formatter<W>) -> fmt::Result {
        let BindPowerPair { left, right } = self.0.parts.bind_power;
        write!(f, "{left} {right} {} ", Capture(self.0.max_capture))?;
        write_parted(f, ';', self.0.parts.outputs().map(Read))
    }
}
