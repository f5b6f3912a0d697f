use std::{fmt, str};

// How a text is shown.
#[derive(Clone, Copy)]
pub enum Shown<'a> {
    // as it is: UTF-8 without control characters
    Plain(&'a str),
    // bytes that are no printable ASCII as `\xNN`
    Escaped(&'a [u8]),
}

fn is_printable(b: u8) -> bool {
    matches!(b, b' '..=b'~')
}

// Further bytes of a character take no column of their own.
fn begins_character(b: u8) -> bool {
    b & 0xc0 != 0x80
}

impl<'a> Shown<'a> {
    pub fn new(bytes: &'a [u8]) -> Shown<'a> {
        if bytes.iter().any(|b| b.is_ascii_control()) {
            return Shown::Escaped(bytes);
        }
        match str::from_utf8(bytes) {
            Ok(text) => Shown::Plain(text),
            Err(_) => Shown::Escaped(bytes),
        }
    }

    // How many columns the first `n` bytes take.
    fn width(&self, n: usize) -> usize {
        match self {
            Shown::Plain(text) => text
                .as_bytes()
                .iter()
                .take(n)
                .filter(|b| begins_character(**b))
                .count(),
            Shown::Escaped(bytes) => bytes.iter().take(n).fold(
                0usize,
                |all, b| all.saturating_add(if is_printable(*b) { 1 } else { 4 }),
            ),
        }
    }
}

impl fmt::Display for Shown<'_> {
    fn fmt<W: fmt::Write>(&self, f: &mut fmt::Formatter<W>) -> fmt::Result {
        match self {
            Shown::Plain(text) => f.write_str(text),
            Shown::Escaped(bytes) => {
                for b in *bytes {
                    if is_printable(*b) {
                        f.write_char(*b as char)?;
                    } else {
                        write!(f, "\\x{b:02x}")?;
                    }
                }
                Ok(())
            }
        }
    }
}

// A text between quotes.
#[derive(Clone, Copy)]
pub struct Quoted<'a>(pub &'a [u8]);

impl fmt::Display for Quoted<'_> {
    fn fmt<W: fmt::Write>(&self, f: &mut fmt::Formatter<W>) -> fmt::Result {
        write!(f, "'{}'", Shown::new(self.0))
    }
}

// How many blanks or carets are written at once.
const TOGETHER: usize = 32;

const BLANKS: &str = "                                ";

const CARETS: &str = "^^^^^^^^^^^^^^^^^^^^^^^^^^^^^^^^";

// So many of the characters that stand in a row of `TOGETHER`.
fn write_many<W: fmt::Write>(f: &mut fmt::Formatter<W>, row: &str, count: usize) -> fmt::Result {
    for _ in 0..count / TOGETHER {
        f.write_str(row)?;
    }
    f.write_str(row.get(..count % TOGETHER).unwrap_or(""))
}

// A text, and on the next line carets under a part of it, one where the part is empty.
#[derive(Clone, Copy)]
pub struct Underlined<'a> {
    pub text: &'a [u8],
    pub place: usize,
    pub length: usize,
}

impl fmt::Display for Underlined<'_> {
    fn fmt<W: fmt::Write>(&self, f: &mut fmt::Formatter<W>) -> fmt::Result {
        let shown = Shown::new(self.text);
        let from = shown.width(self.place);
        let to = shown.width(self.place.saturating_add(self.length));
        write!(f, "    {shown}\n    ")?;
        write_many(f, BLANKS, from)?;
        write_many(f, CARETS, to.saturating_sub(from).max(1))?;
        f.write_str("\n")
    }
}
