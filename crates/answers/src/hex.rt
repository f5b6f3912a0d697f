ghost use Rattle.std.specs.Iterator.{IsFinite};

use std::alloc::Global;
use std::{fmt, str};

// Bytes in hexadecimal, `-` for none.
#[derive(Clone, Copy)]
pub struct Hex<'a>(pub &'a [u8]);

impl fmt::Display for Hex<'_> {
    fn fmt<W: fmt::Write>(&self, f: &mut fmt::Formatter<W>) -> fmt::Result {
        write_hex(f, self.0.iter().copied())
    }
}

// How many bytes are written at once, their digits put together first: one by one by `write!` they take several times as long.
const TOGETHER: usize = 32;

fn digit(half: u8) -> u8 {
    match half {
        0..=9 => b'0' + half,
        _ => half.saturating_add(b'a' - 10),
    }
}

fn write_pairs<W: fmt::Write>(f: &mut fmt::Formatter<W>, pairs: &[[u8; 2]]) -> fmt::Result {
    match str::from_utf8(pairs.as_flattened()) {
        Ok(digits) => f.write_str(digits),
        Err(_) => Err(fmt::Error),
    }
}

// Writes bytes that come one by one in hexadecimal, `-` for none.
pub fn write_hex<W: fmt::Write, I: Iterator<Item = u8> + Drop>(
    f: &mut fmt::Formatter<W>,
    bytes: I,
) -> fmt::Result
    requires can { I.can_next bytes }
    requires ends { IsFinite (I.remaining bytes) }
{
    let mut pairs = [[0; 2]; TOGETHER];
    let mut waiting = 0usize;
    let mut none = true;
    for b in bytes {
        if waiting == TOGETHER {
            write_pairs(f, &pairs)?;
            waiting = 0;
        }
        if let Some(pair) = pairs.get_mut(waiting) {
            *pair = [digit(b / 16), digit(b % 16)];
        }
        waiting = waiting.saturating_add(1);
        none = false;
    }
    if none {
        return f.write_str("-");
    }
    write_pairs(f, pairs.get(..waiting).unwrap_or(&[]))
}

// The digits are those that are written: the library's `to_digit` takes capitals too, which are no words here.
fn value(c: u8) -> Option<u8> {
    match c {
        b'0'..=b'9' => Some(c - b'0'),
        b'a'..=b'f' => Some(c - b'a' + 10),
        _ => None,
    }
}

// The bytes that a word writes in hexadecimal, `-` being none; `None` for any other word.
pub fn unhex(heap: Global, word: &str) -> anyhow::Result<Option<Vec<u8>>> {
    let mut bytes = Vec::new(heap);
    if word == "-" {
        return Ok(Some(bytes));
    }
    if word.len() % 2 != 0 {
        return Ok(None);
    }
    for pair in word.as_bytes().chunks(2) {
        let Some(b) = byte(pair) else {
            return Ok(None);
        };
        bytes.push(b)?;
    }
    Ok(Some(bytes))
}

fn byte(pair: &[u8]) -> Option<u8> {
    let [high, low] = pair else {
        return None;
    };
    value(*high)?.checked_mul(16)?.checked_add(value(*low)?)
}
