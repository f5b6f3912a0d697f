ghost use Rattle.std.specs.Iterator.{IsFinite};

use std::fmt;

// Writes things parted by a mark, `~` for none.
pub fn write_parted<W: fmt::Write, T: fmt::Display + Drop, I: Iterator<Item = T> + Drop>(
    f: &mut fmt::Formatter<W>,
    mark: char,
    things: I,
) -> fmt::Result
    requires can { I.can_next things }
    requires ends { IsFinite (I.remaining things) }
{
    let mut none = true;
    for thing in things {
        if !none {
            f.write_char(mark)?;
        }
        write!(f, "{thing}")?;
        none = false;
    }
    if none { f.write_str("~") } else { Ok(()) }
}
