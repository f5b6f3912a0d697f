use crate::error::BookError;
use lines::{Printed, Unfinished};

// What a call on a book answers.
#[derive(Clone, Copy, Debug, PartialEq, Eq)]
pub enum Answer {
    // defined, withdrawn, or the fallback replaced
    Done,
    // so many bytes stand in the buffer
    Wrote(usize),
    // the term is printed
    Printed(Printed),
    // nothing was changed or written
    Refused(BookError),
    // the print was refused, with its beginning written
    Unfinished(Unfinished),
}
