use crate::show::Shown;
use std::alloc::Global;
use std::fmt::{self, Write};

// A report in the making, line by line.
#[derive(Drop)]
pub struct Report {
    pub(crate) text: String,
}

impl Report {
    // A report with nothing in it.
    pub fn new(heap: Global) -> Report {
        Report {
            text: String::new(heap),
        }
    }

    pub(crate) fn heap(&self) -> Global {
        *self.text.allocator()
    }

    // The number of a line, and the line as typed.
    pub fn heading(&mut self, number: usize, line: &[u8]) -> anyhow::Result<()> {
        writeln!(self.text, "line {number}: {}", Shown::new(line))?;
        Ok(())
    }

    // A line of the report.
    pub fn push_line<T: fmt::Display + Drop>(&mut self, line: T) -> anyhow::Result<()> {
        writeln!(self.text, "{line}")?;
        Ok(())
    }
}

impl fmt::Display for Report {
    fn fmt<W: fmt::Write>(&self, f: &mut fmt::Formatter<W>) -> fmt::Result {
        f.write_str(self.text.as_str())
    }
}
