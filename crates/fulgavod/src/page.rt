use reports::Report;
use std::alloc::Global;

// What a line of a page asks for.
#[derive(Clone, Copy)]
enum Call<'a> {
    Define {
        matcher: &'a [u8],
        template: &'a [u8],
    },
    Fallback {
        template: &'a [u8],
    },
    Unknown,
}

// An accepted line, and the code of its template.
#[derive(Drop)]
struct Stored {
    line: usize,
    code: Vec<u8>,
}

// A page as far as it is checked: its report, how many calls it had, how many were refused, and the codes of the others.
#[derive(Drop)]
struct Page {
    report: Report,
    calls: usize,
    refused: usize,
    codes: Vec<Stored>,
}

// What stands before and behind the first ` => `.
fn parted(text: &[u8]) -> Option<(&[u8], &[u8])> {
    let at = text.windows(4).position(|four| four == b" => ".as_slice())?;
    Some((text.get(..at)?, text.get(at.checked_add(4)?..)?))
}

fn define(rest: &[u8]) -> Call<'_> {
    match parted(rest) {
        Some((matcher, template)) => Call::Define { matcher, template },
        None => Call::Unknown,
    }
}

// The call of a line, if it is neither empty nor a remark.
fn call_of(line: &[u8]) -> Option<Call<'_>> {
    if line.is_empty() || line.starts_with(b"#") {
        return None;
    }
    if let Some(rest) = line.strip_prefix(b"define ") {
        return Some(define(rest));
    }
    if let Some(template) = line.strip_prefix(b"fallback ") {
        return Some(Call::Fallback { template });
    }
    Some(Call::Unknown)
}

impl Page {
    fn new(heap: Global) -> Page {
        Page {
            report: Report::new(heap),
            calls: 0,
            refused: 0,
            codes: Vec::new(heap),
        }
    }

    // Reports a call, and answers its template's code unless it is refused.
    fn check_call(&mut self, call: Call<'_>) -> anyhow::Result<Option<Vec<u8>>> {
        match call {
            Call::Define { matcher, template } => self.report.define(matcher, template),
            Call::Fallback { template } => self.report.fallback(template),
            Call::Unknown => {
                self.report.push_line(
                    "  refused: neither 'define MATCHER => TEMPLATE' nor 'fallback TEMPLATE'",
                )?;
                Ok(None)
            }
        }
    }

    // Reports a line with its number, and counts its call.
    fn check_line(&mut self, line: usize, text: &[u8]) -> anyhow::Result<()> {
        let Some(call) = call_of(text) else {
            return Ok(());
        };
        self.report.heading(line, text)?;
        self.calls = self.calls.saturating_add(1);
        match self.check_call(call)? {
            Some(code) => self.codes.push(Stored { line, code })?,
            None => self.refused = self.refused.saturating_add(1),
        }
        Ok(())
    }

    // Which lines share a code, so that their templates mean the same.
    fn push_shared(&mut self) -> anyhow::Result<()> {
        for stored in &self.codes {
            let line = stored.line;
            if let Some(first) = first_alike(self.codes.as_slice(), stored.code.as_slice())
                && first < line
            {
                self.report.push_line(format_args!(
                    "lines {first} and {line} share a code: their templates mean the same"
                ))?;
            }
        }
        Ok(())
    }

    // The report, closed by how many calls there were.
    fn finish(mut self) -> anyhow::Result<Report> {
        self.push_shared()?;
        let Page {
            mut report,
            calls,
            refused,
            ..
        } = self;
        let read = calls.saturating_sub(refused);
        report.push_line(format_args!("{calls} calls: {read} read, {refused} refused"))?;
        Ok(report)
    }
}

// The first line with the same code.
fn first_alike(codes: &[Stored], code: &[u8]) -> Option<usize> {
    let first = codes.iter().find(|stored| stored.code.as_slice() == code)?;
    Some(first.line)
}

// The report on a whole page.
pub fn check_page(heap: Global, text: &[u8]) -> anyhow::Result<Report> {
    let mut page = Page::new(heap);
    for (i, line) in text.split(|b| *b == b'\n').enumerate() {
        page.check_line(i.saturating_add(1), line)?;
    }
    page.finish()
}
