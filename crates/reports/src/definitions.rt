use crate::faults::{DeepFault, EitherFault, reason};
use crate::readings::{Matcher, Template};
use crate::report::Report;
use crate::show::Shown;
use displays::{ConversionError, check_definition};
use encode::encode;
use engine::PatternEngine;
use formatter::{FallbackParseError, parse_fallback, parse_formatter};
use grammar::{CODE_LIMIT, TEMPLATE_LIMIT};
use matchers::parse_matcher;
use plain::PlainEngine;
use refusal::{DeepError, EitherError, ParseError, Refusal};
use std::fmt::Write;
use templates::parse_definition;
use written::write_back;

// Matcher and template are what stands on a line of a page; a struct of the two would be made for one call.
impl Report {
    // Reports a definition, and answers its template's code unless it is refused.
    pub fn define(&mut self, matcher: &[u8], template: &[u8]) -> anyhow::Result<Option<Vec<u8>>> {
        match parse_definition(matcher, template) {
            Err(fault) => self.refuse_either(matcher, template, fault),
            Ok(read) => {
                write!(self.text, "{}", Matcher(read.matcher))?;
                self.whole(template)
            }
        }
    }

    // The same with an engine: the definition is checked with a plain one that holds nothing, and what is prepared is given back.
    pub fn define_with_engine(
        &mut self,
        matcher: &[u8],
        template: &[u8],
    ) -> anyhow::Result<Option<Vec<u8>>> {
        let mut engine = PlainEngine::new();
        match check_definition(&mut engine, matcher, template) {
            Ok(Some(ticket)) => {
                let groups = engine.count(ticket.number()).unwrap_or(0);
                let _ = engine.give_back(ticket);
                self.push_matcher(matcher)?;
                self.push_groups(groups)?;
                self.whole(template)
            }
            Ok(None) => {
                self.push_matcher(matcher)?;
                self.whole(template)
            }
            Err(fault) => self.refuse_conversion(matcher, template, fault),
        }
    }

    // Reports a template for all names that nothing else matches, and answers its code unless it is refused.
    pub fn fallback(&mut self, template: &[u8]) -> anyhow::Result<Option<Vec<u8>>> {
        match parse_fallback(template) {
            Ok(read) => {
                write!(self.text, "{}", Template(read))?;
                self.stored(template)
            }
            Err(FallbackParseError::FormatterParseError(fault)) => {
                self.refuse_deep(template, fault)
            }
            Err(fault @ FallbackParseError::MaxCaptureTooLarge(n)) => {
                let number = fault.number();
                let name = fault.name();
                writeln!(
                    self.text,
                    "  refused {number} {name}: capture {n}, where only 0, the whole name, is known"
                )?;
                Ok(None)
            }
        }
    }

    // Reports a template with its separators, and answers its code unless it is refused.
    fn whole(&mut self, template: &[u8]) -> anyhow::Result<Option<Vec<u8>>> {
        match parse_formatter(template) {
            Err(fault) => self.refuse_deep(template, fault),
            Ok(read) => {
                write!(self.text, "{}", Template(read))?;
                self.stored(template)
            }
        }
    }

    // Reports the code by which a template is stored, and the template written back from it.
    fn stored(&mut self, template: &[u8]) -> anyhow::Result<Option<Vec<u8>>> {
        // as long as the longest code
        let mut buffer = [0; CODE_LIMIT];
        match encode(template, &mut buffer) {
            Ok(size) => {
                let code = buffer.get(..size).unwrap_or(&[]);
                self.push_code(code)?;
                self.push_back(code)?;
                Ok(Some(code.to_vec(self.heap())?))
            }
            Err(fault) => {
                let number = fault.number();
                let name = fault.name();
                writeln!(
                    self.text,
                    "  refused {number} {name}: a code has at most {CODE_LIMIT} bytes"
                )?;
                Ok(None)
            }
        }
    }

    // The bytes of a code in hexadecimal, thirty-two to a line.
    fn push_code(&mut self, code: &[u8]) -> anyhow::Result<()> {
        let size = code.len();
        writeln!(self.text, "  code of {size} bytes")?;
        for line in code.chunks(32) {
            self.text.push_str("    ")?;
            for b in line {
                write!(self.text, "{b:02x}")?;
            }
            self.text.push('\n')?;
        }
        Ok(())
    }

    fn push_back(&mut self, code: &[u8]) -> anyhow::Result<()> {
        // as long as the longest template
        let mut buffer = [0; TEMPLATE_LIMIT];
        if let Ok(size) = write_back(code, &mut buffer)
            && let Some(back) = buffer.get(..size)
        {
            writeln!(self.text, "  written back {}", Shown::new(back))?;
        }
        Ok(())
    }

    fn push_matcher(&mut self, matcher: &[u8]) -> anyhow::Result<()> {
        if let Ok(read) = parse_matcher(matcher) {
            write!(self.text, "{}", Matcher(read))?;
        }
        Ok(())
    }

    fn push_groups(&mut self, groups: usize) -> anyhow::Result<()> {
        match groups {
            1 => self.text.push_str("  1 group: the whole name is 0\n")?,
            n => writeln!(
                self.text,
                "  {n} groups: the whole name is 0, then as they open"
            )?,
        }
        Ok(())
    }

    // Why a template is refused.
    fn refuse_deep(
        &mut self,
        template: &[u8],
        fault: ParseError<DeepError>,
    ) -> anyhow::Result<Option<Vec<u8>>> {
        write!(self.text, "{}", DeepFault { template, fault })?;
        Ok(None)
    }

    // Why a matcher and its template are refused.
    fn refuse_either(
        &mut self,
        matcher: &[u8],
        template: &[u8],
        fault: ParseError<EitherError>,
    ) -> anyhow::Result<Option<Vec<u8>>> {
        write!(
            self.text,
            "{}",
            EitherFault {
                matcher,
                template,
                fault,
            }
        )?;
        Ok(None)
    }

    // Why a definition is refused with an engine.
    fn refuse_conversion(
        &mut self,
        matcher: &[u8],
        template: &[u8],
        fault: ConversionError,
    ) -> anyhow::Result<Option<Vec<u8>>> {
        match fault {
            ConversionError::Definition(fault) => self.refuse_either(matcher, template, fault),
            ConversionError::FormatterParseError(fault) => {
                self.push_matcher(matcher)?;
                self.refuse_deep(template, fault)
            }
            other => {
                self.push_matcher(matcher)?;
                let number = other.number();
                let name = other.name();
                let why = reason(other);
                writeln!(self.text, "  refused {number} {name}: {why}")?;
                Ok(None)
            }
        }
    }
}
