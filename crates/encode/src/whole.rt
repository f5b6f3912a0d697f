ghost use Rattle.std.specs.List.{AllByRecursion};
ghost use Rattle.std.specs.Prelude.{◌≡◌, ◌≤◌, length, take, is_ok, nat_le, IfOk, Decides};
ghost use Rattle.codes.specs.Acceptable.{Coding, Codable};
ghost use Rattle.codes.specs.Calls.{filled, after, encoded};
ghost use Rattle.codes.specs.Laws.{SameCode, NoCodeBegins, RoundTrip, DecodesAccepted};
ghost use Rattle.codes.specs.declared.error.CodeError.TheVariants.{BufferTooShort};
ghost use Rattle.codes.specs.declared.error.EncodeError.TheVariants.{Code};
ghost use Rattle.controls.specs.Views.{shape};
ghost use Rattle.pen.specs.Pen.{Wrote};
ghost use Rattle.encode.specs.Shapes.{shape_code, codes_by, framed};
ghost use Rattle.encode.specs.Walks.{Whole};
ghost use Rattle.templates.specs.Outputs.{outputs_of};

use crate::commands::command;
use crate::pieces::plain_piece;
use crate::separators::{Scratch, power, separators};
use crate::steps::steps;
use codes::{CodeError, EncodeError, Opcode};
use controls::SubFormatterConst;
use formatter::parse_formatter;
use grammar::{CODE_LIMIT, TEMPLATE_LIMIT};
use pen::{Full, Pen, deliver};
use templates::FormatterConst;

// A piece of a template.
fn piece(typed: &SubFormatterConst, scratch: &mut Scratch, pen: &mut Pen<'_>) -> Result<(), Full>
    requires { Whole (shape typed.now) }
    ensures { Wrote pen.old pen.new (shape_code (shape typed.now)) result }
{
    match *typed {
        SubFormatterConst::Repeat {
            path,
            from,
            to,
            left,
            middle,
            right,
            left_sep,
            middle_sep,
            right_sep,
        } => {
            steps(path, pen)?;
            let numbers = [
                from.bits(),
                to.bits(),
                left,
                middle.left,
                middle.right,
                right,
            ];
            command(pen, Opcode::Range, &numbers)?;
            separators(left_sep, middle_sep, right_sep, scratch, pen)
        }
        _ => plain_piece(typed, pen),
    }
}

// The pieces of a template. As `plain_pieces`, with repeats: one function for both would take a closure, and the closure's contract
// would be longer than this loop.
fn pieces(parts: &FormatterConst, scratch: &mut Scratch, pen: &mut Pen<'_>) -> Result<(), Full>
    requires { AllByRecursion Whole (outputs_of parts.now) }
    ensures { Wrote pen.old pen.new (codes_by shape_code (outputs_of parts.now)) result }
{
    for typed in parts.outputs() {
        piece(&typed, scratch, pen)?;
    }
    Ok(())
}

// The code of a template that is read.
fn write(parts: &FormatterConst, scratch: &mut Scratch, pen: &mut Pen<'_>) -> Result<(), Full>
    requires { AllByRecursion Whole (outputs_of parts.now) }
    ensures { Wrote pen.old pen.new (framed parts.now.bind_power (codes_by shape_code (outputs_of parts.now))) result }
{
    power(parts.bind_power, pen)?;
    pieces(parts, scratch, pen)?;
    command(pen, Opcode::End, &[])
}

// The same at the start of a buffer, and how many bytes it has.
fn write_to(parts: &FormatterConst, scratch: &mut Scratch, out: &mut [u8]) -> Result<usize, Full>
    requires { AllByRecursion Whole (outputs_of parts.now) }
    ensures room { is_ok result ≡ nat_le (length (framed parts.now.bind_power (codes_by shape_code (outputs_of parts.now)))) (length out.old) }
    ensures long { length out.new ≡ length out.old }
    ensures within { IfOk result (λ n. n ≤ length out.new) }
    ensures bytes { IfOk result (λ n. take n out.new ≡ framed parts.now.bind_power (codes_by shape_code (outputs_of parts.now))) }
{
    let mut pen = Pen::new(out);
    write(parts, scratch, &mut pen)?;
    Ok(pen.written().len())
}

// The code is written beside the buffer first, so that nothing of it stands there if it is too long.
fn encode_template(template: &[u8], out: &mut [u8]) -> Result<usize, EncodeError>
    ensures answer { result ≡ filled (Code BufferTooShort) (encoded template.now) out.old }
    ensures buffer { out.new ≡ after (encoded template.now) out.old }
{
    let read = parse_formatter(template)?;
    // of the longest sizes, since nothing is taken from the heap
    let mut scratch = [0; TEMPLATE_LIMIT];
    let mut code = [0; CODE_LIMIT];
    let size = write_to(&read.parts, &mut scratch, &mut code).or(Err(EncodeError::Code(
        CodeError::CodeTooLong,
    )))?;
    // from the array itself and not by way of the pen, since the compiler then knows that the two lie apart
    deliver(&code[..size], out).ok_or(EncodeError::Code(CodeError::BufferTooShort))
}

// Writes the code of a template to the start of the buffer, and answers how many bytes it has. The rest of the buffer stays as
// it was, and on a refusal all of it: the template's fault, a code of more than 1,024 bytes, and last a buffer that is too short.
// What is written is an accepted template's code, and it is refused only where there is none, or none that is short enough.
pub fn encode(template: &[u8], out: &mut [u8]) -> Result<usize, EncodeError>
    ensures answer { result ≡ filled (Code BufferTooShort) (encoded template.now) out.old }
    ensures buffer { out.new ≡ after (encoded template.now) out.old }
    ensures coded { IfOk result (λ n. Coding template.now (take n out.new)) }
    ensures exactly { Decides (is_ok result) (Codable template.now (length out.old)) }
    ensures same { SameCode }
    ensures begins { NoCodeBegins }
    ensures back { RoundTrip }
    ensures decoded { DecodesAccepted }
{
    encode_template(template, out)
}
