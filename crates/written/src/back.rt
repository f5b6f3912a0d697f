ghost use Rattle.std.specs.Prelude.{◌≡◌, true, take, is_some, IfOk};
ghost use Rattle.codes.specs.Acceptable.{decode, Coding};
ghost use Rattle.codes.specs.Calls.{filled, after, written_back};
ghost use Rattle.codes.specs.declared.error.CodeError.TheVariants.{BufferTooShort};
ghost use Rattle.wire.specs.Ahead.{ahead};
ghost use Rattle.written.specs.Pens.{fresh, inks};
ghost use Rattle.written.specs.Spelled.{template_of};

use crate::pen::Pen;
use crate::walk::put_template;
use codes::CodeError;
use decode::check_code;
use wire::Commands;

// A code and a buffer are what callers have; the pen and the cursor made of them here go to all the writers below.

// Writes the template for a code, as far as the buffer goes, and answers how many bytes it has.
fn put_code(code: &[u8], out: &mut [u8]) -> usize
    ensures count { result ≡ (inks (template_of (ahead code.now 0)) (fresh out.old)).at }
    ensures buffer { out.new ≡ (inks (template_of (ahead code.now 0)) (fresh out.old)).buffer }
{
    let mut pen = Pen {
        out,
        at: 0,
        last: 0,
    };
    put_template(&mut pen, Commands::of(code));
    pen.at
}

// Writes the template for a code that is one. It is counted first, so that a buffer that is too short stays as it is.
fn put_back(code: &[u8], out: &mut [u8]) -> Result<usize, CodeError>
    requires { is_some (decode code.now) ≡ true }
    ensures answer { result ≡ filled BufferTooShort (written_back code.now) out.old }
    ensures buffer { out.new ≡ after (written_back code.now) out.old }
{
    let needed = put_code(code, &mut []);
    if needed > out.len() {
        return Err(CodeError::BufferTooShort);
    }
    put_code(code, out);
    Ok(needed)
}

// Writes the template that a code stands for, from the start of `out`, and answers how many bytes it has. Bytes that are no code are refused
// first, a buffer that is too short last; `out` then stays as it is. What is written is an accepted template with that same code.
pub fn write_back(code: &[u8], out: &mut [u8]) -> Result<usize, CodeError>
    ensures answer { result ≡ filled BufferTooShort (written_back code.now) out.old }
    ensures buffer { out.new ≡ after (written_back code.now) out.old }
    ensures again { IfOk result (λ n. Coding (take n out.new) code.now) }
{
    check_code(code)?;
    put_back(code, out)
}
