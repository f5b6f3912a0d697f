ghost use Rattle.std.specs.Prelude.{◌≡◌, ◌≤◌, is_some, is_ok, Decides, MatchResult};
ghost use Rattle.codes.specs.Acceptable.{decode, CodeOf};
ghost use Rattle.codes.specs.declared.error.CodeError.TheVariants.{NoCode};
ghost use Rattle.grammar.specs.Readings.{Template};

use crate::ends::template_end;
use codes::CodeError;
use grammar::CODE_LIMIT;
use wire::Commands;

fn is_code(code: &[u8]) -> bool
    ensures { result ≡ is_some (decode code.now) }
{
    code.len() <= CODE_LIMIT && template_end(Commands::of(code)).is_some_and(|rest| rest.is_done())
}

// Refuses bytes that are no accepted template's code, and no others.
pub fn check_code(code: &[u8]) -> Result<(), CodeError>
    ensures accepts { is_ok result ≡ is_some (decode code.now) }
    ensures refuses { MatchResult result (λ _. 0 ≤ 0) (λ e. e ≡ NoCode) }
    ensures exactly { Decides (is_ok result) ((x : Template) × CodeOf code.now x) }
{
    if is_code(code) {
        Ok(())
    } else {
        Err(CodeError::NoCode)
    }
}
