//! The levels that are left of a limit on depth.

ghost use Rattle.std.specs.Prelude.{◌≡◌, ◌+◌, zero, suc, IfOk, IfErr};
ghost use Rattle.kola_parse.specs.declared.stop.Stop.TheVariants.{Before};
ghost use Rattle.kola_parse.specs.declared.why.Why.TheVariants.{TooDeep};

use crate::stop::Stop;
use crate::why::Why;

/// How many levels are left one level below, or the fault that there is none, before the rest of the text.
pub fn inner_of<R: Drop>(levels: usize, rest: R) -> Result<usize, Stop<R>>
    ensures ok { IfOk result (λ inner. (levels ≡ suc inner) × (inner + 1 ≡ levels)) }
    ensures err { IfErr result (λ e. (levels ≡ zero) × (e ≡ Before TooDeep rest)) }
{
    if levels == 0 {
        return Err(Stop::Before(Why::TooDeep, rest));
    }
    Ok(levels - 1)
}
