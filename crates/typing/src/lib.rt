// Typing (6) and patterns (7) in one descent: the lowest equation with a side that does not check, otherwise the lowest offending
// hole occurrence.
#![tactic(auto)]

ghost use Rattle.typing.specs.Asks.{EquationAsks, JudgeAsks, Offends};
ghost use Rattle.typing.specs.Judging.{Judges};

use rules::Refused;
use table::{NONE, read};
use terms::check_term;

// Equation e has a side that does not check.
fn offends(table: &[u32], stack: &mut [u16], low: &mut u32, e: u32) -> bool
    requires { EquationAsks table.now stack.old low.old e }
    ensures { Offends table.now e low.old low.new result }
{
    let x = read(table, e);
    !check_term(table, stack, low, 0, x.a, x.c) || !check_term(table, stack, low, 0, x.b, x.c)
}

// The equations are judged, 6 before 7, with room on the stack for the binders of each term: all check and all hole occurrences are patterns,
// or the lowest ill-typed equation, or the lowest offending occurrence. `low` is NONE while none offends, as the definition has it: so the lowest
// of two is a `min`.
pub fn judge(table: &[u32], stack: &mut [u16], equations: &[u16]) -> Result<(), Refused>
    requires { JudgeAsks table.now stack.old equations.now }
    ensures { Judges table.now equations.now result }
{
    let mut low = NONE;
    for &e in equations {
        if offends(table, stack, &mut low, e as u32) {
            return Err(Refused::IllTyped(e as u32));
        }
    }
    if low != NONE {
        return Err(Refused::NoPattern(low));
    }
    Ok(())
}
