// A term checks at a type, and the lowest offending hole occurrence within is noted, in one descent.
#![tactic(auto)]

ghost use Rattle.std.specs.Prelude.{◌≡◌};
ghost use Rattle.rules.specs.Lists.{enough};
ghost use Rattle.rules.specs.Words.{HA, tag, is_type};
ghost use Rattle.rules.specs.Typing.{checks};
ghost use Rattle.rules.specs.Pattern.{offence};
ghost use Rattle.laws.specs.Places.{ListAt};
ghost use Rattle.heads.specs.Stack.{binders};
ghost use Rattle.terms.specs.Asks.{filled, among_terms, TermAsks, ArgsAsk, ListAsks, Told, Leaves};

use heads::{bind, final_type, head_type, names};
use patterns::offended;
use table::{HA, LA, NONE, elements, read};

// The last argument of a list whose others are checked, and the type at which it is to be checked.
#[derive(Clone, Copy)]
pub struct LastArgument {
    pub last: u32,
    pub ty: u32,
}

// A term checks at a type under the binders on the stack. The loop goes on with a lambda's body, and with a rigid head's last argument: with a
// call for that one too "deep equal nests" large reads 1.82, and not 1.00.
#[cycle(check_args_check_fills_check_hole_check_term)]
pub fn check_term(
    table: &[u32],
    stack: &mut [u16],
    low: &mut u32,
    depth: usize,
    r: u32,
    ty: u32,
) -> bool
    requires { TermAsks table.now stack.old low.old depth r ty }
    ensures { Told depth (checks enough table.now (binders stack.old depth) r ty) (offence enough table.now r) stack.old low.old stack.new low.new result }
{
    let mut d = depth;
    let mut at = ty;
    let mut term = r;
    loop {
        let x = read(table, term);
        if x.tag == LA {
            let Some(body) = bind(table, stack, d, at) else {
                return false;
            };
            d += 1;
            at = body;
            term = x.a;
            continue;
        }
        if x.tag == HA {
            return check_hole(table, stack, low, d, term, at);
        }
        let Some(head) = head_type(table, stack, d, x) else {
            return false;
        };
        let f = final_type(table, head);
        if f.base != at {
            return false;
        }
        if f.count == 0 {
            return x.b == NONE;
        }
        if x.b == NONE {
            return false;
        }
        let Some(left) = check_args(table, stack, low, d, x.b, head, f.count) else {
            return false;
        };
        term = left.last;
        at = left.ty;
    }
}

// A hole occurrence checks at a type: its hole has that type, and its arguments fill the hole's context.
#[cycle(check_args_check_fills_check_hole_check_term)]
fn check_hole(
    table: &[u32],
    stack: &mut [u16],
    low: &mut u32,
    depth: usize,
    at: u32,
    ty: u32,
) -> bool
    requires { (TermAsks table.now stack.old low.old depth at ty) × (tag table.now at ≡ HA) }
    ensures { Told depth (checks enough table.now (binders stack.old depth) at ty) (offence enough table.now at) stack.old low.old stack.new low.new result }
{
    let x = read(table, at);
    let hole = read(table, x.a);
    if hole.b != ty {
        return false;
    }
    *low = offended(table, *low, at, x.b);
    check_fills(table, stack, low, depth, x.b, hole.a)
}

// A list has as many arguments as the head's type asks, `count`, so that each is read beside an arrow, and each but the last checks:
// then the last one and the type asked of it. It goes by cells, since it looks one cell ahead.
#[cycle(check_args_check_fills_check_hole_check_term)]
fn check_args(
    table: &[u32],
    stack: &mut [u16],
    low: &mut u32,
    depth: usize,
    l: u32,
    head: u32,
    count: u32,
) -> Option<LastArgument>
    requires { ListAsks table.now stack.old low.old depth l head count }
    ensures { Leaves table.now stack.old low.old depth l head stack.new low.new result }
{
    let mut list = l;
    let mut rest = head;
    let mut left = count;
    loop {
        let t = read(table, rest);
        let cell = read(table, list);
        left -= 1;
        if left == 0 {
            if cell.b != NONE {
                return None;
            }
            return Some(LastArgument {
                last: cell.a,
                ty: t.a,
            });
        }
        if cell.b == NONE {
            return None;
        }
        if !check_term(table, stack, low, depth, cell.a, t.a) {
            return None;
        }
        list = cell.b;
        rest = t.b;
    }
}

// A hole's arguments are as many as the context's types; each is a bare variable of exactly its type, or checks at it.
#[cycle(check_args_check_fills_check_hole_check_term)]
fn check_fills(
    table: &[u32],
    stack: &mut [u16],
    low: &mut u32,
    depth: usize,
    l: u32,
    context: u32,
) -> bool
    requires { ArgsAsk (ListAt (is_type table.now) table.now) table.now stack.old low.old depth l context }
    ensures { Told depth (filled table.now (binders stack.old depth) l context) (among_terms table.now l) stack.old low.old stack.new low.new result }
{
    let mut types = elements(table, context);
    for at in elements(table, l) {
        let Some(ty) = types.next() else {
            return false;
        };
        if !names(table, stack, depth, at, ty) && !check_term(table, stack, low, depth, at, ty) {
            return false;
        }
    }
    types.list == NONE
}
