// The types of heads and of bound variables: a head's final type, a variable's type on the stack of binders, a lambda's binder pushed on it.
#![tactic(auto)]

ghost use Rattle.std.specs.Prelude.{◌≡◌, ◌+◌, ◌*◌, ◌<◌, ◌≤◌, length};
ghost use Rattle.rules.specs.Words.{VA};
ghost use Rattle.laws.specs.Places.{TypeAt};
ghost use Rattle.heads.specs.Stack.{binders, type_of};
ghost use Rattle.heads.specs.Heads.{named, head_type, IsFinal, Binds};

use table::{AR, NONE, Record, VA, Variable, read};

// A head's final type, and how many arguments it asks.
#[derive(Clone, Copy)]
pub struct Final {
    pub base: u32,
    pub count: u32,
}

// A head's final type is found by going down, two arrows a call ("one large solution" large: 1.24 with two, 1.28 with one). The table is lent on
// as a part, which is passed in two halves; in one piece, as it came, it waits for the stores that made it ("equal rigid trees" large: 1.13
// with the part, 1.25 without).
pub fn final_type(table: &[u32], ty: u32) -> Final
    requires { TypeAt table.now ty }
    ensures { IsFinal table.now ty result }
{
    let x = read(table, ty);
    if x.tag != AR {
        return Final { base: ty, count: 0 };
    }
    let y = read(table, x.b);
    if y.tag != AR {
        return Final {
            base: x.b,
            count: 1,
        };
    }
    let f = final_type(&table[0..], y.b);
    Final {
        base: f.base,
        count: f.count + 2,
    }
}

// The type of a bound variable.
fn type_of(stack: &[u16], depth: usize, v: Variable) -> Option<u32>
    requires { depth ≤ length stack.now }
    ensures { result ≡ type_of (binders stack.now depth) v.0 }
{
    let at = depth.checked_sub(1 + v.0 as usize)?;
    Some(stack[at] as u32)
}

// A hole's argument is a bare variable of exactly the type asked.
pub fn names(table: &[u32], stack: &[u16], depth: usize, x: u32, ty: u32) -> bool
    requires { (depth ≤ length stack.now) × (4 * x + 3 < length table.now) }
    ensures { result ≡ named table.now (binders stack.now depth) x ty }
{
    let y = read(table, x);
    if y.tag != VA || y.b != NONE {
        return false;
    }
    type_of(stack, depth, Variable(y.a)) == Some(ty)
}

// The type of a rigid head: a bound variable's, or a constant's.
pub fn head_type(table: &[u32], stack: &[u16], depth: usize, x: Record) -> Option<u32>
    requires { (depth ≤ length stack.now) × ((x.tag ≡ VA → ⊥) → 4 * x.a + 3 < length table.now) }
    ensures { result ≡ head_type table.now (binders stack.now depth) x }
{
    if x.tag == VA {
        return type_of(stack, depth, Variable(x.a));
    }
    let constant = read(table, x.a);
    Some(constant.a)
}

// A lambda's binder goes on the stack, if the type asked is an arrow: the type asked of the body.
pub fn bind(table: &[u32], stack: &mut [u16], depth: usize, ty: u32) -> Option<u32>
    requires { (TypeAt table.now ty) × (depth < length stack.old) }
    ensures { Binds table.now stack.old depth ty stack.new result }
{
    let x = read(table, ty);
    if x.tag != AR {
        return None;
    }
    stack[depth] = x.a as u16;
    Some(x.b)
}
