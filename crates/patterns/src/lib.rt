// Patterns (7): whether a hole occurrence's arguments are different bare variables.
#![tactic(auto)]

ghost use Rattle.std.specs.Prelude.{◌≡◌, map, min};
ghost use Rattle.rules.specs.Lists.{among};
ghost use Rattle.rules.specs.Words.{field_a, is_term, elements};
ghost use Rattle.laws.specs.Lists.{Listed};
ghost use Rattle.laws.specs.Places.{ListAt};
ghost use Rattle.patterns.specs.Occurrences.{different, occurrence};

use table::{NONE, VA, Variable, elements, read};

// A variable is among those that the arguments name.
fn named(table: &[u32], l: u32, v: Variable) -> bool
    requires { Listed table.now l }
    ensures { result ≡ among (map (λ x. field_a table.now x) (elements table.now l)) v.0 }
{
    for at in elements(table, l) {
        if read(table, at).a == v.0 {
            return true;
        }
    }
    false
}

// All arguments are bare variables with different numbers.
fn different(table: &[u32], l: u32) -> bool
    requires { Listed table.now l }
    ensures { result ≡ different table.now l }
{
    let mut left = elements(table, l);
    while let Some(at) = left.next() {
        let x = read(table, at);
        if x.tag != VA || x.b != NONE || named(table, left.list, Variable(x.a)) {
            return false;
        }
    }
    true
}

// The lowest offending occurrence so far, after the one at a record with these arguments.
pub fn offended(table: &[u32], low: u32, at: u32, l: u32) -> u32
    requires { ListAt (is_term table.now) table.now l }
    ensures { result ≡ min low (occurrence table.now at l) }
{
    if different(table, l) {
        return low;
    }
    low.min(at)
}
