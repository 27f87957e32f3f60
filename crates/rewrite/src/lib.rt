// Terms written anew, as copying and showing share it: where variables are led that have a place, and lambdas after a body.
#![tactic(auto)]

ghost use Rattle.std.specs.Prelude.{◌≡◌, ◌*◌, ◌≤◌, length, false, Some};
ghost use Rattle.rules.specs.Map.{place_of};
ghost use Rattle.places.specs.Maps.{map_of};
ghost use Rattle.places.specs.Follow.{Followed};
ghost use Rattle.store.specs.Writing.{Writing};
ghost use Rattle.rewrite.specs.Renamed.{Renaming};
ghost use Rattle.rewrite.specs.Renamings.{Renamings};
ghost use Rattle.rewrite.specs.Lambdas.{Under};

use places::{Map, variable_of};
use rules::Failure;
use store::{Part, Written, push};
use table::{LA, Variable, elements};

// Where a variable that has a place is led; variables bound inside stay.
pub fn renamed(map: Map, depth: u32, v: Variable) -> Variable
    requires { Renaming map depth v.0 }
    ensures { place_of (map_of false map) depth v.0 ≡ Some result.0 }
{
    if v.0 < depth {
        return v;
    }
    let position = (v.0 - depth) as usize;
    Variable(map.places[position] + depth)
}

// The map that follows a hole's arguments, each of which has a place: from each position to that place.
pub fn renamings(table: &[u32], map: Map, depth: u32, list: u32) -> Map
    requires { Renamings table.now map depth list }
    ensures { Followed table.now false map depth list result }
{
    let mut m = Map::empty();
    for at in elements(table, list) {
        let x = variable_of(table, at);
        let y = renamed(map, depth, x);
        m.push(y.0);
    }
    m
}

// The records of k lambdas, the innermost first, after the body that was written.
pub fn then_lambdas(
    table: &mut [u32],
    part: Part,
    k: u32,
    body: Written,
) -> Result<Written, Failure>
    requires { Writing table.old part body.used }
    ensures { Under part.n part.room k table.old body table.new result }
{
    let mut written = body;
    for _ in 0..k {
        written = push(table, part, written.used, LA, written.root, 0)?;
    }
    Ok(written)
}
