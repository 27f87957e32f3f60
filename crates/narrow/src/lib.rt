// Narrowing a hole, and keeping the arguments of an occurrence that have a place.
#![tactic(auto)]

ghost use Rattle.std.specs.Prelude.{true, false};
ghost use Rattle.rules.specs.Store.{push_cells};
ghost use Rattle.rules.specs.Walk.{narrow as narrowOf, keep_placed};
ghost use Rattle.store.specs.Said.{Does, Does²};
ghost use Rattle.places.specs.Maps.{map_of, side};
ghost use Rattle.narrow.specs.Context.{Choosing, contexts};
ghost use Rattle.narrow.specs.Narrowing.{rooted, Narrowing};

use arrayvec::ArrayVec;
use places::Map;
use rules::Failure;
use store::{Part, Written, push, push_cells, push_occurrence};
use table::{HO, Hole, NONE, read};

// What narrowing comes to: the records used and the new hole.
#[derive(Clone, Copy)]
pub struct Narrowed {
    pub used: u32,
    pub hole: Hole,
}

// Context cells for the positions that have a place, last first.
fn push_context(
    table: &mut [u32],
    part: Part,
    used: u32,
    context: u32,
    map: Map,
) -> Result<Written, Failure>
    requires { Choosing table.old part.n used part.room context map }
    ensures { Does part.n (push_cells part.room (contexts table.old context (side true (map_of false map)))) table.old used table.new result }
{
    let mut noted = ArrayVec::<u32, 16>::new();
    let mut list = context;
    for &place in &map.places[..map.len] {
        let cell = read(table, list);
        list = cell.b;
        if place == NONE {
            continue;
        }
        noted.push(cell.a);
    }
    push_cells(table, part, used, &noted)
}

// The hole is narrowed to the positions that the map leads from: the new hole at the kept positions becomes the old hole's solution.
pub fn narrow(
    table: &mut [u32],
    solutions: &mut [u32],
    part: Part,
    used: u32,
    hole: Hole,
    kept: Map,
) -> Result<Narrowed, Failure>
    requires { Narrowing table.old solutions.old part.n used part.room hole.0 kept }
    ensures { Does² part.n (narrowOf part.room hole.0 (side true (map_of false kept))) table.old solutions.old used table.new solutions.new (rooted result) }
{
    let old = read(table, hole.0);
    let cells = push_context(table, part, used, old.a, kept)?;
    let written = push(table, part, cells.used, HO, cells.root, old.b)?;
    let new = Hole(written.root);
    let applied = push_occurrence(table, part, written.used, new, kept, true)?;
    solutions[hole.0 as usize] = applied.root;
    Ok(Narrowed {
        used: applied.used,
        hole: new,
    })
}

// An unsolved hole: the arguments that have a place are kept; if any is dropped, the hole is narrowed first.
pub fn keep_placed(
    table: &mut [u32],
    solutions: &mut [u32],
    part: Part,
    used: u32,
    hole: Hole,
    kept: Map,
) -> Result<Written, Failure>
    requires { Narrowing table.old solutions.old part.n used part.room hole.0 kept }
    ensures { Does² part.n (keep_placed part.room hole.0 kept.len (map_of false kept)) table.old solutions.old used table.new solutions.new result }
{
    if kept.all_placed() {
        return push_occurrence(table, part, used, hole, kept, false);
    }
    let new = narrow(table, solutions, part, used, hole, kept)?;
    push_occurrence(table, part, new.used, new.hole, kept, false)
}
