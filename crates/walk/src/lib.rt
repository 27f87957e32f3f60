// The walk of the other side for the hole that is solved, and copying, which is a walk for no hole.
#![tactic(auto)]

ghost use Rattle.std.specs.Prelude.{◌≡◌, ◌<◌, length};
ghost use Rattle.rules.specs.Walk.{assign as assignOf};
ghost use Rattle.store.specs.Said.{Does²};
ghost use Rattle.places.specs.Maps.{map_of};
ghost use Rattle.places.specs.Looking.{Looks, Within};
ghost use Rattle.invariants.specs.Rise.{raised};
ghost use Rattle.walk.specs.Head.{head_of, is_leaf};
ghost use Rattle.walk.specs.Shared.{AsksTerm, AsksBody, AsksArgs, AsksHole, SaysTerm, SaysList, SaysHole};
ghost use Rattle.walk.specs.Assign.{Assigning};
ghost use Rattle.walk.specs.Solution.{Copying, CopiesSolution};

use arrayvec::ArrayVec;
use narrow::keep_placed;
use places::Map;
use rewrite::{renamings, then_lambdas};
use rules::Failure;
use store::{Part, Written, push, push_cells, push_occurrence, solution_of};
use table::{CA, CE, HA, Hole, LA, NONE, Record, VA, Variable, read};

// What the parts of a walk share: the part of the table that is written, the hole that is solved, and the floor. A walk
// for no hole is a copy. The floor is 0 on the side of a pair, where the map leads from places to positions. A walk is lent on,
// since copied at each call it costs time (a nest of 1,000 heads as solution: 29 µs so, 34 µs by value).
#[derive(Clone, Copy)]
struct Walk {
    part: Part,
    hole: Option<Hole>,
    floor: u32,
}

// The floor below a solved hole that is met at a record: n on the side of a pair, else past the record. It is there for the proof
// that the walk ends: no record below the floor is read, and it rises at each solved hole.
fn raise(n: u32, floor: u32, at: u32) -> u32
    requires { at < 4096 }
    ensures { raised n floor at ≡ result }
{
    if floor == 0 {
        return n;
    }
    at + 1
}

// What a rigid head is written as: a constant as it is, a variable as its place.
fn head_of(map: Map, above: bool, depth: u32, rec: Record) -> Option<u32>
    requires { Looks above map depth × (rec.tag ≡ 8 → Within above map depth rec.a) }
    ensures { head_of (map_of above map) depth rec ≡ result }
{
    if rec.tag == VA {
        let v = map.place_of(above, depth, Variable(rec.a))?;
        return Some(v.0);
    }
    Some(rec.a)
}

// Whether a term is a rigid head without arguments.
fn is_leaf(rec: Record) -> bool
    ensures { is_leaf rec ≡ result }
{
    rec.b == NONE && (rec.tag == CA || rec.tag == VA)
}

// The walk of a term: of the body below its lambdas, and then the lambdas.
#[cycle(walk_args_walk_argument_walk_body_walk_hole_walk_term)]
fn walk_term(
    table: &mut [u32],
    solutions: &mut [u32],
    walk: &Walk,
    used: u32,
    map: Map,
    depth: u32,
    at: u32,
) -> Result<Written, Failure>
    requires { AsksTerm walk.now map table.old solutions.old used depth at }
    ensures { SaysTerm walk.now map table.old solutions.old used depth at table.new solutions.new result }
{
    let mut inner = depth;
    let mut term = at;
    let mut rec = read(table, at);
    while rec.tag == LA {
        inner += 1;
        term = rec.a;
        rec = read(table, term);
    }
    let body = walk_body(table, solutions, walk, used, map, inner, term)?;
    then_lambdas(table, walk.part, inner - depth, body)
}

// The walk of a term that is no lambda: a head is looked at before its arguments. What an occurrence comes to is taken apart and put together
// anew: handed on as it comes it lies in memory, and then so does each rigid head's answer (a tree of 256 leaves as solution: 5.9 µs so,
// 7.4 µs handed on).
#[cycle(walk_args_walk_argument_walk_body_walk_hole_walk_term)]
fn walk_body(
    table: &mut [u32],
    solutions: &mut [u32],
    walk: &Walk,
    used: u32,
    map: Map,
    depth: u32,
    at: u32,
) -> Result<Written, Failure>
    requires { AsksBody walk.now map table.old solutions.old used depth at }
    ensures { SaysTerm walk.now map table.old solutions.old used depth at table.new solutions.new result }
{
    let rec = read(table, at);
    if rec.tag == HA {
        let written = walk_hole(table, solutions, walk, used, map, depth, at)?;
        return Ok(written);
    }
    let Some(head) = head_of(map, walk.floor == 0, depth, rec) else {
        return Err(Failure::Escape);
    };
    if rec.b == NONE {
        return push(table, walk.part, used, rec.tag, head, NONE);
    }
    let args = walk_args(table, solutions, walk, used, map, depth, rec.b)?;
    push(table, walk.part, args.used, rec.tag, head, args.root)
}

// The walk of one of several arguments: a rigid head without arguments takes no walk of a term ("one large solution" large: 1.19 of the
// plain version so, 1.34 with a walk of a term). What the walk of a term comes to is taken apart, as in `walk_body` (60 heads of 16
// arguments: 6.3 µs so, 13.2 µs handed on).
#[cycle(walk_args_walk_argument_walk_body_walk_hole_walk_term)]
fn walk_argument(
    table: &mut [u32],
    solutions: &mut [u32],
    walk: &Walk,
    used: u32,
    map: Map,
    depth: u32,
    at: u32,
) -> Result<Written, Failure>
    requires { AsksTerm walk.now map table.old solutions.old used depth at }
    ensures { SaysTerm walk.now map table.old solutions.old used depth at table.new solutions.new result }
{
    let leaf = read(table, at);
    if is_leaf(leaf) {
        let Some(head) = head_of(map, walk.floor == 0, depth, leaf) else {
            return Err(Failure::Escape);
        };
        return push(table, walk.part, used, leaf.tag, head, NONE);
    }
    let written = walk_term(table, solutions, walk, used, map, depth, at)?;
    Ok(written)
}

// The walk of an argument list: arguments in order, then their cells from last to first.
// An only argument takes no notes ("deep nest as solution" large: 1.35 of the plain version so, 1.54 with notes).
#[cycle(walk_args_walk_argument_walk_body_walk_hole_walk_term)]
fn walk_args(
    table: &mut [u32],
    solutions: &mut [u32],
    walk: &Walk,
    used: u32,
    map: Map,
    depth: u32,
    list: u32,
) -> Result<Written, Failure>
    requires { AsksArgs walk.now map table.old solutions.old used depth list }
    ensures { SaysList walk.now map table.old solutions.old used depth list table.new solutions.new result }
{
    let first = read(table, list);
    if first.b == NONE {
        let only = walk_term(table, solutions, walk, used, map, depth, first.a)?;
        return push(table, walk.part, only.used, CE, only.root, NONE);
    }
    let mut noted = ArrayVec::<u32, 16>::new();
    let mut taken = used;
    let mut left = list;
    while left != NONE {
        let cell = read(table, left);
        let arg = walk_argument(table, solutions, walk, taken, map, depth, cell.a)?;
        noted.push(arg.root);
        taken = arg.used;
        left = cell.b;
    }
    push_cells(table, walk.part, taken, &noted)
}

// The walk at an occurrence. A copy keeps holes as they are; else: of the hole itself, of a solved hole, of another unsolved one. It is put in at its
// only call ("chain of names" large: 1.08 of the plain version so, 1.36 with a call).
#[cycle(walk_args_walk_argument_walk_body_walk_hole_walk_term)]
#[inline(always)]
fn walk_hole(
    table: &mut [u32],
    solutions: &mut [u32],
    walk: &Walk,
    used: u32,
    map: Map,
    depth: u32,
    at: u32,
) -> Result<Written, Failure>
    requires { AsksHole walk.now map table.old solutions.old used depth at }
    ensures { SaysHole walk.now map table.old solutions.old used depth at table.new solutions.new result }
{
    let occ = read(table, at);
    let Some(hole) = walk.hole else {
        let kept = renamings(table, map, depth, occ.b);
        return push_occurrence(table, walk.part, used, Hole(occ.a), kept, false);
    };
    if occ.a == hole.0 {
        return Err(Failure::Occurs);
    }
    let next = map.follow(table, walk.floor == 0, depth, occ.b);
    let Some(solution) = solution_of(solutions, Hole(occ.a)) else {
        return keep_placed(table, solutions, walk.part, used, Hole(occ.a), next);
    };
    let below = Walk {
        floor: raise(walk.part.n, walk.floor, at),
        ..*walk
    };
    walk_term(table, solutions, &below, used, next, 0, solution)
}

// A copy of a solution, its context variables renamed to the arguments of the occurrence: a walk for no hole. Its floor is 1, not 0, since
// the map leads from positions to variables; no solved hole is followed, so it never rises.
pub fn copy_solution(
    table: &mut [u32],
    solutions: &mut [u32],
    part: Part,
    used: u32,
    at: u32,
    solution: u32,
) -> Result<Written, Failure>
    requires { Copying part.room part.n table.old solutions.old used at solution }
    ensures { CopiesSolution part.room part.n table.old solutions.old used at solution table.new solutions.new result }
{
    let occ = read(table, at);
    let map = Map::arguments(table, occ.b);
    let walk = Walk {
        part,
        hole: None,
        floor: 1,
    };
    walk_term(table, solutions, &walk, used, map, 0, solution)
}

// Step 5: the other side is walked for the hole that occurs on the left, and the result is its solution.
pub fn assign(
    table: &mut [u32],
    solutions: &mut [u32],
    part: Part,
    used: u32,
    left: u32,
    right: u32,
) -> Result<Written, Failure>
    requires { Assigning part.room part.n table.old solutions.old used left right }
    ensures { Does² part.n (assignOf part.room left right) table.old solutions.old used table.new solutions.new result }
{
    let occ = read(table, left);
    let hole = Hole(occ.a);
    let map = Map::arguments(table, occ.b);
    let walk = Walk {
        part,
        hole: Some(hole),
        floor: 0,
    };
    let written = walk_term(table, solutions, &walk, used, map, 0, right)?;
    solutions[hole.0 as usize] = written.root;
    Ok(written)
}
