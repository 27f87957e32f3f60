// What is written into lent words: records appended through the part that starts at record n, with the answer; words set, records cleared.
//
// Table and solutions are two slices in every function of the machine, and no struct: each function that takes a struct with a `&mut` in it has to
// promise that it still holds the same slice (its ghost name), a clause more in each contract.
#![tactic(auto)]

ghost use Rattle.std.specs.Prelude.{◌≡◌, false, ◌+◌, ◌*◌, ◌<◌, ◌≤◌, length};
ghost use Rattle.rules.specs.Store.{put as put_at, push as pushOf, push_cells, push_variables, push_occurrence};
ghost use Rattle.places.specs.Maps.{map_of, side};
ghost use Rattle.rules.specs.Solve.{filled};
ghost use Rattle.store.specs.Said.{Does};
ghost use Rattle.store.specs.Solutions.{solution_in};
ghost use Rattle.store.specs.Writing.{Writing, variable_of};
ghost use Rattle.store.specs.Clearing.{Clearing, Cleared};
ghost use Rattle.store.specs.Unused.{Unused};

use arrayvec::ArrayVec;
use places::Map;
use rules::Failure;
use table::{CE, HA, Hole, NONE, VA, Variable};

// The part of the table that is written: records n to room - 1.
#[derive(Clone, Copy)]
pub struct Part {
    pub n: u32,
    pub room: u32,
}

// What a part of the machine wrote: its last record, and the records used then.
#[derive(Clone, Copy)]
pub struct Written {
    pub root: u32,
    pub used: u32,
}

// Four words at the k-th record of a part.
fn put(part: &mut [u32], k: usize, tag: u32, a: u32, b: u32)
    requires { 4 * k + 3 < length part.old }
    ensures { put_at part.old k tag a b ≡ part.new }
{
    let i = 4 * k;
    part[i] = tag;
    part[i + 1] = a;
    part[i + 2] = b;
    part[i + 3] = 0;
}

// A record is appended; table full is met at the first record that has no number.
pub fn push(
    table: &mut [u32],
    part: Part,
    used: u32,
    tag: u32,
    a: u32,
    b: u32,
) -> Result<Written, Failure>
    requires { Writing table.old part used }
    ensures { Does part.n (pushOf part.room tag a b) table.old used table.new result }
{
    if used >= part.room {
        return Err(Failure::TableFull);
    }
    let from = 4 * (part.n as usize);
    let k = (used - part.n) as usize;
    put(&mut table[from..], k, tag, a, b);
    Ok(Written {
        root: used,
        used: used + 1,
    })
}

// The record of a hole's solution.
pub fn solution_of(solutions: &[u32], hole: Hole) -> Option<u32>
    requires { hole.0 < length solutions.now }
    ensures { solution_in solutions.now hole.0 ≡ result }
{
    let t = solutions[hole.0 as usize];
    if t == NONE {
        return None;
    }
    Some(t)
}

// Cells for the noted records, last first.
pub fn push_cells(
    table: &mut [u32],
    part: Part,
    used: u32,
    noted: &[u32],
) -> Result<Written, Failure>
    requires { Writing table.old part used }
    ensures { Does part.n (push_cells part.room noted.now) table.old used table.new result }
{
    let mut cells = Written { root: NONE, used };
    for &at in noted.iter().rev() {
        cells = push(table, part, cells.used, CE, at, cells.root)?;
    }
    Ok(cells)
}

// The variable that stands for a position with a place: the position, or the place. `froms` is the definition's `Bool`, as `above` is in `places`.
fn variable(froms: bool, position: usize, place: u32) -> Variable
    requires { position < 16 }
    ensures { variable_of froms position place ≡ result.0 }
{
    if froms {
        return Variable(position as u32);
    }
    Variable(place)
}

// Bare variables for the positions that have a place, in order, then their cells from last to first.
fn push_variables(
    table: &mut [u32],
    part: Part,
    used: u32,
    map: Map,
    froms: bool,
) -> Result<Written, Failure>
    requires { Writing table.old part used }
    ensures { Does part.n (push_variables part.room (side froms (map_of false map))) table.old used table.new result }
{
    let mut noted = ArrayVec::<u32, 16>::new();
    let mut taken = used;
    for (i, &place) in map.places[..map.len].iter().enumerate() {
        if place == NONE {
            continue;
        }
        let v = variable(froms, i, place);
        let written = push(table, part, taken, VA, v.0, NONE)?;
        noted.push(written.root);
        taken = written.used;
    }
    push_cells(table, part, taken, &noted)
}

// The hole applied to the variables that the map leads from, or to.
pub fn push_occurrence(
    table: &mut [u32],
    part: Part,
    used: u32,
    hole: Hole,
    map: Map,
    froms: bool,
) -> Result<Written, Failure>
    requires { Writing table.old part used }
    ensures { Does part.n (push_occurrence part.room hole.0 (side froms (map_of false map))) table.old used table.new result }
{
    let xs = push_variables(table, part, used, map, froms)?;
    push(table, part, xs.used, HA, hole.0, xs.root)
}

// So many words from one on become x, the others stay.
pub fn fill(words: &mut [u32], from: usize, count: usize, x: u32)
    requires { from + count ≤ length words.old }
    ensures { filled from count x words.old ≡ words.new }
{
    words[from..from + count].fill(x);
}

// The records of the part all zero, the first `room` solution words NONE.
pub fn clear(table: &mut [u32], solutions: &mut [u32], part: Part)
    requires { Clearing part.n part.room table.old solutions.old }
    ensures { Cleared part.n part.room table.old solutions.old table.new solutions.new }
{
    let from = 4 * (part.n as usize);
    let count = 4 * ((part.room - part.n) as usize);
    fill(table, from, count, 0);
    fill(solutions, 0, part.room as usize, NONE);
}

// The first record of the part that was not written, where the tags end: a search by halves, which reads at most 13 tags. It has a
// loop of its own, since the tags stand four words apart, and a slice's `partition_point` takes each word.
pub fn first_unused(table: &[u32], part: Part) -> u32
    requires { (part.n ≤ part.room) × (4 * part.room ≤ length table.now) }
    ensures { Unused part.n part.room table.now result result }
{
    let mut low = part.n;
    let mut high = part.room;
    while low < high {
        let middle = low + (high - low) / 2;
        if table[4 * (middle as usize)] == 0 {
            high = middle;
        } else {
            low = middle + 1;
        }
    }
    low
}
