// Show: one hole's answer with all solved holes expanded, written into the output.
#![tactic(auto)]

ghost use Rattle.std.specs.Prelude.{◌≡◌};
ghost use Rattle.rules.specs.Show.{answer as answer_of};
ghost use Rattle.store.specs.Said.{store, shown};
ghost use Rattle.show.specs.Shows.{ShowsTerm, ShowsList, ShowsHole};
ghost use Rattle.show.specs.Ready.{ReadyTerm, ReadyBody, ReadyList, ReadyHole};
ghost use Rattle.show.specs.Answer.{Answering};

use arrayvec::ArrayVec;
use places::Map;
use rewrite::{renamed, renamings, then_lambdas};
use rules::Failure;
use store::{Part, Written, push, push_cells, push_occurrence, solution_of};
use table::{HA, Hole, LA, NONE, VA, Variable, elements, read};

// What the parts of a showing share: an output of `room` records, and the floor. The floor is there for the proof that showing ends:
// no record below it is read, and it rises at each solved hole. It holds no `Part`, whose n would have to be 0 in each contract.
#[derive(Clone, Copy)]
struct Task {
    room: u32,
    floor: u32,
}

// A term of the table written to the output, its variables renamed by the map: the body below its lambdas, and then the lambdas.
#[cycle(show_args_show_body_show_hole_show_term)]
fn show_term(
    table: &[u32],
    solutions: &[u32],
    output: &mut [u32],
    task: Task,
    used: u32,
    map: Map,
    depth: u32,
    at: u32,
) -> Result<Written, Failure>
    requires { ReadyTerm task.room map table.now solutions.now output.old task.floor depth at }
    ensures { ShowsTerm task.room map table.now solutions.now output.old used task.floor depth at output.new result }
{
    let mut inner = depth;
    let mut term = at;
    let mut rec = read(table, at);
    while rec.tag == LA {
        inner += 1;
        term = rec.a;
        rec = read(table, term);
    }
    let body = show_body(table, solutions, output, task, used, map, inner, term)?;
    let part = Part {
        n: 0,
        room: task.room,
    };
    then_lambdas(output, part, inner - depth, body)
}

// The same for a term that is no lambda.
#[cycle(show_args_show_body_show_hole_show_term)]
fn show_body(
    table: &[u32],
    solutions: &[u32],
    output: &mut [u32],
    task: Task,
    used: u32,
    map: Map,
    depth: u32,
    at: u32,
) -> Result<Written, Failure>
    requires { ReadyBody task.room map table.now solutions.now output.old task.floor depth at }
    ensures { ShowsTerm task.room map table.now solutions.now output.old used task.floor depth at output.new result }
{
    let rec = read(table, at);
    if rec.tag == HA {
        let next = renamings(table, map, depth, rec.b);
        let below = Task {
            floor: at + 1,
            ..task
        };
        return show_hole(table, solutions, output, below, used, Hole(rec.a), next);
    }
    let head = if rec.tag == VA {
        renamed(map, depth, Variable(rec.a)).0
    } else {
        rec.a
    };
    let part = Part {
        n: 0,
        room: task.room,
    };
    if rec.b == NONE {
        return push(output, part, used, rec.tag, head, NONE);
    }
    let args = show_args(table, solutions, output, task, used, map, depth, rec.b)?;
    push(output, part, args.used, rec.tag, head, args.root)
}

// An argument list: arguments in order, then their cells from last to first.
#[cycle(show_args_show_body_show_hole_show_term)]
fn show_args(
    table: &[u32],
    solutions: &[u32],
    output: &mut [u32],
    task: Task,
    used: u32,
    map: Map,
    depth: u32,
    list: u32,
) -> Result<Written, Failure>
    requires { ReadyList task.room map table.now solutions.now output.old task.floor depth list }
    ensures { ShowsList task.room map table.now solutions.now output.old used task.floor depth list output.new result }
{
    let mut noted = ArrayVec::<u32, 16>::new();
    let mut taken = used;
    for argument in elements(table, list) {
        let shown = show_term(table, solutions, output, task, taken, map, depth, argument)?;
        noted.push(shown.root);
        taken = shown.used;
    }
    let part = Part {
        n: 0,
        room: task.room,
    };
    push_cells(output, part, taken, &noted)
}

// A hole under a map of its context: a solved hole is expanded, an unsolved one is written.
#[cycle(show_args_show_body_show_hole_show_term)]
fn show_hole(
    table: &[u32],
    solutions: &[u32],
    output: &mut [u32],
    task: Task,
    used: u32,
    hole: Hole,
    map: Map,
) -> Result<Written, Failure>
    requires { ReadyHole task.room map table.now solutions.now output.old task.floor hole.0 }
    ensures { ShowsHole task.room map table.now solutions.now output.old used task.floor hole.0 output.new result }
{
    let part = Part {
        n: 0,
        room: task.room,
    };
    match solution_of(solutions, hole) {
        None => push_occurrence(output, part, used, hole, map, false),
        Some(solution) => show_term(table, solutions, output, task, used, map, 0, solution),
    }
}

// The answer of an input hole, over its context variables in order.
pub fn answer(
    table: &[u32],
    solutions: &[u32],
    output: &mut [u32],
    room: u32,
    hole: Hole,
) -> Result<Written, Failure>
    requires { Answering room table.now solutions.now output.old hole.0 }
    ensures { answer_of room table.now hole.0 (store output.old solutions.now 0) ≡ shown output.new solutions.now result }
{
    let rec = read(table, hole.0);
    let map = Map::in_order(table, rec.a);
    let task = Task { room, floor: 1 };
    show_hole(table, solutions, output, task, 0, hole, map)
}
