// Solving, and showing one hole's answer: the public functions over lent words.
#![tactic(auto)]

ghost use Rattle.std.specs.Prelude.{◌≡◌};
ghost use Rattle.rules.specs.Solve.{solve as solveOf};
ghost use Rattle.rules.specs.Show.{show as showOf};
ghost use Rattle.solver.specs.Answering.{Answerable, Writes};

use checks::room_of;
use rules::Reply;
use show::answer;
use solving::solve_asked;
use store::fill;
use table::{Hole, reply};

// Solving the first n records of a table, with solution and queue words.
pub fn solve(table: &mut [u32], n: usize, solutions: &mut [u32], queue: &mut [u32]) -> Reply
    ensures { solveOf table.old solutions.old queue.old n ≡ record { table = table.new; solutions = solutions.new; queue = queue.new; said = result } }
{
    solve_asked(table, n, solutions, queue, None)
}

// The answer of an input hole after solving, in an output whose counted records are cleared first; too few of them are left zero.
pub fn write_answer(table: &[u32], solutions: &[u32], output: &mut [u32], hole: Hole) -> Reply
    requires { Answerable table.now solutions.now hole.0 }
    ensures { Writes table.now solutions.now hole.0 output.old output.new result }
{
    let room = room_of(output);
    let words = 4 * (room as usize);
    fill(output, 0, words, 0);
    match answer(table, solutions, output, room, hole) {
        Ok(written) => Reply {
            answer: 0,
            place: 0,
            used: written.used,
        },
        Err(_) => {
            fill(output, 0, words, 0);
            reply(11, 0)
        }
    }
}

// Showing record `hole` of the first n records: solves, then writes its answer into the output.
pub fn show(
    table: &mut [u32],
    n: usize,
    solutions: &mut [u32],
    queue: &mut [u32],
    hole: usize,
    output: &mut [u32],
) -> Reply
    ensures { showOf table.old solutions.old queue.old output.old n hole ≡ record { behind = record { table = table.new; solutions = solutions.new; queue = queue.new; said = result }; output = output.new } }
{
    let reply = solve_asked(table, n, solutions, queue, Some(hole));
    if reply.answer != 0 {
        return reply;
    }
    write_answer(table, solutions, output, Hole(hole as u32))
}
