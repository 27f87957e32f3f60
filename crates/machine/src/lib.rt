// The machine on an admitted input: the table is cleared, all equations enter the queue, pairs are taken until none waits; the reply, and what
// is left behind.
#![tactic(auto)]

ghost use Rattle.std.specs.Prelude.{◌≡◌, ◌∷◌};
ghost use Rattle.rules.specs.Answers.{number, pairs};
ghost use Rattle.rules.specs.Machine.{machine as machine_of};
ghost use Rattle.rules.specs.Solve.{admitted};
ghost use Rattle.store.specs.Said.{store};
ghost use Rattle.store.specs.Clearing.{Clearing};
ghost use Rattle.queue.specs.Ring.{view, waiting};
ghost use Rattle.step.specs.Stand.{Stood};
ghost use Rattle.machine.specs.Run.{ended, Runs};
ghost use Rattle.machine.specs.Start.{Started};
ghost use Rattle.machine.specs.Leaving.{Admits, Fails, LeftBehind};

use queue::{Pair, Ring};
use rules::{Failure, Reply};
use step::{Step, take_step};
use store::{Part, clear, fill, first_unused};
use table::reply;

// The pair in hand, and then those that wait, first in, first out, until none is left. The records used, or the failure.
fn run(
    table: &mut [u32],
    solutions: &mut [u32],
    queue: &mut [u32],
    part: Part,
    mut ring: Ring,
    mut pair: Pair,
) -> Result<u32, Failure>
    requires { Stood part.room part.n table.old solutions.old part.n queue.old ring pair.left pair.right }
    ensures { Runs part.room ring.cap (waiting pair ∷ view queue.old ring) table.old solutions.old part.n table.new solutions.new result }
{
    let mut used = part.n;
    'turns: loop {
        match take_step(table, solutions, queue, part, used, ring, pair)? {
            Step::On {
                pair: bodies,
                used: then,
            } => {
                pair = bodies;
                used = then;
            }
            Step::Done {
                ring: left,
                used: then,
            } => {
                if left.count == 0 {
                    return Ok(then);
                }
                pair = left.first(queue);
                ring = left.leave();
                used = then;
            }
        }
    }
}

// All equations enter the queue, as they were noted, and the first is taken in hand, on a table and solutions as they stand at the start.
fn start(
    table: &mut [u32],
    solutions: &mut [u32],
    queue: &mut [u32],
    equations: &[u16],
    part: Part,
    cap: usize,
) -> Result<u32, Failure>
    requires { Started part.room part.n table.old solutions.old queue.old cap equations.now }
    ensures { machine_of part.room cap part.n (store table.old solutions.old part.n) ≡ ended table.new solutions.new result }
{
    let ring = Ring::enter_equations(table, queue, cap, equations)?;
    if ring.count == 0 {
        return Ok(part.n);
    }
    let pair = ring.first(queue);
    run(table, solutions, queue, part, ring.leave(), pair)
}

// C: the length divided by 2, rounded down, at most 1,024. R is the like in `checks`: one expression each, plainer than a parameter for its numbers.
fn pairs_of(queue: &[u32]) -> usize
    ensures { pairs queue.now ≡ result }
{
    (queue.len() / 2).min(1024)
}

// This paper's number of each failure of the machine.
fn number_of(failure: Failure) -> u32
    ensures { number failure ≡ result }
{
    match failure {
        Failure::Clash => 1,
        Failure::Escape => 2,
        Failure::Occurs => 3,
        Failure::QueueFull => 8,
        Failure::TableFull => 9,
    }
}

// A failure leaves table and solutions cleared: past the records written they still are. It has a function, as `number_of` has, since
// both types are of a crate that has none, and an impl elsewhere would be an orphan.
fn reply_to_failure(table: &mut [u32], solutions: &mut [u32], part: Part, failure: Failure) -> Reply
    requires { Clearing part.n part.room table.old solutions.old }
    ensures { Fails part.n part.room failure table.old solutions.old table.new solutions.new result }
{
    let written = Part {
        room: first_unused(table, part),
        ..part
    };
    clear(table, solutions, written);
    reply(number_of(failure), 0)
}

// The machine runs from a cleared table, with the first C pairs of the queue lent on, which are emptied at its end.
pub fn machine(
    table: &mut [u32],
    solutions: &mut [u32],
    queue: &mut [u32],
    equations: &[u16],
    part: Part,
) -> Reply
    requires { Admits part.room part.n table.old solutions.old equations.now }
    ensures { LeftBehind admitted table.old solutions.old queue.old part.n table.new solutions.new queue.new result }
{
    let cap = pairs_of(queue);
    let end = 2 * cap;
    clear(table, solutions, part);
    let outcome = start(table, solutions, &mut queue[..end], equations, part, cap);
    fill(queue, 0, end, 0);
    match outcome {
        Ok(records) => Reply {
            answer: 0,
            place: 0,
            used: records,
        },
        Err(failure) => reply_to_failure(table, solutions, part, failure),
    }
}
