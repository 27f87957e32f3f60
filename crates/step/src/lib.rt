// A step of the machine for the pair taken: step 1 for the left side, then for the right side, then steps 2 to 5.
#![tactic(auto)]

ghost use Rattle.std.specs.Prelude.{◌≡◌};
ghost use Rattle.rules.specs.Machine.{meet as meet_of, step as step_of};
ghost use Rattle.queue.specs.Ring.{view};
ghost use Rattle.step.specs.Said.{Steps};
ghost use Rattle.step.specs.Expand.{head_solution, Heading, Expanding, Expands};
ghost use Rattle.step.specs.Meets.{Terms, MeetsAs};
ghost use Rattle.step.specs.Same.{Occurrences, Agreed, SameReady, SameDone};
ghost use Rattle.step.specs.Stand.{Stood};

use narrow::narrow;
use places::Map;
use queue::{Pair, Ring};
use rules::Failure;
use store::{Part, Written, solution_of};
use table::{HA, Hole, LA, read};
use walk::{assign, copy_solution};

// What a step answers: go on with a pair, or done with it.
#[derive(Clone, Copy)]
pub enum Step {
    On { pair: Pair, used: u32 },
    Done { ring: Ring, used: u32 },
}

// What two heads that are no solved holes ask for: steps 2, 3, 4, 5 for a side that a hole heads, or a clash.
#[derive(Clone, Copy)]
enum Meeting {
    Bodies(Pair),
    Arguments(Pair),
    SameHole,
    Solve { side: u32, other: u32 },
    Clash,
}

// The record of the solution of a side's head, if the head is a solved hole.
fn head_solution(table: &[u32], solutions: &[u32], at: u32) -> Option<u32>
    requires { Heading table.now solutions.now at }
    ensures { head_solution table.now solutions.now at ≡ result }
{
    let rec = read(table, at);
    if rec.tag != HA {
        return None;
    }
    solution_of(solutions, Hole(rec.a))
}

// Step 1: while the side's head is a solved hole, the side is replaced by a copy of the solution. It is put in at both its calls, since
// most heads are no solved holes ("equal rigid trees" large: 1.16 of the plain version so, 1.61 with calls).
#[inline(always)]
pub fn expand(
    table: &mut [u32],
    solutions: &mut [u32],
    part: Part,
    used: u32,
    at: u32,
) -> Result<Written, Failure>
    requires { Expanding part.room part.n table.old solutions.old used at }
    ensures { Expands part.room part.n table.old solutions.old used at table.new solutions.new result }
{
    let mut side = Written { root: at, used };
    while let Some(solution) = head_solution(table, solutions, side.root) {
        side = copy_solution(table, solutions, part, side.used, side.root, solution)?;
    }
    Ok(side)
}

// Which of the steps 2 to 5 two sides ask for.
fn meets(table: &[u32], pair: Pair) -> Meeting
    requires { Terms table.now pair.left pair.right }
    ensures { MeetsAs table.now pair.left pair.right result }
{
    let one = read(table, pair.left);
    let two = read(table, pair.right);
    if one.tag == LA && two.tag == LA {
        return Meeting::Bodies(Pair {
            left: one.a,
            right: two.a,
        });
    }
    if one.tag == two.tag && one.a == two.a {
        if one.tag == HA {
            return Meeting::SameHole;
        }
        return Meeting::Arguments(Pair {
            left: one.b,
            right: two.b,
        });
    }
    if one.tag == HA {
        return Meeting::Solve {
            side: pair.left,
            other: pair.right,
        };
    }
    if two.tag == HA {
        return Meeting::Solve {
            side: pair.right,
            other: pair.left,
        };
    }
    Meeting::Clash
}

// The positions at which the arguments of two occurrences agree.
fn agreement(table: &[u32], pair: Pair) -> Map
    requires { Occurrences table.now pair.left pair.right }
    ensures { Agreed table.now pair.left pair.right result }
{
    let one = read(table, pair.left);
    let two = read(table, pair.right);
    Map::agreeing(table, one.b, two.b)
}

// Step 4: if all arguments agree, done; otherwise the hole is narrowed to the agreeing positions. The records used then.
fn same_hole(
    table: &mut [u32],
    solutions: &mut [u32],
    part: Part,
    used: u32,
    pair: Pair,
) -> Result<u32, Failure>
    requires { SameReady part.room part.n table.old solutions.old used pair.left pair.right }
    ensures { SameDone part.room pair.left pair.right table.old solutions.old used table.new solutions.new result }
{
    let kept = agreement(table, pair);
    if kept.all_placed() {
        return Ok(used);
    }
    let one = read(table, pair.left);
    let new = narrow(table, solutions, part, used, Hole(one.a), kept)?;
    Ok(new.used)
}

// Steps 2 to 5, for two sides whose heads are no solved holes.
fn meet(
    table: &mut [u32],
    solutions: &mut [u32],
    queue: &mut [u32],
    part: Part,
    used: u32,
    ring: Ring,
    pair: Pair,
) -> Result<Step, Failure>
    requires { Stood part.room part.n table.old solutions.old used queue.old ring pair.left pair.right }
    ensures { Steps ring.cap (meet_of part.room ring.cap (view queue.old ring) pair.left pair.right) table.old solutions.old used queue.old table.new solutions.new queue.new result }
{
    match meets(table, pair) {
        Meeting::Bodies(bodies) => Ok(Step::On { pair: bodies, used }),
        Meeting::Arguments(lists) => {
            let more = ring.join_pairs(table, queue, lists)?;
            Ok(Step::Done { ring: more, used })
        }
        Meeting::SameHole => {
            let then = same_hole(table, solutions, part, used, pair)?;
            Ok(Step::Done { ring, used: then })
        }
        Meeting::Solve { side, other } => {
            let walked = assign(table, solutions, part, used, side, other)?;
            Ok(Step::Done {
                ring,
                used: walked.used,
            })
        }
        Meeting::Clash => Err(Failure::Clash),
    }
}

// A step for the pair taken, while the pairs of the ring wait.
pub fn take_step(
    table: &mut [u32],
    solutions: &mut [u32],
    queue: &mut [u32],
    part: Part,
    used: u32,
    ring: Ring,
    pair: Pair,
) -> Result<Step, Failure>
    requires { Stood part.room part.n table.old solutions.old used queue.old ring pair.left pair.right }
    ensures { Steps ring.cap (step_of part.room ring.cap (view queue.old ring) pair.left pair.right) table.old solutions.old used queue.old table.new solutions.new queue.new result }
{
    let one = expand(table, solutions, part, used, pair.left)?;
    let two = expand(table, solutions, part, one.used, pair.right)?;
    let sides = Pair {
        left: one.root,
        right: two.root,
    };
    meet(table, solutions, queue, part, two.used, ring, sides)
}
