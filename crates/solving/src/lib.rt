// Solving for what is asked: the refusals in their order, which write nothing, and otherwise the machine.
#![tactic(auto)]

ghost use Rattle.solving.specs.Checking.{Inside, AskedLeaves};

use checks::{out_of_room, refuse, refusing, room_of};
use machine::machine;
use records::Notes;
use rules::{Refused, Reply};
use store::Part;

// Answers 5, 10, 6 and 7, which write nothing, with notes for at most N records; otherwise the machine runs with the equations that were noted.
fn check_and_solve<const N: usize>(
    table: &mut [u32],
    n: u32,
    solutions: &mut [u32],
    queue: &mut [u32],
    asked: Option<usize>,
) -> Reply
    requires { Inside N table.old solutions.old n }
    ensures { AskedLeaves asked table.old solutions.old queue.old n table.new solutions.new queue.new result }
{
    let mut notes = Notes::<N>::blank();
    match refuse(table, &mut notes, n, asked) {
        Ok(count) => {
            let part = Part {
                n,
                room: room_of(table),
            };
            machine(table, solutions, queue, &notes.equations[..count], part)
        }
        Err(refused) => refusing(refused),
    }
}

// Solving for what is asked. Answer 4 writes nothing; otherwise notes of one of two sizes: small problems clear small notes.
pub fn solve_asked(
    table: &mut [u32],
    n: usize,
    solutions: &mut [u32],
    queue: &mut [u32],
    asked: Option<usize>,
) -> Reply
    ensures { AskedLeaves asked table.old solutions.old queue.old n table.new solutions.new queue.new result }
{
    if out_of_room(table, solutions, n) {
        return refusing(Refused::NoRoom);
    }
    if n <= 256 {
        return check_and_solve::<256>(table, n as u32, solutions, queue, asked);
    }
    check_and_solve::<4096>(table, n as u32, solutions, queue, asked)
}
