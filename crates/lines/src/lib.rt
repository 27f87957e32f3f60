// The program's text: a file is read and solved once, and then each line is made in a lent buffer.
#![tactic(auto)]

ghost use Rattle.std.specs.Prelude.{◌≤◌, length};
ghost use Rattle.rules.specs.Answers.{reply};
ghost use Rattle.rules.specs.Text.{reply_line};
ghost use Rattle.lines.specs.Holes.{Notable, Holes};
ghost use Rattle.lines.specs.Lines.{Blank, Lines};
ghost use Rattle.lines.specs.Making.{longest, Stands, Makes, Made};

use file::read;
use records::note;
use rules::Reply;
use solver::{solve, write_answer};
use table::{HO, Hole};
use text::{hole_line, reply_line};

// What the lines are made from besides the words left: the first line's reply, and how many holes have a line after it.
#[derive(Clone, Copy)]
pub struct Begun {
    pub reply: Reply,
    pub holes: u32,
}

// The input holes are noted in order; how many there are.
fn note_holes(table: &[u32], holes: &mut [u16], n: u32) -> u32
    requires { Notable table.now holes.old n }
    ensures { Holes table.now holes.new result n }
{
    let mut count = 0;
    for r in 0..n {
        count = note(table, holes, count, r, HO);
    }
    count as u32
}

// A file is read and solved, with the room that the program has; its input holes are noted.
pub fn begin(
    file: &[u8],
    table: &mut [u32],
    solutions: &mut [u32],
    queue: &mut [u32],
    holes: &mut [u16],
) -> Begun
    requires { Blank table.old solutions.old queue.old holes.old }
    ensures { Lines file.now table.new solutions.new holes.new result }
{
    let given = read(file, table);
    if given.answer != 0 {
        return Begun {
            reply: given,
            holes: 0,
        };
    }
    let count = note_holes(table, holes, given.used);
    let reply = solve(table, given.used as usize, solutions, queue);
    if reply.answer != 0 {
        return Begun { reply, holes: 0 };
    }
    Begun {
        reply,
        holes: count,
    }
}

// The line of a reply's three numbers, each of which has at most ten digits: so the proof knows of a number that is passed, and not of the fields of
// a reply that is.
fn first_line(text: &mut [u8], answer: u32, place: u32, used: u32) -> usize
    requires { longest ≤ length text.old }
    ensures { Stands (reply_line (reply answer place used)) text.new result }
{
    reply_line(
        text,
        0,
        Reply {
            answer,
            place,
            used,
        },
    )
}

// Line i, counted from 0: the reply's, or that of a hole, whose answer is written from what solving left. How many bytes it has.
pub fn line(
    text: &mut [u8],
    i: u32,
    begun: Begun,
    table: &[u32],
    solutions: &[u32],
    holes: &[u16],
    output: &mut [u32],
) -> usize
    requires { Makes text.old i begun table.now solutions.now holes.now output.old }
    ensures { Made i begun table.now solutions.now holes.now text.new result }
{
    if i == 0 {
        let reply = begun.reply;
        return first_line(text, reply.answer, reply.place, reply.used);
    }
    let hole = Hole(holes[(i - 1) as usize] as u32);
    let said = write_answer(table, solutions, output, hole);
    hole_line(text, 0, hole, said, output)
}
