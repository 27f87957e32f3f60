// The order of refusals before the machine, 4, 5, 10, 6, 7, and the checks alone: whether a problem is a well-formed, well-typed pattern problem.
#![tactic(auto)]

ghost use Rattle.std.specs.Prelude.{◌≡◌, true, ◌*◌, ◌≤◌, length};
ghost use Rattle.rules.specs.Answers.{refusing as refusingOf, records};
ghost use Rattle.laws.specs.Members.{Legal};
ghost use Rattle.records.specs.Rows.{LentAsks, BrokenAsks};
ghost use Rattle.checks.specs.Refusing.{refusal_of, outside, asks, asking, sound, is_hole, AskedAsks, Settled};
ghost use Rattle.checks.specs.Order.{saying, checked};

use records::{Notes, lowest_broken};
use rules::{Refused, Reply};
use table::{HO, read, reply};
use typing::judge;

// The reply to each refusal: this paper's number, its place, and nothing used. It is no `From`: both types are of the crate of rules, which has no
// function.
pub fn refusing(refused: Refused) -> Reply
    ensures { refusingOf refused ≡ result }
{
    match refused {
        Refused::NoRoom => reply(4, 0),
        Refused::Broken(place) => reply(5, place),
        Refused::NoHole => reply(10, 0),
        Refused::IllTyped(place) => reply(6, place),
        Refused::NoPattern(place) => reply(7, place),
    }
}

// R: the length divided by 4, rounded down, at most 4,096.
pub fn room_of(words: &[u32]) -> u32
    ensures { records words.now ≡ result }
{
    (words.len() / 4).min(4096) as u32
}

// Answer 4: n is above R, or there are fewer than R words of solutions.
pub fn out_of_room(table: &[u32], solutions: &[u32], n: usize) -> bool
    ensures { result ≡ outside table.now solutions.now n }
{
    let room = room_of(table) as usize;
    room < n || solutions.len() < room
}

// Whether a record is an input hole.
fn is_hole(table: &[u32], n: u32, at: usize) -> bool
    requires { Legal table.now n }
    ensures { is_hole table.now n at ≡ result }
{
    at < n as usize && read(table, at as u32).tag == HO
}

// Answers 10, 6 and 7; what is asked for is solving, or the answer of a record.
fn refuse_asked(
    table: &[u32],
    stack: &mut [u16],
    equations: &[u16],
    n: u32,
    asked: Option<usize>,
) -> Result<(), Refused>
    requires { AskedAsks table.now stack.old equations.now n }
    ensures { asking (asks asked table.now n) table.now n ≡ refusal_of result }
{
    match asked {
        Some(at) if !is_hole(table, n, at) => Err(Refused::NoHole),
        _ => judge(table, stack, equations),
    }
}

// What comes before the machine: answers 5, 10, 6 and 7, in this order, or how many equations there are, which are noted. Where no record is
// broken, the marks have served, and those of the last types are lent on as the stack.
pub fn refuse_lent(
    table: &[u32],
    marks: &mut [u8],
    last: &mut [u16],
    before: &mut [u16],
    equations: &mut [u16],
    n: u32,
    asked: Option<usize>,
) -> Result<usize, Refused>
    requires { LentAsks table.now marks.old last.old before.old equations.old n }
    ensures { Settled table.now equations.new n (asks asked table.now n) result }
{
    let count = lowest_broken(table, marks, last, before, equations, n)?;
    refuse_asked(table, last, &equations[..count], n, asked)?;
    Ok(count)
}

// The same with notes.
pub fn refuse<const N: usize>(
    table: &[u32],
    notes: &mut Notes<N>,
    n: u32,
    asked: Option<usize>,
) -> Result<usize, Refused>
    requires { BrokenAsks table.now notes.old n }
    ensures { Settled table.now notes.new.equations n (asks asked table.now n) result }
{
    refuse_lent(
        table,
        &mut notes.marks,
        &mut notes.last,
        &mut notes.before,
        &mut notes.equations,
        n,
        asked,
    )
}

// The reply to what comes before the machine: 0 where nothing is refused.
fn reply_to(refusal: Result<usize, Refused>) -> Reply
    ensures { saying (refusal_of refusal) ≡ result }
{
    match refusal {
        Ok(_) => reply(0, 0),
        Err(refused) => refusing(refused),
    }
}

// Answers 5, 6 and 7, with notes for any number of records.
fn check_records(table: &[u32], n: u32) -> Reply
    requires { (n ≤ 4096) × (4 * n ≤ length table.now) }
    ensures { saying (sound true table.now n) ≡ result }
{
    let mut notes = Notes::<4096>::blank();
    reply_to(refuse(table, &mut notes, n, None))
}

// The first n records of a table are checked; nothing is written. A table has words enough to stand for those of solutions.
pub fn check(table: &[u32], n: usize) -> Reply
    ensures { checked table.now n ≡ result }
{
    if out_of_room(table, table, n) {
        return refusing(Refused::NoRoom);
    }
    check_records(table, n as u32)
}
