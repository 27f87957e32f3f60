// The C boundary: solving, showing, reading and writing under the C calling convention, each reply packed into one number.
#![tactic(auto)]

ghost use Rattle.std.specs.Prelude.{◌≡◌, ◌≤◌};
ghost use Rattle.rules.specs.Solve.{solve as solveOf};
ghost use Rattle.rules.specs.Show.{show as showOf};
ghost use Rattle.rules.specs.File.{read as read_of};
ghost use Rattle.rules.specs.FileWrite.{write as writeOf};
ghost use Rattle.tanczotka_c.specs.Packed.{packed, left_by_solve, left_by_show, left_by_read, left_by_write};

use file::read;
use rules::Reply;
use solver::{show, solve};
use write::write;

// Answer, place and used in 16-bit fields, lowest first; the fourth is 0. No `From`: that has no `requires`.
fn pack(reply: Reply) -> u64
    requires { reply.used ≤ 4096 }
    ensures { packed reply ≡ result }
{
    let answer = reply.answer as u64;
    let place = reply.place as u64;
    let used = reply.used as u64;
    answer + 65536 * place + 4294967296 * used
}

// Solving the first n records of a table.
#[unsafe(no_mangle)]
pub extern "C" fn tanczotka_solve(
    table: &mut [u32],
    n: usize,
    solutions: &mut [u32],
    queue: &mut [u32],
) -> u64
    ensures { left_by_solve (solveOf table.old solutions.old queue.old n) ≡ (table.new, solutions.new, queue.new, result) }
{
    let reply = solve(table, n, solutions, queue);
    pack(reply)
}

// Showing the answer of one input hole.
#[unsafe(no_mangle)]
pub extern "C" fn tanczotka_show(
    table: &mut [u32],
    n: usize,
    solutions: &mut [u32],
    queue: &mut [u32],
    hole: usize,
    output: &mut [u32],
) -> u64
    ensures { left_by_show (showOf table.old solutions.old queue.old output.old n hole) ≡ (table.new, solutions.new, queue.new, output.new, result) }
{
    let reply = show(table, n, solutions, queue, hole, output);
    pack(reply)
}

// Reading a problem file into a table.
#[unsafe(no_mangle)]
pub extern "C" fn tanczotka_read(file: &[u8], table: &mut [u32]) -> u64
    ensures { left_by_read (read_of file.now table.old) ≡ (table.new, result) }
{
    let reply = read(file, table);
    pack(reply)
}

// Writing the first n records of a table to a problem file.
#[unsafe(no_mangle)]
pub extern "C" fn tanczotka_write(table: &[u32], n: usize, file: &mut [u8]) -> u64
    ensures { left_by_write (writeOf table.now n file.old) ≡ (file.new, result) }
{
    let reply = write(table, n, file);
    pack(reply)
}
