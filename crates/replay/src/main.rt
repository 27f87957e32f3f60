// Replays stored problems: each is read from standard input, as `independent replay-in` writes it, and the replies and every word that
// solve, show, read and write leave are printed.
#![tactic(auto)]

ghost use Rattle.std.specs.Prelude.{◌+◌, ◌*◌, ◌≤◌, length, ◌≡◌};

use rules::Reply;
use std::io::{Read, Write};
use stored::{Stopped, fill, print_reply, print_words, read_head, read_words, take_problems, word};

// The words of a problem from its bytes; the number of the next word.
fn start(bytes: &[u8], table: &mut [u32], solutions: &mut [u32], queue: &mut [u32]) -> usize
    requires { 4 * (length table.old + length solutions.old + length queue.old) ≤ length bytes.now }
    ensures { result ≡ length table.old + length solutions.old + length queue.old }
{
    let second = fill(bytes, 0, table);
    let third = fill(bytes, second, solutions);
    fill(bytes, third, queue)
}

// A line of words. It and the next each say the size of a line's buffer once; one form of both would be longer than either. This
// buffer has a frame of its own: with one in each caller a problem of the first kind needs 1,000 KB of stack, and so 736.
#[inline(never)]
fn print<W: Write>(out: &mut W, name: &[u8], words: &[u32]) -> Result<(), Stopped> {
    print_words(out, &mut [0u8; 270000], name, words)
}

// The line of a reply.
fn print_said<W: Write>(out: &mut W, name: &[u8], reply: Reply) -> Result<(), Stopped> {
    print_reply(out, &mut [0u8; 64], name, reply)
}

// What solve or show replies, and the words that it leaves.
fn print_left<W: Write>(
    out: &mut W,
    name: &[u8],
    reply: Reply,
    table: &[u32],
    solutions: &[u32],
    queue: &[u32],
) -> Result<(), Stopped> {
    print_said(out, name, reply)?;
    print(out, b"table", table)?;
    print(out, b"solutions", solutions)?;
    print(out, b"queue", queue)
}

// A problem is solved.
fn solve<W: Write>(
    out: &mut W,
    bytes: &[u8],
    n: usize,
    table: &mut [u32],
    solutions: &mut [u32],
    queue: &mut [u32],
) -> Result<(), Stopped>
    requires { 4 * (length table.old + length solutions.old + length queue.old) ≤ length bytes.now }
{
    start(bytes, table, solutions, queue);
    let reply = solver::solve(table, n, solutions, queue);
    print_left(out, b"solve", reply, table, solutions, queue)
}

// A hole of a problem is shown.
fn show<W: Write>(
    out: &mut W,
    bytes: &[u8],
    n: usize,
    hole: usize,
    table: &mut [u32],
    solutions: &mut [u32],
    queue: &mut [u32],
    output: &mut [u32],
) -> Result<(), Stopped>
    requires { 4 * (length table.old + length solutions.old + length queue.old + length output.old) ≤ length bytes.now }
{
    let last = start(bytes, table, solutions, queue);
    fill(bytes, last, output);
    let reply = solver::show(table, n, solutions, queue, hole, output);
    print_left(out, b"show", reply, table, solutions, queue)?;
    print(out, b"output", output)
}

// A problem of the first kind: n, a hole, and how many words the table, the solutions, the queue and the output have, then these words. It is
// solved and then, from the words before, the hole is shown.
fn problem<R: Read, W: Write>(input: &mut R, out: &mut W) -> Result<(), Stopped> {
    let mut head = [0u8; 24];
    read_words(input, &mut head, 6)?;
    let n = word(&head, 0) as usize;
    let hole = word(&head, 1) as usize;
    let t = word(&head, 2) as usize;
    let s = word(&head, 3) as usize;
    let q = word(&head, 4) as usize;
    let o = word(&head, 5) as usize;
    let count = t + s + q + o;
    let mut bytes = [0u8; 96000];
    read_words(input, &mut bytes, count)?;
    let table = &mut [0u32; 24000][..t];
    let solutions = &mut [0u32; 24000][..s];
    let queue = &mut [0u32; 24000][..q];
    let output = &mut [0u32; 24000][..o];
    solve(out, &bytes, n, table, solutions, queue)?;
    show(out, &bytes, n, hole, table, solutions, queue, output)
}

// A file, the first f of the bytes, is read into a table, whose words stand from word `first` on.
fn read<W: Write>(
    out: &mut W,
    bytes: &[u8],
    f: usize,
    first: usize,
    table: &mut [u32],
) -> Result<(), Stopped>
    requires { (f ≤ length bytes.now) × (4 * (first + length table.old) ≤ length bytes.now) }
{
    fill(bytes, first, table);
    let reply = file::read(&bytes[..f], table);
    print_said(out, b"read", reply)?;
    print(out, b"table", table)
}

// A problem of the second kind: how many bytes a file and how many words a table has, then the file, in so many words, and the table.
fn file_problem<R: Read, W: Write>(input: &mut R, out: &mut W) -> Result<(), Stopped> {
    let mut head = [0u8; 8];
    read_words(input, &mut head, 2)?;
    let f = word(&head, 0) as usize;
    let t = word(&head, 1) as usize;
    let first = f.div_ceil(4);
    let count = first + t;
    let mut bytes = [0u8; 96000];
    read_words(input, &mut bytes, count)?;
    let mut table = [0u32; 24000];
    read(out, &bytes, f, first, &mut table[..t])
}

// The first n records of a table, whose words stand first, are written to a file of f bytes, which stand after them; the file is printed as words.
fn write<W: Write>(
    out: &mut W,
    bytes: &mut [u8],
    n: usize,
    f: usize,
    table: &mut [u32],
    file: &mut [u32],
) -> Result<(), Stopped>
    requires { (f ≤ 4 * length file.old) × (4 * (length table.old + length file.old) ≤ length bytes.old) }
{
    let first = fill(bytes, 0, table);
    let start = 4 * first;
    let end = start + f;
    let reply = write::write(table, n, &mut bytes[start..end]);
    fill(bytes, first, file);
    print_said(out, b"write", reply)?;
    print(out, b"file", file)
}

// A problem of the third kind: n, how many words the table and how many bytes the file has, then these words and bytes.
fn table_problem<R: Read, W: Write>(input: &mut R, out: &mut W) -> Result<(), Stopped> {
    let mut head = [0u8; 12];
    read_words(input, &mut head, 3)?;
    let n = word(&head, 0) as usize;
    let t = word(&head, 1) as usize;
    let f = word(&head, 2) as usize;
    let words = f.div_ceil(4);
    let count = t + words;
    let mut bytes = [0u8; 96000];
    read_words(input, &mut bytes, count)?;
    let mut table = [0u32; 24000];
    let mut file = [0u32; 24000];
    write(out, &mut bytes, n, f, &mut table[..t], &mut file[..words])
}

// One problem is replayed; false at the end of the input. Kinds are numbers in the input.
fn replay<R: Read, W: Write>(input: &mut R, out: &mut W) -> Result<bool, Stopped> {
    let mut kind = [0u8; 4];
    if !read_head(input, &mut kind)? {
        return Ok(false);
    }
    match word(&kind, 0) {
        1 => problem(input, out)?,
        2 => file_problem(input, out)?,
        3 => table_problem(input, out)?,
        _ => return Err(Stopped::UnknownKind),
    }
    Ok(true)
}

fn main(rt: HostRuntime) {
    take_problems(&mut rt.stdin(), &mut rt.stdout(), replay);
}
