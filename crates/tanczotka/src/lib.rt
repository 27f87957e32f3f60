// The program: a problem file on standard input is read whole, then its lines are written; what it answers is the exit status, unless closing
// standard output fails after it.
#![tactic(auto)]

ghost use Rattle.std.specs.Prelude.{ℕ, ◌≤◌, IfOk, length};
ghost use Rattle.std.specs.Fn.{AlwaysReturns};
ghost use Rattle.tanczotka.specs.Gathering.{Gathers, half};

use lines::{Begun, begin, line};
use std::io;
use std::io::{Error, ErrorKind, Read, Stderr, Stdin, Stdout, Write};

// The exit statuses, which the entry in C returns: everything was printed; standard input could not be read; standard output could not be written.
const PRINTED: i32 = 0;

const NOT_READ: i32 = 3;

const NOT_WRITTEN: i32 = 4;

// A call that was interrupted is made again, at most so often.
const CALLS: u32 = 1000000;

// What a call that moves bytes answers, made again where it was interrupted.
fn uninterrupted<F: FnMut() -> io::Result<usize>>(mut call: F) -> io::Result<usize>
    requires { F.IsAlwaysCallable call }
    ensures { (most : ℕ) → AlwaysReturns F.FnMut (λ _ moved. IfOk moved (λ count. count ≤ most)) call → IfOk result (λ count. count ≤ most) }
{
    for _ in 0..CALLS {
        match call() {
            Err(why) if why.kind() == ErrorKind::Interrupted => {}
            moved => return moved,
        }
    }
    Err(Error::from(ErrorKind::Interrupted))
}

// Some bytes of the input, none at its end.
fn read_some<R: Read>(input: &mut R, bytes: &mut [u8]) -> io::Result<usize>
    ensures { IfOk result (λ count. count ≤ length bytes.old) }
{
    uninterrupted(|| input.read(bytes))
}

// Some of the bytes to the output.
fn write_some<W: Write>(out: &mut W, bytes: &[u8]) -> io::Result<usize>
    ensures { IfOk result (λ count. count ≤ length bytes.now) }
{
    uninterrupted(|| out.write(bytes))
}

// The input up to its end, or until the bytes are full; how many were read. `read_to_end` of the library would put them on the heap, and
// `read_exact` does not say how many there were.
fn read_all<R: Read>(input: &mut R, bytes: &mut [u8]) -> io::Result<usize>
    ensures { IfOk result (λ size. size ≤ length bytes.old) }
{
    let mut done = 0;
    while done < bytes.len() {
        match read_some(input, &mut bytes[done..])? {
            0 => return Ok(done),
            count => done += count,
        }
    }
    Ok(done)
}

// All of the bytes to the output; an error where a write failed or took nothing. `write_all` of the library has another message for that, and
// makes a call again without this limit.
fn write_all<W: Write>(out: &mut W, bytes: &[u8]) -> io::Result<()> {
    let mut rest = bytes;
    while !rest.is_empty() {
        match write_some(out, rest)? {
            0 => return Err(Error::from(ErrorKind::WriteZero)),
            count => rest = &rest[count..],
        }
    }
    Ok(())
}

// Text that was gathered is written once there are more than 65,536 bytes of it; how many are gathered then.
fn write_gathered<W: Write>(out: &mut W, text: &[u8], end: usize) -> io::Result<usize>
    requires { end ≤ length text.now }
    ensures { IfOk result (λ gathered. gathered ≤ half) }
{
    if end <= 65536 {
        return Ok(end);
    }
    write_all(out, &text[..end])?;
    Ok(0)
}

// The lines, gathered in a buffer; an error where one could not be written.
fn write_lines<W: Write>(
    out: &mut W,
    begun: Begun,
    table: &[u32],
    solutions: &[u32],
    holes: &[u16],
    output: &mut [u32],
    text: &mut [u8],
) -> io::Result<()>
    requires { Gathers begun table.now solutions.now holes.now output.old text.old 0 }
{
    let mut end = 0;
    for i in 0..=begun.holes {
        let made = line(&mut text[end..], i, begun, table, solutions, holes, output);
        end = write_gathered(out, text, end + made)?;
    }
    write_all(out, &text[..end])
}

// The lines of a file, with R = 4,096, C = 1,024 and an output of 4,096 records. The output is flushed after them, since a write may fail as
// late as that.
fn print<W: Write>(out: &mut W, file: &[u8]) -> io::Result<()> {
    let mut table = [0u32; 16384];
    let mut solutions = [0u32; 4096];
    let mut queue = [0u32; 2048];
    let mut holes = [0u16; 4096];
    let begun = begin(file, &mut table, &mut solutions, &mut queue, &mut holes);
    let mut output = [0u32; 16384];
    let mut text = [0u8; 131072];
    write_lines(
        out,
        begun,
        &table,
        &solutions,
        &holes,
        &mut output,
        &mut text,
    )?;
    out.flush()
}

// The program. A file of 28,673 bytes is as long as any that is refused for its length.
#[unsafe(no_mangle)]
pub extern "C" fn tanczotka_program(mut input: Stdin, mut out: Stdout, said: Stderr) -> i32 {
    let mut file = [0u8; 28673];
    let size = match read_all(&mut input, &mut file) {
        Ok(size) => size,
        Err(why) => {
            let _ = eprintln!(said; "tanczotka: standard input could not be read: {why}");
            return NOT_READ;
        }
    };
    match print(&mut out, &file[..size]) {
        Ok(()) => PRINTED,
        Err(why) => {
            let _ = eprintln!(said; "tanczotka: standard output could not be written: {why}");
            NOT_WRITTEN
        }
    }
}
