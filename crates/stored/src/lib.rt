// Stored problems as programs read them, and lines of numbers as they print them; why a program stops is said in a line of its own.
#![tactic(auto)]

ghost use Rattle.std.specs.Prelude.{◌+◌, ◌*◌, ◌<◌, ◌≤◌, OnOk, is_ok, leb, length, ◌∷◌, ◌≡◌};
ghost use Rattle.rules.specs.File.{word as word_of};
ghost use Rattle.rules.specs.Text.{decimal, reply_line};
ghost use Rattle.text.specs.Written.{written};
ghost use Rattle.stored.specs.Words.{words_from};
ghost use Rattle.stored.specs.Lines.{words_line, kept};

use rules::Reply;
use std::fmt;
use std::fmt::{Display, Formatter};
use std::io::{Read, Write};

// The most problems that a program takes.
pub const PROBLEMS: u32 = 1000000;

// Why a program stops.
#[derive(Clone, Copy)]
pub enum Stopped {
    CutOff,
    NotRead,
    WordsWithoutRoom,
    MoreProblems,
    LongLine,
    UnknownKind,
}

impl Stopped {
    // The reason in words.
    fn text(self) -> &'static str {
        match self {
            Stopped::CutOff => "the input is cut off",
            Stopped::NotRead => "the input could not be read",
            Stopped::WordsWithoutRoom => "a problem has more words than there is room for",
            Stopped::MoreProblems => "more than 1,000,000 problems",
            Stopped::LongLine => "a line is longer than the buffer",
            Stopped::UnknownKind => "an unknown kind of problem",
        }
    }
}

impl Display for Stopped {
    fn fmt<W: fmt::Write>(&self, f: &mut Formatter<W>) -> fmt::Result {
        f.write_str(self.text())
    }
}

// The bytes to where a program prints; what can not be written is left out.
fn put_all<W: Write>(out: &mut W, bytes: &[u8]) {
    let _ = out.write_all(bytes);
}

// A line that says why the program stops; where a part can not be written, the others are still tried.
pub fn stop<W: Write>(out: &mut W, why: &[u8]) {
    put_all(out, b"stopped: ");
    put_all(out, why);
    put_all(out, b"\n");
}

// Some bytes of the input; none at its end or where a read fails.
fn read_some<R: Read>(input: &mut R, bytes: &mut [u8]) -> usize
    ensures { result ≤ length bytes.new }
{
    input.read(bytes).unwrap_or(0)
}

// Reads until the bytes are full, the input ends or a read fails; how many were read.
fn read_full<R: Read>(input: &mut R, bytes: &mut [u8]) -> usize
    ensures { result ≤ length bytes.new }
{
    let mut done = 0;
    while done < bytes.len() {
        match read_some(input, &mut bytes[done..]) {
            0 => return done,
            count => done += count,
        }
    }
    done
}

// Whether all of so many bytes were read.
fn whole(got: usize, size: usize) -> Result<(), Stopped> {
    if got < size {
        return Err(Stopped::CutOff);
    }
    Ok(())
}

// The first bytes of a problem; false at the end of the input, which a second read tells from a read that failed.
pub fn read_head<R: Read>(input: &mut R, bytes: &mut [u8]) -> Result<bool, Stopped> {
    let got = read_full(input, bytes);
    if 0 < got {
        whole(got, bytes.len())?;
        return Ok(true);
    }
    match input.read(bytes) {
        Ok(0) => Ok(false),
        _ => Err(Stopped::NotRead),
    }
}

// So many words as bytes.
pub fn read_words<R: Read>(input: &mut R, bytes: &mut [u8], count: usize) -> Result<(), Stopped>
    ensures { OnOk result (4 * count ≤ length bytes.old) }
{
    if bytes.len() / 4 < count {
        return Err(Stopped::WordsWithoutRoom);
    }
    let size = 4 * count;
    let got = read_full(input, &mut bytes[..size]);
    whole(got, size)
}

// The end of the input, after the last problem that a program takes.
pub fn expect_end<R: Read>(input: &mut R) -> Result<(), Stopped> {
    if read_head(input, &mut [0u8; 1])? {
        return Err(Stopped::MoreProblems);
    }
    Ok(())
}

// After the last problem that a program takes: what follows is said.
pub fn read_end<R: Read, W: Write>(input: &mut R, out: &mut W) {
    if let Err(why) = expect_end(input) {
        stop(out, why.text().as_bytes());
    }
}

// The whole of a program on stored problems: `take` reads one and prints what it answers to it, or answers false at the end of the input; where it
// stops, a last line says why.
pub fn take_problems<R: Read, W: Write, F: FnMut(&mut R, &mut W) -> Result<bool, Stopped>>(
    input: &mut R,
    out: &mut W,
    mut take: F,
)
    requires { F.IsAlwaysCallable take }
{
    for _ in 0..PROBLEMS {
        match take(input, out) {
            Ok(true) => {}
            Ok(false) => return,
            Err(why) => return stop(out, why.text().as_bytes()),
        }
    }
    read_end(input, out);
}

// Word i of a text of bytes.
pub fn word(bytes: &[u8], i: usize) -> u32
    requires { 4 * i + 3 < length bytes.now }
    ensures { word_of bytes.now (4 * i) ≡ result }
{
    file::word_at(bytes, 4 * i)
}

// The words of a slice from bytes, from word `first` on; the number of the next word.
pub fn fill(bytes: &[u8], first: usize, words: &mut [u32]) -> usize
    requires { 4 * (first + length words.old) ≤ length bytes.now }
    ensures { (words_from bytes.now first (length words.old) ≡ words.new) × (result ≡ first + length words.old) }
{
    for (i, x) in words.iter_mut().enumerate() {
        *x = word(bytes, first + i);
    }
    first + words.len()
}

// A word after a space.
fn spaced_word(line: &mut [u8], at: usize, x: u32) -> usize
    ensures { written at (32 ∷ decimal x) line.old ≡ (line.new, result) }
{
    let next = text::put(line, at, b' ');
    text::decimal(line, next, x)
}

// The words, each after a space, and a newline.
fn words_line(line: &mut [u8], at: usize, words: &[u32]) -> usize
    ensures { written at (words_line words.now) line.old ≡ (line.new, result) }
{
    let mut end = at;
    for &x in words {
        end = spaced_word(line, end, x);
    }
    text::put(line, end, b'\n')
}

// A name and the first bytes of a buffer.
fn print_line<W: Write>(out: &mut W, name: &[u8], line: &[u8], end: usize) -> Result<(), Stopped>
    ensures { leb end (length line.now) ≡ is_ok result }
{
    let text = line.get(..end).ok_or(Stopped::LongLine)?;
    put_all(out, name);
    put_all(out, text);
    Ok(())
}

// A line: a name and the words, each after a space.
pub fn print_words<W: Write>(
    out: &mut W,
    line: &mut [u8],
    name: &[u8],
    words: &[u32],
) -> Result<(), Stopped>
    ensures { kept (words_line words.now) line.old ≡ (line.new, is_ok result) }
{
    let end = words_line(line, 0, words);
    print_line(out, name, line, end)
}

// A line: a name, then answer, place and used, each after a space.
pub fn print_reply<W: Write>(
    out: &mut W,
    line: &mut [u8],
    name: &[u8],
    reply: Reply,
) -> Result<(), Stopped>
    ensures { kept (32 ∷ reply_line reply) line.old ≡ (line.new, is_ok result) }
{
    let start = text::put(line, 0, b' ');
    let end = text::reply_line(line, start, reply);
    print_line(out, name, line, end)
}
