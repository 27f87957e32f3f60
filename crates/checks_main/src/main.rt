// Runs the checks on stored problems: from standard input, each as n, the number of words and the words, all u32 little-endian; a line
// `answer place` for each, 0 0 where it is admitted.
#![tactic(auto)]

ghost use Rattle.std.specs.Prelude.{◌*◌, ◌≤◌, length};

use checks::check;
use std::io::{Read, Write};
use stored::{Stopped, fill, read_head, read_words, take_problems, word};

// One line; what can not be written is left out.
fn print<W: Write>(out: &mut W, answer: u32, place: u32) {
    let _ = writeln!(out, "{answer} {place}");
}

// The words that the bytes hold are checked and answered.
fn check_words<W: Write>(out: &mut W, bytes: &[u8], n: usize, words: &mut [u32])
    requires { 4 * length words.old ≤ length bytes.now }
{
    fill(bytes, 0, words);
    let reply = check(words, n);
    print(out, reply.answer, reply.place);
}

// One problem is read and answered; false at the end of the input.
fn problem<R: Read, W: Write>(input: &mut R, out: &mut W) -> Result<bool, Stopped> {
    let mut head = [0u8; 8];
    if !read_head(input, &mut head)? {
        return Ok(false);
    }
    let n = word(&head, 0) as usize;
    let count = word(&head, 1) as usize;
    let mut bytes = [0u8; 80000];
    read_words(input, &mut bytes, count)?;
    let mut words = [0u32; 20000];
    check_words(out, &bytes, n, &mut words[..count]);
    Ok(true)
}

fn main(rt: HostRuntime) {
    take_problems(&mut rt.stdin(), &mut rt.stdout(), problem);
}
