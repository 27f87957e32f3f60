// The printed notation, written into a lent buffer of bytes.
#![tactic(auto)]

ghost use Rattle.std.specs.Prelude.{◌≡◌, [], ◌∷◌};
ghost use Rattle.rules.specs.Lists.{enough};
ghost use Rattle.rules.specs.Text.{decimal as decimalOf, printed, reply_line};
ghost use Rattle.text.specs.Written.{written};
ghost use Rattle.text.specs.Printable.{Term, Terms, Answered};
ghost use Rattle.text.specs.Notation.{letter as letterOf, head_text, list_text, closing, number_text, start_text, answer_text, line_text};

use rules::Reply;
use table::Hole;

// A byte is written if it fits; the index past it is returned, at most the largest. `Display` would not say that: a full writer ends it with an
// error, and where the text would end stays unsaid. The buffer and its end are two parameters, and no struct, as the slices of the machine (`store`).
pub fn put(out: &mut [u8], at: usize, byte: u8) -> usize
    ensures { written at (byte ∷ []) out.old ≡ (out.new, result) }
{
    if at < out.len() {
        out[at] = byte;
    }
    at.saturating_add(1)
}

// A number in decimal.
pub fn decimal(out: &mut [u8], at: usize, x: u32) -> usize
    ensures { written at (decimalOf x) out.old ≡ (out.new, result) }
{
    if x < 10 {
        return put(out, at, (48 + x) as u8);
    }
    let last = decimal(out, at, x / 10);
    put(out, last, (48 + x % 10) as u8)
}

// `c`, `v` or `h`, by tag.
fn letter(tag: u32) -> u8
    ensures { result ≡ letterOf tag }
{
    match tag {
        table::CA => b'c',
        table::VA => b'v',
        _ => b'h',
    }
}

// A letter with its number.
fn head(out: &mut [u8], at: usize, tag: u32, number: u32) -> usize
    ensures { written at (head_text tag number) out.old ≡ (out.new, result) }
{
    let next = put(out, at, letter(tag));
    decimal(out, next, number)
}

// The closing bracket of a list that is not empty.
fn close_list(out: &mut [u8], at: usize, opened: u32) -> usize
    ensures { written at (closing opened) out.old ≡ (out.new, result) }
{
    if opened == table::NONE {
        return at;
    }
    put(out, at, b')')
}

// A term: `\` then body; a letter with its number, and arguments in round brackets.
#[cycle(arguments_term)]
fn term(out: &mut [u8], at: usize, words: &[u32], r: u32) -> usize
    requires { Term words.now r }
    ensures { written at (printed enough words.now r) out.old ≡ (out.new, result) }
{
    let record = table::read(words, r);
    if record.tag == table::LA {
        let body = put(out, at, b'\\');
        return term(out, body, words, record.a);
    }
    let open = head(out, at, record.tag, record.a);
    let end = arguments(out, open, words, record.b, b'(');
    close_list(out, end, record.b)
}

// Arguments parted by commas, with a byte in front of the first.
#[cycle(arguments_term)]
fn arguments(out: &mut [u8], at: usize, words: &[u32], list: u32, before: u8) -> usize
    requires { Terms words.now list }
    ensures { written at (list_text before words.now list) out.old ≡ (out.new, result) }
{
    if list == table::NONE {
        return at;
    }
    let cell = table::read(words, list);
    let first = put(out, at, before);
    let rest = term(out, first, words, cell.a);
    arguments(out, rest, words, cell.b, b',')
}

// A number in decimal and a byte after it.
fn number(out: &mut [u8], at: usize, x: u32, after: u8) -> usize
    ensures { written at (number_text x after) out.old ≡ (out.new, result) }
{
    let next = decimal(out, at, x);
    put(out, next, after)
}

// `answer place used` and a newline.
pub fn reply_line(out: &mut [u8], at: usize, reply: Reply) -> usize
    ensures { written at (reply_line reply) out.old ≡ (out.new, result) }
{
    let place = number(out, at, reply.answer, b' ');
    let used = number(out, place, reply.place, b' ');
    number(out, used, reply.used, b'\n')
}

// `h`, its number, ` = `.
fn start_hole(out: &mut [u8], at: usize, hole: Hole) -> usize
    ensures { written at (start_text hole.0) out.old ≡ (out.new, result) }
{
    let h = put(out, at, b'h');
    let space = number(out, h, hole.0, b' ');
    let equals = put(out, space, b'=');
    put(out, equals, b' ')
}

// What stands behind ` = `: the answer, whose head is the last output record; `?` for answer 11.
fn answer(out: &mut [u8], at: usize, said: Reply, output: &[u32]) -> usize
    requires { Answered said output.now }
    ensures { written at (answer_text said output.now) out.old ≡ (out.new, result) }
{
    if said.answer == 0 {
        return term(out, at, output, said.used - 1);
    }
    put(out, at, b'?')
}

// `h`, its number, ` = `, its answer and a newline.
pub fn hole_line(out: &mut [u8], at: usize, hole: Hole, said: Reply, output: &[u32]) -> usize
    requires { Answered said output.now }
    ensures { written at (line_text hole.0 said output.now) out.old ≡ (out.new, result) }
{
    let start = start_hole(out, at, hole);
    let end = answer(out, start, said, output);
    put(out, end, b'\n')
}
