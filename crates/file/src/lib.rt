// Reading a file of records of 14 bytes into a table: the two-byte mark, then a, b, c little-endian.
#![tactic(auto)]

ghost use Rattle.std.specs.Prelude.{◌≡◌, Some, not, ◌++◌, ◌+◌, ◌*◌, ◌<◌, ◌≤◌, length, drop};
ghost use Rattle.std.specs.Option.{unwrap_or};
ghost use Rattle.rules.specs.Lists.{lowest};
ghost use Rattle.rules.specs.Answers.{unreading as unreadingOf};
ghost use Rattle.rules.specs.File.{tag_of, marked, word, is_known, file_words, read as read_of};
ghost use Rattle.file.specs.Writing.{stored, Fitting, Noted};
ghost use Rattle.file.specs.Replied.{replied};

use rules::{Reply, Unread};
use table::reply;

// The tag of a mark of two bytes, if it is known; no `TryFrom`, since a tag is a plain number. Each number below is two letters of the table of
// marks: matched letter by letter they are a jump by the first, which is guessed wrong at each new mark (4 µs more for 2,029 records of all kinds).
fn tag_of_mark(x: u8, y: u8) -> Option<u32>
    ensures { tag_of x y ≡ result }
{
    match u16::from_be_bytes([x, y]) {
        0x4254 => Some(table::BT),
        0x4152 => Some(table::AR),
        0x4B4F => Some(table::KO),
        0x484F => Some(table::HO),
        0x4345 => Some(table::CE),
        0x4C41 => Some(table::LA),
        0x4341 => Some(table::CA),
        0x5641 => Some(table::VA),
        0x4841 => Some(table::HA),
        0x4551 => Some(table::EQ),
        _ => None,
    }
}

// Four bytes from byte i on, little-endian.
pub fn word_at(file: &[u8], i: usize) -> u32
    requires { i + 3 < length file.now }
    ensures { word file.now i ≡ result }
{
    u32::from_le_bytes([file[i], file[i + 1], file[i + 2], file[i + 3]])
}

// The tag of file record r, if its mark is known.
#[tactic(auto, unfolding(rules::specs::File::marked))]
fn tag_at(file: &[u8], r: u32) -> Option<u32>
    requires { 14 * r + 1 < length file.now }
    ensures { marked file.now r ≡ result }
{
    let i = 14 * (r as usize);
    tag_of_mark(file[i], file[i + 1])
}

// The lowest of the first n file records whose mark is unknown, or n; the tags of those below it are noted, so that no mark is looked up twice. For
// 2,029 records of all kinds, 10 µs, that saves 2 µs; n in place of a `None` saves 0.8 µs, since the loop then counts nothing but records.
fn lowest_unknown(file: &[u8], tags: &mut [u8; 2048], n: u32) -> u32
    requires { (14 * n ≤ length file.now) × (n ≤ 2048) }
    ensures lowest { unwrap_or (lowest n (λ r. not (is_known (marked file.now r)))) n ≡ result }
    ensures noted { Noted file.now tags.new result }
{
    for r in 0..n {
        match tag_at(file, r) {
            Some(tag) => tags[r as usize] = tag as u8,
            None => return r,
        }
    }
    n
}

// File record r, with this tag, becomes record r of the table. Its words are read before any is written, so that two are copied at once, which takes
// 0.6 µs less at 2,029 records.
fn write_record(file: &[u8], table: &mut [u32], r: u32, tag: u8)
    requires fits { Fitting file.now table.old (r + 1) }
    requires known { marked file.now r ≡ Some tag }
    ensures { stored file.now r table.old ≡ table.new }
{
    let i = 4 * (r as usize);
    let at = 14 * (r as usize);
    let a = word_at(file, at + 2);
    let b = word_at(file, at + 6);
    let c = word_at(file, at + 10);
    table[i] = tag as u32;
    table[i + 1] = a;
    table[i + 2] = b;
    table[i + 3] = c;
}

// The first n file records become the first n records of the table. Its like in `write` lends the other slice; what they share is one line.
fn write_records(file: &[u8], table: &mut [u32], tags: &[u8; 2048], n: u32)
    requires fits { Fitting file.now table.old n }
    requires noted { (n ≤ 2048) × Noted file.now tags.now n }
    ensures { table.new ≡ file_words file.now 0 n ++ drop (4 * n) table.old }
{
    for written in 0..n {
        write_record(file, table, written, tags[written as usize]);
    }
}

// The reply to each file that is not read; no `From`, since both its types are of crate rules, which has no function.
fn unreading(unread: Unread) -> Reply
    ensures { unreadingOf unread ≡ result }
{
    match unread {
        Unread::BadLength => reply(12, 0),
        Unread::SmallTable => reply(4, 0),
        Unread::UnknownMark(place) => reply(13, place),
    }
}

// The number of records of a file that is read; only its records are written.
fn records_of(file: &[u8], table: &mut [u32]) -> Result<u32, Unread>
    ensures { read_of file.now table.old ≡ record { table = table.new; said = replied result } }
{
    let len = file.len();
    if 28672 < len {
        return Err(Unread::BadLength);
    }
    if len % 14 != 0 {
        return Err(Unread::BadLength);
    }
    let n = (len / 14) as u32;
    if table.len() / 4 < n as usize {
        return Err(Unread::SmallTable);
    }
    let mut tags = [0; 2048];
    let r = lowest_unknown(file, &mut tags, n);
    if r < n {
        return Err(Unread::UnknownMark(r));
    }
    write_records(file, table, &tags, n);
    Ok(n)
}

// A file is read into a table: 12, then 4, then 13; successful reading writes only the file's n records.
pub fn read(file: &[u8], table: &mut [u32]) -> Reply
    ensures { read_of file.now table.old ≡ record { table = table.new; said = result } }
{
    match records_of(file, table) {
        Ok(n) => Reply {
            answer: 0,
            place: 0,
            used: n,
        },
        Err(unread) => unreading(unread),
    }
}
