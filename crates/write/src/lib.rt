// Writing the first n records of a table to a file of records of 14 bytes: the two-byte mark, then a, b, c little-endian.
#![tactic(auto)]

ghost use Rattle.std.specs.Prelude.{◌≡◌, ◌++◌, ◌+◌, ◌*◌, ◌<◌, ◌≤◌, length, drop};
ghost use Rattle.std.proofs.lemmas.List.Edits.{sets};
ghost use Rattle.rules.specs.Answers.{unwriting as unwritingOf};
ghost use Rattle.rules.specs.Records.{broken as brokenOf};
ghost use Rattle.rules.specs.FileWrite.{word_bytes, mark_bytes, record_bytes, file_bytes, write as writeOf};
ghost use Rattle.records.specs.Noting.{found_of};
ghost use Rattle.write.specs.Asks.{Within, Known, MarkAsks, RecordAsks, RecordsAsk, said};

use records::{Broken, Notes, find_broken};
use rules::{Reply, Unwritten};
use table::{read, reply};

// The mark of a tag, which is one of the ten; no `From`, since a tag is a plain number.
fn mark_of(tag: u32) -> [u8; 2]
    requires { Known tag }
    ensures { mark_bytes tag ≡ result }
{
    match tag {
        table::BT => *b"BT",
        table::AR => *b"AR",
        table::KO => *b"KO",
        table::HO => *b"HO",
        table::CE => *b"CE",
        table::LA => *b"LA",
        table::CA => *b"CA",
        table::VA => *b"VA",
        table::HA => *b"HA",
        table::EQ => *b"EQ",
        _ => unreachable!(),
    }
}

// The mark of a tag from byte i on.
fn write_mark(file: &mut [u8], i: usize, tag: u32)
    requires { MarkAsks file.old i tag }
    ensures { sets file.old i (mark_bytes tag) ≡ file.new }
{
    file[i..i + 2].copy_from_slice(&mark_of(tag));
}

// The four bytes of a word from byte i on, little-endian.
fn write_word(file: &mut [u8], i: usize, w: u32)
    requires { i + 3 < length file.old }
    ensures { sets file.old i (word_bytes w) ≡ file.new }
{
    file[i..i + 4].copy_from_slice(&w.to_le_bytes());
}

// Record r of the table becomes file record r.
fn write_record(table: &[u32], file: &mut [u8], r: u32)
    requires { RecordAsks table.now file.old r }
    ensures { sets file.old (14 * r) (record_bytes table.now r) ≡ file.new }
{
    let x = read(table, r);
    let at = 14 * (r as usize);
    write_mark(file, at, x.tag);
    write_word(file, at + 2, x.a);
    write_word(file, at + 6, x.b);
    write_word(file, at + 10, x.c);
}

// The first n records of the table become the first n file records. Its like in `file` lends the other slice; what they share is one line.
fn write_records(table: &[u32], file: &mut [u8], n: u32)
    requires { RecordsAsk table.now file.old n }
    ensures { file.new ≡ file_bytes table.now 0 n ++ drop (14 * n) file.old }
{
    for r in 0..n {
        write_record(table, file, r);
    }
}

// A pass over the first n records, with notes for at most N.
fn pass<const N: usize>(table: &[u32], n: u32) -> Result<usize, Broken>
    requires { Within N table.now n }
    ensures { brokenOf table.now n ≡ found_of result }
{
    let mut notes = Notes::<N>::blank();
    find_broken(table, &mut notes, n)
}

// The first n records break no rule, or the lowest that breaks one: small tables clear small notes.
fn refuse_broken(table: &[u32], n: u32) -> Result<usize, Broken>
    requires { Within 2048 table.now n }
    ensures { brokenOf table.now n ≡ found_of result }
{
    if n <= 256 {
        return pass::<256>(table, n);
    }
    pass::<2048>(table, n)
}

// The reply to each table that is not written. It is no `From`: both types are of the crate of rules, which has no function.
fn unwriting(unwritten: Unwritten) -> Reply
    ensures { unwritingOf unwritten ≡ result }
{
    match unwritten {
        Unwritten::TooMany => reply(4, 0),
        Unwritten::Broken(place) => reply(5, place),
        Unwritten::ShortFile => reply(14, 0),
    }
}

// The first n records of a table are written, and are counted; or 4, then 5, then 14, with nothing written in each case.
fn try_write(table: &[u32], n: usize, file: &mut [u8]) -> Result<u32, Unwritten>
    ensures { writeOf table.now n file.old ≡ record { file = file.new; said = said result } }
{
    if 2048 < n || table.len() / 4 < n {
        return Err(Unwritten::TooMany);
    }
    let count = n as u32;
    refuse_broken(table, count)?;
    if file.len() / 14 < n {
        return Err(Unwritten::ShortFile);
    }
    write_records(table, file, count);
    Ok(count)
}

// The first n records of a table are written to a file: 4, then 5, then 14, with nothing written in each case; bytes past the file stay.
pub fn write(table: &[u32], n: usize, file: &mut [u8]) -> Reply
    ensures { writeOf table.now n file.old ≡ record { file = file.new; said = result } }
{
    match try_write(table, n, file) {
        Ok(used) => Reply {
            answer: 0,
            place: 0,
            used,
        },
        Err(unwritten) => unwriting(unwritten),
    }
}
