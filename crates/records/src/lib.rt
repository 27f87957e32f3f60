// Records (5): the lowest record that breaks a rule of the records section, in one pass with a mark for each record.
//
// The mark of a record that keeps the rules is its tag; for a cell it is the number of cells of the list that begins there, counted from LIST_OF_TYPES or
// from LIST_OF_TERMS. A record that may be referred to once only, which is one of tag CE to HA, has REFERRED more when it is. So one mark judges a field.
#![tactic(auto)]

ghost use Rattle.std.specs.Prelude.{◌≡◌, ◌+◌, ◌*◌, ◌<◌, ◌≤◌, length, leb};
ghost use Rattle.rules.specs.declared.Refused.TheVariants.{Broken as BrokenInput};
ghost use Rattle.rules.specs.declared.Unwritten.TheVariants.{Broken as BrokenTable};
ghost use Rattle.records.specs.Ranges.{TYPE_HIGH};
ghost use Rattle.records.specs.Marks.{counted_from, lower_mark, lies, ReferredAsks, ReferredSays, FirstCellSays, FieldSays, LengthAsks, LengthSays, CellAsks, CellSays};
ghost use Rattle.records.specs.Chains.{equals, ChainAsks, ChainSays};
ghost use Rattle.records.specs.Rows.{RowAsks, RowSays, RecordAsks, RecordSays, LentAsks, BrokenAsks};
ghost use Rattle.records.specs.Notes.{blank};
ghost use Rattle.records.specs.Noting.{NoteAsks, Noted, BrokenSays};

use rules::{Refused, Unwritten};
use table::{AR, BT, CA, CE, EQ, HA, HO, KO, LA, NONE, Record, VA, read};

// The marks of a type, of those that are base types, of a constant, a hole, a term.
const TYPE_LOW: u8 = BT as u8;

const TYPE_HIGH: u8 = AR as u8;

const BASE_TYPE: u8 = BT as u8;

const CONSTANT: u8 = KO as u8;

const HOLE: u8 = HO as u8;

const TERM_LOW: u8 = LA as u8;

const TERM_HIGH: u8 = HA as u8;

// The marks of the cells that begin a list of types, or of terms, by its length.
const MOST_CELLS: u8 = 16;

const LIST_OF_TYPES: u8 = 16;

const LIST_OF_TERMS: u8 = 32;

const TYPES_LOW: u8 = LIST_OF_TYPES + 1;

const TYPES_HIGH: u8 = LIST_OF_TYPES + MOST_CELLS;

const TERMS_LOW: u8 = LIST_OF_TERMS + 1;

const TERMS_HIGH: u8 = LIST_OF_TERMS + MOST_CELLS;

// A record that is referred to has this much more.
const REFERRED: u8 = 128;

// The number of a record that breaks a rule.
#[derive(Clone, Copy)]
pub struct Broken(pub u32);

impl From<Broken> for Refused {
    ghost from_gives = { λ broken refused. refused ≡ BrokenInput broken.0 };

    fn from(broken: Broken) -> Refused {
        Refused::Broken(broken.0)
    }
}

impl From<Broken> for Unwritten {
    ghost from_gives = { λ broken unwritten. unwritten ≡ BrokenTable broken.0 };

    fn from(broken: Broken) -> Unwritten {
        Unwritten::Broken(broken.0)
    }
}

// What one pass over at most N records writes down: the records' marks, the chains of types, from `last` on and by `before`, and the equations.
#[derive(Drop)]
pub struct Notes<const N: usize> {
    pub marks: [u8; N],
    pub last: [u16; N],
    pub before: [u16; N],
    pub equations: [u16; N],
}

impl<const N: usize> Notes<N> {
    // Nothing is written down.
    pub fn blank() -> Self
        ensures { result ≡ blank N }
    {
        Notes {
            marks: [0; N],
            last: [0; N],
            before: [0; N],
            equations: [0; N],
        }
    }
}

// What a field can hold: the kinds of the records section's table.
#[derive(Clone, Copy)]
enum Field {
    Nil,
    Any,
    Small,
    OfType,
    OfBase,
    OfConstant,
    OfHole,
    OfTerm,
    Types,
    Terms,
    Element,
    Rest,
}

// Two types of one chain, so with equal b, are equal: a derived `==` would compare b and c again.
fn equal(table: &[u32], j: u32, x: Record) -> bool
    requires { 4 * j + 3 < length table.now }
    ensures { result ≡ equals table.now j x }
{
    let y = read(table, j);
    y.tag == x.tag && y.a == x.a
}

// Record r, a type, joins its chain if no earlier type record equals it; true if so. Equal types have equal b, so the types with this b are compared,
// from the latest down: last[b] is one more than its number, before[j] one more than that of the one before j, 0 is the chain's end.
fn join_chain(table: &[u32], last: &mut [u16], before: &mut [u16], r: u32) -> bool
    requires { ChainAsks table.now last.old before.old r }
    ensures { ChainSays table.now last.new before.new r result }
{
    let x = read(table, r);
    let key = x.b as usize;
    let top = last[key];
    let mut j = top;
    while j != 0 {
        let at = j - 1;
        if equal(table, at as u32, x) {
            return false;
        }
        j = before[at as usize];
    }
    before[r as usize] = top;
    last[key] = (r + 1) as u16;
    true
}

// The mark of a lower record, or 0, which is no kind's mark, so that one test of a range judges a field.
fn lower_mark(marks: &[u8], r: u32, x: u32) -> u8
    requires { r ≤ length marks.now }
    ensures { result ≡ lower_mark marks.now r x }
{
    if x < r { marks[x as usize] } else { 0 }
}

// The mark of a lower record is from low to high.
fn lies(marks: &[u8], r: u32, low: u8, high: u8, x: u32) -> bool
    requires { r ≤ length marks.now }
    ensures { result ≡ lies marks.now r low high x }
{
    let m = lower_mark(marks, r, x);
    low <= m && m <= high
}

// Marks record x as referred to if it is lower and its mark is from low to high, so that nothing refers to it yet; true if so.
fn mark_referred(marks: &mut [u8], r: u32, low: u8, high: u8, x: u32) -> bool
    requires { ReferredAsks marks.old r low high }
    ensures { ReferredSays marks.old marks.new r low high x result }
{
    let m = lower_mark(marks, r, x);
    if m < low || high < m {
        return false;
    }
    marks[x as usize] = m + REFERRED;
    true
}

// Marks the first cell of list x as referred to, in the same way; true if so, or if the list is empty.
fn mark_first_cell(marks: &mut [u8], r: u32, low: u8, high: u8, x: u32) -> bool
    requires { ReferredAsks marks.old r low high }
    ensures { FirstCellSays marks.old marks.new r low high x result }
{
    if x == NONE {
        return true;
    }
    mark_referred(marks, r, low, high, x)
}

// Marks what a field of record r refers to, if that counts; true if the field holds what it can and its reference is no second one.
fn mark_field(marks: &mut [u8], r: u32, f: Field, x: u32) -> bool
    requires { r ≤ length marks.old }
    ensures { FieldSays marks.old marks.new r f x result }
{
    match f {
        Field::Nil => x == 0,
        Field::Any => true,
        Field::Small => x < 4096,
        Field::OfType => lies(marks, r, TYPE_LOW, TYPE_HIGH, x),
        Field::OfBase => lies(marks, r, BASE_TYPE, BASE_TYPE, x),
        Field::OfConstant => lies(marks, r, CONSTANT, CONSTANT, x),
        Field::OfHole => lies(marks, r, HOLE, HOLE, x),
        Field::OfTerm => mark_referred(marks, r, TERM_LOW, TERM_HIGH, x),
        Field::Types => mark_first_cell(marks, r, TYPES_LOW, TYPES_HIGH, x),
        Field::Terms => mark_first_cell(marks, r, TERMS_LOW, TERMS_HIGH, x),
        Field::Element => lies(marks, r, TYPE_LOW, TYPE_HIGH, x)
            || mark_referred(marks, r, TERM_LOW, TERM_HIGH, x),
        Field::Rest => mark_first_cell(marks, r, TYPES_LOW, TERMS_HIGH, x),
    }
}

// Marks what the fields a, b and c of a record refer to, in order, and then the record by its tag; true if all three are as asked.
fn mark_row(table: &[u32], marks: &mut [u8], r: u32, a: Field, b: Field, c: Field) -> bool
    requires { RowAsks table.now marks.old r a b c }
    ensures { RowSays table.now marks.new r result }
{
    let x = read(table, r);
    if !mark_field(marks, r, a, x.a) {
        return false;
    }
    if !mark_field(marks, r, b, x.b) {
        return false;
    }
    if !mark_field(marks, r, c, x.c) {
        return false;
    }
    marks[r as usize] = x.tag as u8;
    true
}

// What the cells of a list are counted from, by the mark of its element.
fn counted_from(element: u8) -> u8
    ensures { result ≡ counted_from (leb element TYPE_HIGH) }
{
    if element <= TYPE_HIGH {
        LIST_OF_TYPES
    } else {
        LIST_OF_TERMS
    }
}

// Marks a cell by the length of the list that begins there, which is one more than its rest has; true if that is not mixed and has at most 16 cells.
// The mark of the rest is the one from before the cell referred to it.
fn mark_length(marks: &mut [u8], r: u32, start: u8, rest: u32, mark: u8) -> bool
    requires { LengthAsks marks.old r start }
    ensures { LengthSays marks.old marks.new r start rest mark result }
{
    let at = r as usize;
    if rest == NONE {
        marks[at] = start + 1;
        return true;
    }
    if mark <= start || start + MOST_CELLS <= mark {
        return false;
    }
    marks[at] = mark + 1;
    true
}

// Marks what a cell refers to, and the cell by its length; true if its fields are as the table says, and its list is as it must be.
fn mark_cell(table: &[u32], marks: &mut [u8], r: u32) -> bool
    requires { CellAsks table.now marks.old r }
    ensures { CellSays table.now marks.new r result }
{
    let x = read(table, r);
    let start = counted_from(lower_mark(marks, r, x.a));
    if !mark_field(marks, r, Field::Element, x.a) {
        return false;
    }
    let rest = lower_mark(marks, r, x.b);
    if !mark_field(marks, r, Field::Rest, x.b) {
        return false;
    }
    if !mark_field(marks, r, Field::Nil, x.c) {
        return false;
    }
    mark_length(marks, r, start, x.b, rest)
}

// Marks a record and what it refers to; true if it keeps the rules. The arms are the records section's table; the row of a cell stands in
// mark_cell, and an unknown tag has no row.
fn mark_record(
    table: &[u32],
    marks: &mut [u8],
    last: &mut [u16],
    before: &mut [u16],
    r: u32,
) -> bool
    requires { RecordAsks table.now marks.old last.old before.old r }
    ensures { RecordSays table.now marks.new last.new before.new r result }
{
    let x = read(table, r);
    let k = x.tag;
    match k {
        BT => mark_row(table, marks, r, Field::Any, Field::Nil, Field::Nil)
            && join_chain(table, last, before, r),
        AR => mark_row(table, marks, r, Field::OfType, Field::OfType, Field::Nil)
            && join_chain(table, last, before, r),
        KO => mark_row(table, marks, r, Field::OfType, Field::Nil, Field::Nil),
        HO => mark_row(table, marks, r, Field::Types, Field::OfBase, Field::Nil),
        CE => mark_cell(table, marks, r),
        LA => mark_row(table, marks, r, Field::OfTerm, Field::Nil, Field::Nil),
        CA => mark_row(table, marks, r, Field::OfConstant, Field::Terms, Field::Nil),
        VA => mark_row(table, marks, r, Field::Small, Field::Terms, Field::Nil),
        HA => mark_row(table, marks, r, Field::OfHole, Field::Terms, Field::Nil),
        EQ => mark_row(table, marks, r, Field::OfTerm, Field::OfTerm, Field::OfType),
        _ => false,
    }
}

// Record r is noted if it has this tag; how many are noted then: the notes are a slice lent by the caller, and a slice can not grow.
pub fn note(table: &[u32], notes: &mut [u16], count: usize, r: u32, tag: u32) -> usize
    requires { NoteAsks tag table.now notes.old count r }
    ensures { Noted tag table.now notes.new result (r + 1) }
{
    let x = read(table, r);
    if x.tag != tag {
        return count;
    }
    notes[count] = r as u16;
    count + 1
}

// The lowest of the first n records that breaks a rule, with blank marks for each of them; otherwise how many equations there are, and they are
// noted. The arrays are lent one by one, so that the pass is made once, not for each N (4,093 variables: 9.1 µs so, 12.3 µs made for each N).
pub fn lowest_broken(
    table: &[u32],
    marks: &mut [u8],
    last: &mut [u16],
    before: &mut [u16],
    equations: &mut [u16],
    n: u32,
) -> Result<usize, Broken>
    requires { LentAsks table.now marks.old last.old before.old equations.old n }
    ensures { BrokenSays table.now equations.new n result }
{
    let mut count = 0;
    for r in 0..n {
        if !mark_record(table, marks, last, before, r) {
            return Err(Broken(r));
        }
        count = note(table, equations, count, r, EQ);
    }
    Ok(count)
}

// The same with blank notes.
pub fn find_broken<const N: usize>(
    table: &[u32],
    notes: &mut Notes<N>,
    n: u32,
) -> Result<usize, Broken>
    requires { BrokenAsks table.now notes.old n }
    ensures { BrokenSays table.now notes.new.equations n result }
{
    lowest_broken(
        table,
        &mut notes.marks,
        &mut notes.last,
        &mut notes.before,
        &mut notes.equations,
        n,
    )
}
