// A table's records as code reads them, the two countings of numbers in them, and the reply with nothing used.
#![tactic(auto)]

ghost use Rattle.std.specs.Prelude.{◌≡◌, ◌+◌, ◌*◌, ◌<◌, length, MatchOption};
ghost use Rattle.std.specs.Iterator.{YieldsFirst, item_count};
ghost use Rattle.rules.specs.Answers.{reply as replyOf};
ghost use Rattle.rules.specs.Words.{NONE, elements};
ghost use Rattle.laws.specs.Lists.{Listed};
ghost use Rattle.table.specs.Reading.{IsRecord, Follows};

use rules::Reply;

// No record: a word of the tables that callers in C and Rust lend, as the tags are, so a number and no `Option`.
pub const NONE: u32 = 4294967295;

// The tags of the records section: numbers and no enum, since they are words of lent tables, which may hold any word.
pub const BT: u32 = 1;

pub const AR: u32 = 2;

pub const KO: u32 = 3;

pub const HO: u32 = 4;

pub const CE: u32 = 5;

pub const LA: u32 = 6;

pub const CA: u32 = 7;

pub const VA: u32 = 8;

pub const HA: u32 = 9;

pub const EQ: u32 = 10;

// A hole's record number.
#[derive(Clone, Copy)]
pub struct Hole(pub u32);

// A bound variable's number.
#[derive(Clone, Copy)]
pub struct Variable(pub u32);

// A record's four words.
#[derive(Clone, Copy)]
pub struct Record {
    pub tag: u32,
    pub a: u32,
    pub b: u32,
    pub c: u32,
}

// The record at a number.
pub fn read(table: &[u32], at: u32) -> Record
    requires { 4 * at + 3 < length table.now }
    ensures { IsRecord table.now at result }
{
    let i = 4 * (at as usize);
    Record {
        tag: table[i],
        a: table[i + 1],
        b: table[i + 2],
        c: table[i + 3],
    }
}

// What is left of a list: its first cell, or none. It gives the elements.
#[derive(Clone, Copy)]
pub struct Cells<'a> {
    pub table: &'a [u32],
    pub list: u32,
}

impl<'a> Iterator for Cells<'a> {
    type Item = u32;

    ghost can_next = { λ s. Listed s.table.now s.list };

    ghost next_gives = { λ s r t. YieldsFirst (λ u. elements u.table.now u.list) s r t
        × (t.table.now ≡ s.table.now)
        × MatchOption r (s.list ≡ NONE) (λ x. Follows s.table.now s.list x t.list) };

    ghost remaining = { item_count (λ s. elements s.table.now s.list) };

    fn next(&mut self) -> Option<u32> {
        if self.list == NONE {
            return None;
        }
        let cell = read(self.table, self.list);
        self.list = cell.b;
        Some(cell.a)
    }
}

// The elements of the list that begins at a cell.
pub fn elements(table: &[u32], list: u32) -> Cells<'_>
    ensures table { result.table.now ≡ table.now }
    ensures list { result.list ≡ list }
{
    Cells { table, list }
}

// A reply with nothing used.
pub fn reply(answer: u32, place: u32) -> Reply
    ensures { replyOf answer place 0 ≡ result }
{
    Reply {
        answer,
        place,
        used: 0,
    }
}
