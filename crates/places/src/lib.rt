// The partial map of the walk by value: a place for each position of an argument list, what it says under lambdas, and the maps that a hole's arguments give.
#![tactic(auto)]

ghost use Rattle.std.specs.Prelude.{◌≡◌, true, false, ◌+◌, ◌*◌, ◌<◌, ◌≤◌, length, eqb};
ghost use Rattle.rules.specs.Words.{field_a};

use table::{NONE, Variable, elements};

// The partial map: so many of 16 places, one for each position of an argument list; NONE is no place. It is read from places to
// positions for the arguments of the solved hole, and from positions to places below a solved hole.
#[derive(Clone, Copy)]
pub struct Map {
    pub places: [u32; 16],
    pub len: usize,
    pub ghost whole: { length places ≡ 16 },
    pub ghost few: { len ≤ 16 },
}

impl Map {
    ghost use Rattle.rules.specs.Map.{lookup, place_of};
    ghost use Rattle.places.specs.Maps.{Unplaced, Pushed, map_of};
    ghost use Rattle.places.specs.Looking.{Looks, Within, found_at, seat};
    ghost use Rattle.places.specs.Lists.{Counts};
    ghost use Rattle.places.specs.Arguments.{Arguments, Ordered};
    ghost use Rattle.places.specs.Follow.{Following, Followed};
    ghost use Rattle.places.specs.Agree.{Comparing, Agrees, agreed as agreedOf};

    // The map without a place.
    pub fn empty() -> Map
        ensures { Unplaced result }
    {
        Map {
            places: [NONE; 16],
            len: 0,
        }
    }

    // The next position gets this place, or NONE.
    pub fn push(&mut self, place: u32)
        requires { self.old.len < 16 }
        ensures { Pushed self.old place self.new }
    {
        self.places[self.len] = place;
        self.len += 1;
    }

    // Which position has this variable as its place: a position is the number of a context variable.
    fn position_of(self, v: Variable) -> Option<Variable>
        ensures { lookup (map_of true self) v.0 ≡ found_at result }
    {
        for (i, &place) in self.places[..self.len].iter().enumerate() {
            if place == v.0 {
                return Some(Variable(i as u32));
            }
        }
        None
    }

    // Which place this position has.
    fn place_at(self, position: usize) -> Option<Variable>
        requires { position < self.len }
        ensures { lookup (map_of false self) position ≡ found_at result }
    {
        let w = self.places[position];
        if w == NONE {
            return None;
        }
        Some(Variable(w))
    }

    // Where the map leads a variable: from places to positions on the side of a pair, `above` all solved holes, else from positions to places.
    // It is the `Bool` of the definition `map_of`.
    fn look(self, above: bool, v: Variable) -> Option<Variable>
        requires { Within above self 0 v.0 }
        ensures { lookup (map_of above self) v.0 ≡ found_at result }
    {
        if above {
            return self.position_of(v);
        }
        self.place_at(v.0 as usize)
    }

    // The same under `depth` lambdas: variables bound inside stay.
    pub fn place_of(self, above: bool, depth: u32, v: Variable) -> Option<Variable>
        requires { Looks above self depth × Within above self depth v.0 }
        ensures { place_of (map_of above self) depth v.0 ≡ found_at result }
    {
        if v.0 < depth {
            return Some(v);
        }
        let Some(to) = self.look(above, Variable(v.0 - depth)) else {
            return None;
        };
        Some(Variable(to.0 + depth))
    }

    // The place of a variable, or NONE: what `push` takes is a word of the map's array, which the document's form has.
    fn place_or_none(self, above: bool, depth: u32, v: Variable) -> u32
        requires { Looks above self depth × Within above self depth v.0 }
        ensures { seat (place_of (map_of above self) depth v.0) ≡ result }
    {
        let Some(to) = self.place_of(above, depth, v) else {
            return NONE;
        };
        to.0
    }

    // Whether every position has a place.
    pub fn all_placed(self) -> bool
        ensures { result ≡ eqb (length (map_of false self)) self.len }
    {
        self.places[..self.len].iter().all(|&place| place != NONE)
    }

    // The variables of a hole's arguments, each at its position. The three loops that follow push what differs; one loop with a closure for it
    // would be longer than each.
    pub fn arguments(table: &[u32], list: u32) -> Map
        requires { Counts table.now list }
        ensures { Arguments table.now list result }
    {
        let mut m = Map::empty();
        for at in elements(table, list) {
            let x = variable_of(table, at);
            m.push(x.0);
        }
        m
    }

    // Each position of a context led to itself: its variables in order.
    pub fn in_order(table: &[u32], context: u32) -> Map
        requires { Counts table.now context }
        ensures { Ordered table.now context result }
    {
        let mut m = Map::empty();
        for _ in elements(table, context) {
            let position = m.len;
            m.push(position as u32);
        }
        m
    }

    // The map that follows a hole's arguments: from each position whose argument has a place, to that place.
    pub fn follow(self, table: &[u32], above: bool, depth: u32, list: u32) -> Map
        requires { Following table.now above self depth list }
        ensures { Followed table.now above self depth list result }
    {
        let mut m = Map::empty();
        for at in elements(table, list) {
            let x = variable_of(table, at);
            m.push(self.place_or_none(above, depth, x));
        }
        m
    }

    // A position at which two arguments agree, or NONE, as `push` takes it.
    fn agreed(j: usize, x: Variable, y: Variable) -> u32
        requires { j < 16 }
        ensures { agreedOf j x.0 y.0 ≡ result }
    {
        if x.0 == y.0 {
            return j as u32;
        }
        NONE
    }

    // The positions at which two equally long lists of arguments agree, each led to itself.
    pub fn agreeing(table: &[u32], left: u32, right: u32) -> Map
        requires { Comparing table.now left right }
        ensures { Agrees table.now left right result }
    {
        let mut m = Map::empty();
        for (one, two) in elements(table, left).zip(elements(table, right)) {
            let x = variable_of(table, one);
            let y = variable_of(table, two);
            let position = m.len;
            m.push(Map::agreed(position, x, y));
        }
        m
    }
}

// The variable that a hole's argument names.
pub fn variable_of(table: &[u32], at: u32) -> Variable
    requires { 4 * at + 3 < length table.now }
    ensures { field_a table.now at ≡ result.0 }
{
    Variable(table[4 * (at as usize) + 1])
}
