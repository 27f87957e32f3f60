// The queue of waiting pairs: a ring over the lent words, two words a pair, whose freed places are used again.
#![tactic(auto)]

ghost use Rattle.std.specs.Prelude.{◌≡◌, ◌∷◌, [], ◌+◌, ◌-◌, ◌<◌, ◌≤◌};

use rules::Failure;
use table::{elements, read};

// Two sides: of a waiting pair, or two argument lists.
#[derive(Clone, Copy)]
pub struct Pair {
    pub left: u32,
    pub right: u32,
}

// A ring of cap places: the place of the first pair, and how many wait.
#[derive(Clone, Copy)]
pub struct Ring {
    pub cap: usize,
    pub head: usize,
    pub count: usize,
    pub ghost few: { cap ≤ 1024 },
    pub ghost inside: { head ≤ cap - 1 },
    pub ghost fits: { count ≤ cap },
}

impl Ring {
    ghost use Rattle.queue.specs.Ring.{Wraps, Roomy, Front, Joins, Queued, Leaves, front_of, waiting};
    ghost use Rattle.queue.specs.Arguments.{pairs_of, Joining};
    ghost use Rattle.queue.specs.Equations.{sides_of, Entering, Enters};

    // A ring of cap places in which no pair waits.
    fn empty(cap: usize) -> Ring
        requires { cap ≤ 1024 }
        ensures same { result.cap ≡ cap }
        ensures none { result.count ≡ 0 }
    {
        Ring {
            cap,
            head: 0,
            count: 0,
        }
    }

    // A place below twice cap, round the ring.
    fn wrap(self, x: usize) -> usize
        requires { x < self.cap + self.cap }
        ensures { Wraps self.cap x result }
    {
        if x < self.cap {
            return x;
        }
        x - self.cap
    }

    // A pair joins at the end.
    fn join(self, queue: &mut [u32], pair: Pair) -> Ring
        requires { Roomy queue.old self 1 }
        ensures { Joins queue.old self (waiting pair ∷ []) queue.new result }
    {
        let at = self.wrap(self.head + self.count);
        queue[2 * at] = pair.left;
        queue[2 * at + 1] = pair.right;
        Ring {
            cap: self.cap,
            head: self.head,
            count: self.count + 1,
        }
    }

    // The first pair.
    pub fn first(self, queue: &[u32]) -> Pair
        requires { Front queue.now self }
        ensures { front_of queue.now self ≡ result }
    {
        Pair {
            left: queue[2 * self.head],
            right: queue[2 * self.head + 1],
        }
    }

    // The first pair leaves, and its place is free.
    pub fn leave(self) -> Ring
        requires { 1 ≤ self.count }
        ensures { Leaves self result }
    {
        let head = self.wrap(self.head + 1);
        Ring {
            cap: self.cap,
            head,
            count: self.count - 1,
        }
    }

    // The argument pairs of two lists, equally long, join the queue in order, unless waiting pairs plus new ones exceed cap.
    pub fn join_pairs(self, table: &[u32], queue: &mut [u32], lists: Pair) -> Result<Ring, Failure>
        requires { Joining table.now queue.old self lists.left lists.right }
        ensures { Queued queue.old self (pairs_of table.now lists.left lists.right) queue.new result }
    {
        let mut ring = self;
        for (left, right) in elements(table, lists.left).zip(elements(table, lists.right)) {
            if ring.count == ring.cap {
                return Err(Failure::QueueFull);
            }
            ring = ring.join(queue, Pair { left, right });
        }
        Ok(ring)
    }

    // The equations that were noted enter the queue in order, a ring of cap places in which no pair waits yet, unless they exceed cap.
    pub fn enter_equations(
        table: &[u32],
        queue: &mut [u32],
        cap: usize,
        equations: &[u16],
    ) -> Result<Ring, Failure>
        requires { Entering table.now queue.old cap equations.now }
        ensures { Enters cap (sides_of table.now equations.now) queue.new result }
    {
        if cap < equations.len() {
            return Err(Failure::QueueFull);
        }
        let mut ring = Ring::empty(cap);
        for equation in equations {
            let rec = read(table, *equation as u32);
            let pair = Pair {
                left: rec.a,
                right: rec.b,
            };
            ring = ring.join(queue, pair);
        }
        Ok(ring)
    }
}
