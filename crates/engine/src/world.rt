// A beat under way: what its lines go by, and what they write.
ghost use Rattle.std.specs.Prelude.{◌≡◌, ◌++◌, ◌+◌, ◌<◌, ◌≤◌};
ghost use Rattle.engine.specs.Order.{max_orders, order_bytes};
ghost use Rattle.engine.specs.ActionAnswers.{orders_in};

use crate::order::{ORDER_BYTES, ORDERS, Order, put};
use crate::set::Lines;
use crate::write::Vars;
use tokens::token::{LINES, SIZE};

// What the lines of a beat go by, and none of them changes: the set, its lines, which of them are cancelled, and whether the beat is in AUTOMATIC.
#[derive(Clone, Copy)]
pub struct Course<'a> {
    pub set: &'a [u32; SIZE],
    pub lines: &'a Lines,
    pub cancelled: &'a [bool; LINES],
    pub automatic: bool,
}

// The orders of a beat: how many there are, and their bytes, which stand in front. No heap: room for all that a beat may have.
#[derive(Clone, Copy)]
pub struct Orders {
    pub bytes: [u8; ORDERS],
    pub count: usize,
}

impl Orders {
    // One order goes behind the others.
    pub(crate) fn add(&mut self, order: Order)
        requires { self.old.count < max_orders }
        ensures bytes { orders_in self.new ≡ orders_in self.old ++ order_bytes order }
        ensures count { self.new.count ≡ self.old.count + 1 }
    {
        put(&mut self.bytes, self.count * ORDER_BYTES, order);
        self.count += 1;
    }
}

// What the lines of a beat write: the variables, which lines are locked, each line's memory, the word of the lines that acted, and the orders so far.
#[derive(Clone, Copy)]
pub struct World {
    pub vars: Vars,
    pub locked: [bool; LINES],
    pub memory: [bool; LINES],
    pub acted: u64,
    pub orders: Orders,
}
