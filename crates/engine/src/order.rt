// Orders: eight bytes each, written at a place of a buffer that is lent; and how many a beat may have.
ghost use Rattle.std.specs.Prelude.{◌≡◌, ◌+◌, ◌≤◌, length};
ghost use Rattle.engine.specs.Order.{kind_number, order_size, order_bytes, with_order};

use tokens::token::{ACTIONS, LINES};

// The bytes of an order.
pub const ORDER_BYTES: usize = 8;

// The orders of a beat, and their bytes: each line's actions at most.
pub const MAX_ORDERS: usize = LINES * ACTIONS;

pub const ORDERS: usize = MAX_ORDERS * ORDER_BYTES;

// The kinds, by document 01's numbers.
#[derive(Clone, Copy)]
pub enum Kind {
    Pos = 1,
    Fa = 2,
    Mov = 3,
    M = 4,
    Setal = 5,
}

// An order: its kind, the number of its line, the axis (X to W are 1 to 6, else 0), and its value.
#[derive(Clone, Copy)]
pub struct Order {
    pub kind: Kind,
    pub line: u8,
    pub target: u8,
    pub value: i32,
}

#[tactic(auto, unfolding(crate::specs::Order::order_bytes, crate::specs::Order::four_bytes))]
fn store(part: &mut [u8], order: Order)
    requires { length part.old ≡ order_size }
    ensures { part.new ≡ order_bytes order }
{
    let [a, b, c, d] = order.value.to_le_bytes();
    let kind = order.kind as u8;
    part.copy_from_slice(&[kind, order.line, order.target, 0, a, b, c, d]);
}

// The order is written from place `at` on.
pub fn put(buffer: &mut [u8], at: usize, order: Order)
    requires { at + order_size ≤ length buffer.old }
    ensures { buffer.new ≡ with_order buffer.old at order }
{
    let end = at + ORDER_BYTES;
    store(&mut buffer[at..end], order);
}
