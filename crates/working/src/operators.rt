// What comparisons and AND, OR, XOR make of two values. Yes is 1 and no is 0.
ghost use Rattle.std.specs.Prelude.{◌≡◌};
ghost use Rattle.working.specs.Operators.{yes_no, is_yes, join_truths, join_logic};

use tokens::token::{AND, ATLEAST, ATMOST, LESS, MORE, OR, OTHER, SAME};
use values::arithmetic;

pub fn yes_no(b: bool) -> i32
    ensures { result ≡ yes_no b }
{
    i32::from(b)
}

pub fn is_yes(v: i32) -> bool
    ensures { result ≡ is_yes v }
{
    !arithmetic::is_equal(v, 0)
}

// AND, OR, XOR.
#[tactic(auto, unfolding(crate::specs::Operators::join_logic))]
pub fn join_logic(op: u32, a: bool, b: bool) -> bool
    ensures { result ≡ join_logic op a b }
{
    match op {
        AND => a & b,
        OR => a | b,
        _ => a ^ b,
    }
}

// A comparison, or AND, OR, XOR.
#[tactic(auto, unfolding(crate::specs::Operators::join_truths))]
pub fn join_truths(op: u32, a: i32, b: i32) -> bool
    ensures { result ≡ join_truths op a b }
{
    match op {
        SAME => arithmetic::is_equal(a, b),
        OTHER => !arithmetic::is_equal(a, b),
        LESS => arithmetic::is_less(a, b),
        MORE => arithmetic::is_less(b, a),
        ATMOST => !arithmetic::is_less(b, a),
        ATLEAST => !arithmetic::is_less(a, b),
        _ => join_logic(op, is_yes(a), is_yes(b)),
    }
}
