// Curves: a polynomial of the third degree, worked at a value and held between its limits.
ghost use Rattle.std.specs.Prelude.{◌≡◌};
ghost use Rattle.values.specs.Curve.{polynomial_of, limited_to, curve_of};

use crate::arithmetic::{product, sum};
use crate::codes::Alarm;

// A curve: its limits, and its parts, a0 alone to a3 with the third power.
#[derive(Clone, Copy)]
pub struct Curve {
    pub lower: i32,
    pub upper: i32,
    pub a0: i32,
    pub a1: i32,
    pub a2: i32,
    pub a3: i32,
}

// The six steps, from a3 on; the first alarm ends the working.
#[tactic(auto, unfolding(crate::specs::Curve::polynomial_of))]
fn polynomial(curve: Curve, x: i32) -> Result<i32, Alarm>
    ensures { result ≡ polynomial_of curve x }
{
    let first = sum(product(curve.a3, x)?, curve.a2)?;
    let second = sum(product(first, x)?, curve.a1)?;
    sum(product(second, x)?, curve.a0)
}

// No `clamp`: it stops where the lower limit is above the upper one, and no call asks of its caller that it is not.
// A value held between two limits.
#[tactic(auto, unfolding(crate::specs::Curve::limited_to, crate::specs::Value::less_than))]
fn limited(lower: i32, upper: i32, y: i32) -> i32
    ensures { result ≡ limited_to lower upper y }
{
    if y < lower {
        return lower;
    }
    if upper < y {
        return upper;
    }
    y
}

// What a curve gives at x: the polynomial, then the limits.
#[tactic(auto, unfolding(crate::specs::Curve::curve_of))]
pub fn value_at(curve: Curve, x: i32) -> Result<i32, Alarm>
    ensures { result ≡ curve_of curve x }
{
    let y = polynomial(curve, x)?;
    Ok(limited(curve.lower, curve.upper, y))
}
