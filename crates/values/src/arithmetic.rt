// The working with values: sum, difference, product, quotient, negation, comparison, and what the targets make of a value.
//
// Signs and sizes are tested in the open, not by the library's names for it: all signed arithmetic is to be seen here (docs/DECISIONS.md), and its laws go by these tests.
ghost use Rattle.std.specs.Prelude.{◌≡◌, ◌≤◌, ◌<◌, nat_abs};
ghost use Rattle.values.specs.Cut.{cut_size};
ghost use Rattle.values.specs.Size.{signed_number};
ghost use Rattle.values.specs.Value.{in_range, valued, sum_of, difference_of, product_of, quotient_of, negation_of, less_than, equal_to, whole_units, marker_of, output_of, feed_of, sign_of};

use crate::codes::Alarm;

// The greatest value, one million units; the least is its negative.
pub const TOP: i32 = 1000000000;
// The thousandths of a unit.
pub const UNIT: i32 = 1000;
// Half a unit.
const HALF: u64 = 500;

// Whether a number of thousandths is a value.
pub fn in_range(v: i32) -> bool
    ensures { result ≡ in_range v }
{
    if v < -TOP {
        return false;
    }
    if TOP < v {
        return false;
    }
    true
}

// An exact number of thousandths as a value, or alarm 30.
pub(crate) fn value_of(x: i64) -> Result<i32, Alarm>
    ensures { result ≡ valued x }
{
    if x < -(TOP as i64) {
        return Err(Alarm::OutOfRange);
    }
    if (TOP as i64) < x {
        return Err(Alarm::OutOfRange);
    }
    Ok(x as i32)
}

// The size of a number, without its sign.
fn size_of(v: i32) -> u64
    ensures { (result ≡ nat_abs v) × (result ≤ 2147483648) }
{
    if v < 0 {
        return (-(v as i64)) as u64;
    }
    v as u64
}

// A size with its sign put back, as a value, or alarm 30.
pub fn signed(negative: bool, size: u64) -> Result<i32, Alarm>
    ensures { result ≡ valued (signed_number negative size) }
{
    if (TOP as u64) < size {
        return Err(Alarm::OutOfRange);
    }
    let v = size as i32;
    if negative {
        return Ok(-v);
    }
    Ok(v)
}

pub fn sum(a: i32, b: i32) -> Result<i32, Alarm>
    ensures { result ≡ sum_of a b }
{
    value_of(a as i64 + b as i64)
}

pub fn difference(a: i32, b: i32) -> Result<i32, Alarm>
    ensures { result ≡ difference_of a b }
{
    value_of(a as i64 - b as i64)
}

// THE CUT, the one place where a product or a quotient loses its fraction: what is left over of a size is dropped. The sign is put back behind it, so a number is cut toward zero, whatever its sign.
fn cut(size: u64, by: u64) -> u64
    requires { 0 < by }
    ensures { result ≡ cut_size size by }
{
    size / by
}

pub fn product(a: i32, b: i32) -> Result<i32, Alarm>
    ensures { result ≡ product_of a b }
{
    let negative = (a < 0) ^ (b < 0);
    let size = cut(size_of(a) * size_of(b), UNIT as u64);
    signed(negative, size)
}

pub fn quotient(a: i32, b: i32) -> Result<i32, Alarm>
    ensures { result ≡ quotient_of a b }
{
    if b == 0 {
        return Err(Alarm::ZeroDivisor);
    }
    let negative = (a < 0) ^ (b < 0);
    let size = cut(size_of(a) * UNIT as u64, size_of(b));
    signed(negative, size)
}

pub fn negation(a: i32) -> Result<i32, Alarm>
    ensures { result ≡ negation_of a }
{
    value_of(-(a as i64))
}

pub fn is_less(a: i32, b: i32) -> bool
    ensures { result ≡ less_than a b }
{
    a < b
}

pub fn is_equal(a: i32, b: i32) -> bool
    ensures { result ≡ equal_to a b }
{
    a == b
}

// The whole units in a value, without its fraction.
pub fn whole_units(v: i32) -> i32
    ensures { result ≡ whole_units v }
{
    v / UNIT * UNIT
}

// What a marker takes: the nearest whole unit, halves away from zero; of a number that is no value alarm 30.
pub fn marker(v: i32) -> Result<i32, Alarm>
    ensures { result ≡ marker_of v }
{
    if !in_range(v) {
        return Err(Alarm::OutOfRange);
    }
    let units = (size_of(v) + HALF) / UNIT as u64;
    signed(v < 0, units * UNIT as u64)
}

// What an output takes: 0 or 1, else alarm 34.
pub fn output(v: i32) -> Result<i32, Alarm>
    ensures { result ≡ output_of v }
{
    if v == 0 {
        return Ok(v);
    }
    if v == UNIT {
        return Ok(v);
    }
    Err(Alarm::NotAllowed)
}

// What FA takes: a feed above 0, else alarm 34.
pub fn feed(v: i32) -> Result<i32, Alarm>
    ensures { result ≡ feed_of v }
{
    if 0 < v {
        return Ok(v);
    }
    Err(Alarm::NotAllowed)
}

// What MOV makes of a value: its sign.
pub fn sign(v: i32) -> i32
    ensures { result ≡ sign_of v }
{
    if v < 0 {
        return -1;
    }
    if 0 < v {
        return 1;
    }
    0
}
