// A reading of a coupler, in thousandths: worked out exactly from the bits of its number.
ghost use Rattle.std.specs.Prelude.{◌≡◌, ◌<◌};
ghost use Rattle.couplers.specs.Conversion.{nearest_even, signed_thousandths, thousandths_of, reading_of};

use values::arithmetic::{UNIT, signed};

// What a channel sends: a number of volts, a wire break or a short circuit.
#[derive(Clone, Copy)]
pub enum Reading {
    Volts(f32),
    Break,
    Short,
}

// The fields of a number's bits: its sign above 2^31, its exponent above 2^23, its digits below.
const SIGN: u32 = 2147483648;

const DIGITS: u32 = 8388608;
// The bits of infinity without its sign; a NaN's are above them.
const INFINITY: u32 = 2139095040;
// From this exponent's field on a number is 2^20 volts or more, an infinity or no number.
const TOO_GREAT: u32 = 147;
// Below this one it is less than half a thousandth.
const LEAST: u32 = 115;

// n / d to the nearest whole number, halves to even.
fn nearest(n: u64, d: u64) -> u64
    requires { (0 < d) × ((d < 4294967296000) × (n < 4294967296000)) }
    ensures { result ≡ nearest_even n d }
{
    let q = n / d;
    let rest = n % d * 2;
    if rest < d {
        return q;
    }
    if d < rest {
        return q + 1;
    }
    q + q % 2
}

// So many thousandths with their sign put back; what is no value counts as a fault.
fn signed_thousandths(negative: bool, size: u64) -> Option<i32>
    ensures { result ≡ signed_thousandths negative size }
{
    signed(negative, size).ok()
}

// A number of volts in thousandths: nearest, halves to even; none of a fault.
pub fn convert(x: f32) -> Option<i32>
    ensures { result ≡ thousandths_of x }
{
    if x.is_nan() {
        return None;
    }
    let bits = x.to_bits();
    let field = bits % SIGN / DIGITS;
    let digits = bits % DIGITS;
    let negative = SIGN <= bits;
    if TOO_GREAT <= field {
        return None;
    }
    if field < LEAST {
        return Some(0);
    }
    let n = (DIGITS + digits) as u64 * UNIT as u64;
    let d = 1u64 << (150 - field);
    signed_thousandths(negative, nearest(n, d))
}

// The reading that a pattern of 32 bits stands for; a NaN's is a break.
pub fn reading_of(bits: u32) -> Reading
    ensures { result ≡ reading_of bits }
{
    if INFINITY < bits % SIGN {
        return Reading::Break;
    }
    Reading::Volts(f32::from_bits(bits))
}
