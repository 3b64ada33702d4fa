// Numbers in digits, written at a place of a lent buffer; the answer is how many bytes that is, those past the end too.
//
// Buffer and place are two parameters: a caller may put at any place, past the end too, and no call asks that it is inside.
ghost use Rattle.std.specs.Prelude.{◌≡◌, ◌+◌, ◌≤◌, ◌<◌, length};
ghost use Rattle.text.specs.Digits.{digits_up, decimal, signed_text};
ghost use Rattle.values.specs.PutAt.{put_at, IsPut};

use crate::buffer::put;

// The digits that a u32 may have.
const DIGITS: usize = 10;

// The digits of a number, at most k; the answer is the place behind them.
#[tactic(auto, unfolding(crate::specs::Digits::digits_up))]
fn put_digits(out: &mut [u8], at: usize, n: u32, k: usize) -> usize
    requires { (at ≤ 9223372036854775808) × (k ≤ 10) }
    ensures { IsPut out.old at (digits_up k n) out.new result }
{
    if k == 0 {
        return at;
    }
    if n < 10 {
        put(out, at, b'0' + n as u8);
        return at + 1;
    }
    let end = put_digits(out, at, n / 10, k - 1);
    put(out, end, b'0' + (n % 10) as u8);
    end + 1
}

// How many digits a number above 0 has.
fn digit_count(n: u32) -> usize
    requires { 0 < n }
    ensures { result ≡ length (decimal n) }
{
    n.ilog10() as usize + 1
}

// All k digits of a number, the last first, where there is room for them.
fn fill_digits(out: &mut [u8], at: usize, n: u32, k: usize)
    requires { (k ≡ length (decimal n)) × (at + k ≤ length out.old) }
    ensures { out.new ≡ put_at out.old at (decimal n) }
{
    let mut m = n;
    for i in (0..k).rev() {
        out[at + i] = b'0' + (m % 10) as u8;
        m /= 10;
    }
}

// A number: a single digit, as most have, at once; the digits of any other at their places if all have room, else one by one.
pub fn put_number(out: &mut [u8], at: usize, n: u32) -> usize
    ensures value { result ≡ length (decimal n) }
    ensures out_after { out.new ≡ put_at out.old at (decimal n) }
{
    if n < 10 {
        put(out, at, b'0' + n as u8);
        return 1;
    }
    let k = digit_count(n);
    let p = at.min(out.len());
    if k <= out.len() - p {
        fill_digits(out, p, n, k);
        return k;
    }
    put_digits(out, p, n, DIGITS);
    k
}

// A number in two's complement.
#[tactic(auto, unfolding(crate::specs::Digits::signed_text))]
pub fn put_signed(out: &mut [u8], at: usize, n: u32) -> usize
    ensures value { result ≡ length (signed_text n) }
    ensures out_after { out.new ≡ put_at out.old at (signed_text n) }
{
    if n < 2147483648 {
        return put_number(out, at, n);
    }
    let p = at.min(out.len());
    put(out, p, b'-');
    1 + put_number(out, p + 1, 4294967295 - n + 1)
}
