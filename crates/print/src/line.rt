// A line as it is printed, token by token, at a place of a lent buffer; the answer is the place behind it.
//
// A buffer and the place in it stay two parameters: most calls are `at + put_..(out, at, ..)` of another layer, and the print is counted with a buffer of no bytes. A struct around them would be lent anew at each call, which is no plainer.
ghost use Rattle.std.specs.Prelude.{◌≡◌, ◌+◌, ◌≤◌};
ghost use Rattle.values.specs.PutAt.{IsPut};
ghost use Rattle.print.specs.TokenText.{token_text, goes_on, is_following, is_opening, is_one_sign, needs_space, gap, line_text};
ghost use Rattle.print.specs.PrintText.{row_at};
ghost use Rattle.print.specs.PrintRoomLaws.{last_place, line_room};

use crate::name::put_name;
use crate::number::put_thousandths;
use text::buffer::put;
use text::bytes::SPACE;
use tokens::token::{
    ATLEAST, COMMA, END, EQUALS, ID, LESS, MORE, NUMBER, SAME, SIZE, is_variable, token_at,
};

// A token.
fn put_token(out: &mut [u8], at: usize, t: u32) -> usize
    requires { at ≤ last_place }
    ensures { IsPut out.old at (token_text t) out.new result }
{
    if t < NUMBER {
        at + put_name(out, at, t)
    } else {
        put_thousandths(out, at, (t - NUMBER) / 2)
    }
}

// Whether letters and digits would go on with a token: a word or a number.
fn goes_on(t: u32) -> bool
    ensures { result ≡ goes_on t }
{
    t >= ID && t != COMMA
}

// Whether a token begins with a letter or a digit.
fn is_following(t: u32) -> bool
    ensures { result ≡ is_following t }
{
    goes_on(t) && !is_variable(t)
}

// Whether a sign is = < or >.
fn is_opening(t: u32) -> bool
    ensures { result ≡ is_opening t }
{
    matches!(t, EQUALS | LESS | MORE)
}

// Whether a sign and the one behind it would be read as one, or as others.
fn is_one_sign(t: u32, u: u32) -> bool
    ensures { result ≡ is_one_sign t u }
{
    is_opening(t) && matches!(u, EQUALS | SAME) || t == LESS && matches!(u, MORE | ATLEAST)
}

// Whether two tokens would not read as they stand without a space.
fn needs_space(t: u32, u: u32) -> bool
    ensures { result ≡ needs_space t u }
{
    if goes_on(t) {
        is_following(u)
    } else {
        is_one_sign(t, u)
    }
}

// What stands between two tokens.
fn put_gap(out: &mut [u8], at: usize, t: u32, u: u32) -> usize
    requires { at ≤ last_place }
    ensures { IsPut out.old at (gap t u) out.new result }
{
    if needs_space(t, u) {
        put(out, at, SPACE);
        at + 1
    } else {
        at
    }
}

// The line that begins at a place of the set, up to its end. The end of a line needs no space before it.
pub fn put_line(set: &[u32; SIZE], start: usize, out: &mut [u8], at: usize) -> usize
    requires { at + line_room ≤ last_place }
    ensures put { IsPut out.old at (line_text (row_at set.now start)) out.new result }
    ensures upper_bound { result ≤ at + line_room }
{
    // By the token and the one behind it, each read once: a `for` over the places would read each twice.
    let mut p = start;
    let mut q = at;
    let mut t = token_at(set, p);
    while t != END {
        let end = put_token(out, q, t);
        let u = token_at(set, p + 1);
        q = put_gap(out, end, t, u);
        p += 1;
        t = u;
    }
    q
}
