// The faults of single things, as codes of document 01; 0 is no fault.
//
// They stay numbers: the theorems on what is refused speak of the codes of the document, and so does the answer that a host gets. 0 is none, as in `lower`, by which the laws of the grammar say the lowest fault: so it is no Option.
ghost use Rattle.std.specs.Prelude.{◌≡◌, drop};
ghost use Rattle.tokens.specs.SingleFault.{lower, unless, opens_too_many, wanting_fault, number_fault, read_fault, is_writable, write_fault, code_fault, call_fault, id_fault, curve_fault};

use crate::index::is_inside;
use crate::token::{
    CLOSE, CURVES, END, EVERY, FIFO1, FIFO4, OPEN, OUT, R, SETAL, TIMER, WHEN, is_fifo,
};
use values::arithmetic::TOP;
use values::codes::{CONFUSED, M_ALONE, OUTSIDE, READ_ONLY};

// The brackets that may be open.
pub const BRACKETS: usize = 8;

// The most that a number in the range carries: 1,000,000 and a written point.
const HIGHEST: u32 = 2 * (TOP as u32) + 1;

// The highest number of a curve.
const LAST_CURVE: u32 = CURVES as u32;

// The lower of two faults.
#[tactic(auto, unfolding(crate::specs::SingleFault::lower))]
pub fn lower_of(a: u8, b: u8) -> u8
    ensures { result ≡ lower a b }
{
    match (a, b) {
        (0, _) => b,
        (_, 0) => a,
        _ => a.min(b),
    }
}

// The code, unless all is good.
fn unless(good: bool, code: u8) -> u8
    ensures { result ≡ unless good code }
{
    if good { 0 } else { code }
}

// 6 where a yes/no (true) or a number (false) is wanted and the other stands.
#[tactic(auto, unfolding(crate::specs::SingleFault::wanting_fault))]
pub fn wanting(wanted: bool, truth: bool) -> u8
    ensures { result ≡ wanting_fault wanted truth }
{
    unless(wanted == truth, CONFUSED)
}

// 7 for a number above 1,000,000; t is what its token carries, twice its thousandths and one more for a written point.
#[tactic(auto, unfolding(crate::specs::SingleFault::number_fault))]
pub fn number_fault(t: u32) -> u8
    ensures { result ≡ number_fault t }
{
    unless(t <= HIGHEST, OUTSIDE)
}

// 7 for an index outside, 8 for FIFO [0].
#[tactic(auto, unfolding(crate::specs::SingleFault::read_fault, crate::specs::SingleFault::lower))]
pub fn read_fault(w: u32, i: u32) -> u8
    ensures { result ≡ read_fault w i }
{
    if !is_inside(w, i) {
        return OUTSIDE;
    }
    unless(i != 0 || !is_fifo(w), READ_ONLY)
}

#[tactic(auto, unfolding(crate::specs::SingleFault::is_writable))]
fn is_writable(w: u32, i: u32) -> bool
    ensures { result ≡ is_writable w i }
{
    match w {
        FIFO1..=FIFO4 => matches!(i, 0 | 4),
        R => i < 100,
        OUT..=TIMER => true,
        _ => false,
    }
}

// 7 for an index outside, 8 for a place that text may not write.
#[tactic(auto, unfolding(crate::specs::SingleFault::write_fault, crate::specs::SingleFault::lower))]
pub fn write_fault(w: u32, i: u32) -> u8
    ensures { result ≡ write_fault w i }
{
    if !is_inside(w, i) {
        return OUTSIDE;
    }
    unless(is_writable(w, i), READ_ONLY)
}

// M: 7 above 99, 9 without WHEN or EVERY.
#[tactic(auto, unfolding(crate::specs::SingleFault::code_fault, crate::specs::SingleFault::lower))]
pub fn code_fault(keyword: u32, n: u32) -> u8
    ensures { result ≡ code_fault keyword n }
{
    if 99 < n {
        return OUTSIDE;
    }
    unless(matches!(keyword, WHEN | EVERY), M_ALONE)
}

// SETAL 65000 to 69999, LOCK and UNLOCK a line's number; else 7.
#[tactic(auto, unfolding(crate::specs::SingleFault::call_fault))]
pub fn call_fault(w: u32, n: u32) -> u8
    ensures { result ≡ call_fault w n }
{
    match w {
        SETAL => unless(matches!(n, 65000..=69999), OUTSIDE),
        _ => id_fault(n),
    }
}

// Line numbers are 1 to 255.
#[tactic(auto, unfolding(crate::specs::SingleFault::id_fault))]
pub fn id_fault(n: u32) -> u8
    ensures { result ≡ id_fault n }
{
    unless(matches!(n, 1..=255), OUTSIDE)
}

// Curves are 1 to 3.
#[tactic(auto, unfolding(crate::specs::SingleFault::curve_fault))]
pub fn curve_fault(n: u32) -> u8
    ensures { result ≡ curve_fault n }
{
    unless(matches!(n, 1..=LAST_CURVE), OUTSIDE)
}

// Whether more than eight brackets ( are open at some place from `at` to the line's end.
#[tactic(auto, unfolding(crate::specs::SingleFault::opens_too_many))]
pub fn opens_too_many(set: &[u32], at: usize) -> bool
    ensures { result ≡ opens_too_many (drop at set.now) 0 }
{
    let Some(rest) = set.get(at..) else {
        return false;
    };
    let mut open: usize = 0;
    for &t in rest {
        match t {
            END => return false,
            OPEN if open >= BRACKETS => return true,
            OPEN => open += 1,
            CLOSE => open = open.saturating_sub(1),
            _ => {}
        }
    }
    false
}
