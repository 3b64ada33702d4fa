// The check of a line FCTDEF: its lowest fault of 4, 5, 7 and 13, from its tokens, or the curve that it defines. A fault is a code of documents 01 and 02, 0 for none.
ghost use Rattle.std.specs.Prelude.{◌≡◌, ◌<◌, get_or};
ghost use Rattle.tokens.specs.Token.{number_carried, thousandths};
ghost use Rattle.checking.specs.CurveDefinition.{limits_fault, number_place, parameter_at, part_at, part_behind, curve_from, judged_curve, defined_by, definition_at};

use tokens::fault::{curve_fault, lower_of, number_fault, opens_too_many};
use tokens::token::{
    CLOSE, COMMA, END, FCTDEF, MINUS, NUMBER, OPEN, SIZE, is_whole, token_at, whole_of,
};
use values::arithmetic::is_less;
use values::codes::{NOT_IN_GRAMMAR, TOO_DEEP, WRONG_CURVE};
use values::curve::Curve;

// What a line FCTDEF defines: the number of a curve and the curve; and where the line ends.
#[derive(Clone, Copy)]
pub struct Definition {
    pub number: u32,
    pub curve: Curve,
    pub end: usize,
}

// What was read of a line FCTDEF: the lowest fault of its numbers, and the place behind. The reading goes on behind a fault of a number, for 5 and a later 4 are told before it.
#[derive(Clone, Copy)]
pub struct Part {
    pub fault: u8,
    pub next: usize,
}

// 13 for a lower limit above the upper one.
fn limits_fault(curve: Curve) -> u8
    ensures { result ≡ limits_fault curve }
{
    if is_less(curve.upper, curve.lower) {
        WRONG_CURVE
    } else {
        0
    }
}

// Where the number of a parameter stands: behind a minus, if there is one.
fn number_place(set: &[u32; SIZE], at: usize) -> usize
    ensures { result ≡ number_place set.now at }
{
    if token_at(set, at) == MINUS {
        at + 1
    } else {
        at
    }
}

// The thousandths of the number at a place; 0 for a token that is no number.
fn size_at(set: &[u32; SIZE], at: usize) -> u32
    ensures { (result ≡ thousandths (number_carried (get_or set.now at 0))) × (result < 2147483648) }
{
    token_at(set, at).saturating_sub(NUMBER) / 2
}

// The value of the parameter at a place.
fn parameter(set: &[u32; SIZE], at: usize) -> i32
    ensures { result ≡ parameter_at set.now at }
{
    let size = size_at(set, number_place(set, at)) as i32;
    if token_at(set, at) == MINUS {
        -size
    } else {
        size
    }
}

// The number at a place and the sign behind it; `fault` is the lowest fault before it. Inlined, as the two below: each SYNFCT of a beat reads its curve anew, which took half as long again by calls.
#[inline(always)]
fn part_at(set: &[u32; SIZE], fault: u8, sign: u32, at: usize) -> Result<Part, u8>
    ensures { result ≡ part_at set.now fault sign at }
{
    let n = token_at(set, at);
    if n < NUMBER || token_at(set, at + 1) != sign {
        return Err(NOT_IN_GRAMMAR);
    }
    Ok(Part {
        fault: lower_of(fault, number_fault(n - NUMBER)),
        next: at + 2,
    })
}

// The parameter behind what was read, and the sign behind it.
#[inline(always)]
fn part_behind(set: &[u32; SIZE], before: Part, sign: u32) -> Result<Part, u8>
    ensures { result ≡ part_behind set.now before sign }
{
    part_at(set, before.fault, sign, number_place(set, before.next))
}

// The curve whose parameters stand at these places. Seven parameters, each read once in its order: a struct of places around them would be no plainer.
#[inline(always)]
fn curve_from(
    set: &[u32; SIZE],
    lower: usize,
    upper: usize,
    a0: usize,
    a1: usize,
    a2: usize,
    a3: usize,
) -> Curve
    ensures { result ≡ curve_from set.now lower upper a0 a1 a2 a3 }
{
    Curve {
        lower: parameter(set, lower),
        upper: parameter(set, upper),
        a0: parameter(set, a0),
        a1: parameter(set, a1),
        a2: parameter(set, a2),
        a3: parameter(set, a3),
    }
}

// The curve n, unless something is wrong with it; `fault` is the lowest fault of its numbers.
fn judged_curve(n: u32, fault: u8, curve: Curve, end: usize) -> Result<Definition, u8>
    ensures { result ≡ judged_curve n fault curve end }
{
    let low = lower_of(fault, limits_fault(curve));
    if low != 0 {
        return Err(low);
    }
    Ok(Definition {
        number: n,
        curve: curve,
        end: end,
    })
}

// The curve n by its six parameters, which begin behind what was read.
#[tactic(auto, unfolding(crate::specs::CurveDefinition::defined_by, crate::specs::CurveDefinition::ended_by, crate::specs::CurveDefinition::if_read))]
fn defined_by(set: &[u32; SIZE], n: u32, head: Part) -> Result<Definition, u8>
    ensures { result ≡ defined_by set.now n head }
{
    let lower = part_behind(set, head, COMMA)?;
    let upper = part_behind(set, lower, COMMA)?;
    let a0 = part_behind(set, upper, COMMA)?;
    let a1 = part_behind(set, a0, COMMA)?;
    let a2 = part_behind(set, a1, COMMA)?;
    let a3 = part_behind(set, a2, CLOSE)?;
    if token_at(set, a3.next) != END {
        return Err(NOT_IN_GRAMMAR);
    }
    let curve = curve_from(
        set, head.next, lower.next, upper.next, a0.next, a1.next, a2.next,
    );
    judged_curve(n, a3.fault, curve, a3.next)
}

// The line FCTDEF that begins at place `at`: its lowest fault of 4, 5, 7 and 13, or the curve that it defines.
pub fn definition_at(set: &[u32; SIZE], at: usize) -> Result<Definition, u8>
    ensures { result ≡ definition_at set.now at }
{
    if opens_too_many(set, at) {
        return Err(TOO_DEEP);
    }
    if token_at(set, at) != FCTDEF {
        return Err(NOT_IN_GRAMMAR);
    }
    if token_at(set, at + 1) != OPEN {
        return Err(NOT_IN_GRAMMAR);
    }
    let n = token_at(set, at + 2);
    if !is_whole(n) || token_at(set, at + 3) != COMMA {
        return Err(NOT_IN_GRAMMAR);
    }
    let number = whole_of(n);
    defined_by(
        set,
        number,
        Part {
            fault: curve_fault(number),
            next: at + 4,
        },
    )
}
