// The check of a line: its lowest fault of 4 to 10, or 14, from its tokens, or where its parts lie. A fault is the documents' code: a C call hands it out as a number, and theorems speak of it so.
//
// What was read so far (`Counted`) is asked of a number and a set together, so it is no invariant of a type.
ghost use Rattle.std.specs.Prelude.{◌≡◌, ◌+◌, ◌<◌, drop, Err};
ghost use Rattle.tokens.specs.Token.{set_size};
ghost use Rattle.tokens.specs.SingleFault.{opens_too_many};
ghost use Rattle.values.specs.Codes.{not_in_grammar};
ghost use Rattle.checking.specs.SightNumber.{faulted, Noted, body_from};
ghost use Rattle.checking.specs.Brackets.{CountsOn, Counted};
ghost use Rattle.checking.specs.Fault.{number_of, judged, line_parts, rest_at, line_at};

use crate::action::actions;
use crate::expression::expression;
use crate::sight::{as_wanted, join_faults};
use crate::sight_number::{DEEPEST, depth_of, fault_of, next_of, number_seen, truth_of};
use tokens::fault::{id_fault, opens_too_many};
use tokens::token::{DO, EQUALS, IDS, SIZE, is_id, is_keyword, is_whole, token_at, whole_of};
use values::codes::{NOT_IN_GRAMMAR, TOO_DEEP};

// The parts of a line: its number, whether it is IDS, its keyword (its token, 0 for none, as `tries`, `acts` and `remembers` take it), where its condition and its actions begin, where it ends, and whether an action of it names a line or a curve.
#[derive(Clone, Copy)]
pub struct Line {
    pub number: u8,
    pub ids: bool,
    pub keyword: u32,
    pub condition: usize,
    pub actions: usize,
    pub end: usize,
    pub names: bool,
}

// A line's number as a byte; 0 for one above 255.
#[tactic(auto, unfolding(crate::specs::Fault::number_of))]
fn number_of(n: u32) -> u8
    ensures { result ≡ number_of n }
{
    u8::try_from(n).unwrap_or(0)
}

// Whether the line at `at` opens too many brackets; `a` is what was read of it. The count goes on behind that, or, where it is too deep or nothing, is taken from the
// line's start.
fn is_too_deep(set: &[u32; SIZE], at: usize, a: u64) -> bool
    requires { Counted set.now at a }
    ensures { result ≡ opens_too_many (drop at set.now) 0 }
{
    let i = next_of(a);
    if i == 0 || DEEPEST < depth_of(a) {
        return opens_too_many(set, at);
    }
    opens_too_many(set, i)
}

// A line that is not in the grammar.
fn refused(set: &[u32; SIZE], at: usize) -> Result<Line, u8>
    ensures { result ≡ judged set.now at (Err not_in_grammar) }
{
    if opens_too_many(set, at) {
        return Err(TOO_DEEP);
    }
    Err(NOT_IN_GRAMMAR)
}

// The parts of the line at `at`, if nothing is wrong with it; `a` is all that was read of it.
fn parts(
    set: &[u32; SIZE],
    at: usize,
    keyword: u32,
    condition: usize,
    actions: usize,
    a: u64,
) -> Result<Line, u8>
    requires { (at < set_size) × (Counted set.now at a × Noted set.now keyword actions a) }
    ensures { result ≡ judged set.now at (line_parts set.now at keyword condition actions (faulted a)) }
{
    if is_too_deep(set, at, a) {
        return Err(TOO_DEEP);
    }
    let end = next_of(a);
    if end == 0 {
        return Err(NOT_IN_GRAMMAR);
    }
    let fault = fault_of(a);
    if fault != 0 {
        return Err(fault);
    }
    Ok(Line {
        number: number_of(whole_of(token_at(set, at + 2))),
        ids: token_at(set, at) == IDS,
        keyword: keyword,
        condition: condition,
        actions: actions,
        end: end,
        names: truth_of(a),
    })
}

// DO and the actions behind it; `a` is all that was read before them.
fn body(set: &[u32; SIZE], at: usize, keyword: u32, condition: usize, a: u64) -> Result<Line, u8>
    requires { (at < set_size) × Counted set.now at a }
    ensures { result ≡ judged set.now at (body_from set.now at keyword condition (faulted a)) }
{
    let i = next_of(a);
    if i == 0 || token_at(set, i) != DO {
        return refused(set, at);
    }
    parts(
        set,
        at,
        keyword,
        condition,
        i + 1,
        actions(set, keyword, a + 1),
    )
}

// What follows a line's head: DO, or a keyword, an expression and DO; `fault` is the fault of the head.
fn rest(set: &[u32; SIZE], at: usize, fault: u8) -> Result<Line, u8>
    requires { (at < set_size) × CountsOn set.now at 0 (at + 3) }
    ensures { result ≡ judged set.now at (rest_at set.now at fault) }
{
    let head = number_seen(fault, 0, at + 3);
    let keyword = token_at(set, at + 3);
    if !is_keyword(keyword) {
        return body(set, at, 0, 0, head);
    }
    let a = as_wanted(true, expression(set, at + 4, SIZE));
    body(set, at, keyword, at + 4, join_faults(head, a))
}

// The line that begins at place `at`: its lowest fault of 4 to 10, or 14, or its parts.
pub fn line_at(set: &[u32; SIZE], at: usize) -> Result<Line, u8>
    ensures { result ≡ line_at set.now at }
{
    if !is_id(token_at(set, at)) || token_at(set, at + 1) != EQUALS {
        return refused(set, at);
    }
    let n = token_at(set, at + 2);
    if !is_whole(n) {
        return refused(set, at);
    }
    rest(set, at, id_fault(whole_of(n)))
}
