// The check of actions: the faults 5 to 10 and 14 in them.
//
// Most functions here are asked that their place is one of the set (`at < set_size`): a type for such places would be taken apart at each `token_at` and made anew at each step, which is no plainer.
ghost use Rattle.std.specs.Prelude.{◌≡◌, true, ◌||◌, [], ◌+◌, ◌<◌, ◌≤◌};
ghost use Rattle.tokens.specs.Token.{set_size, is_move, is_naming};
ghost use Rattle.tokens.specs.Descent.{index_at};
ghost use Rattle.checking.specs.SightNumber.{next_of, truth_of, fault_of, faulted, Noted, all_moved, with_move, end_fault};
ghost use Rattle.checking.specs.Brackets.{NoBracket, InGrammar, Counted, Onward, SameEnd};
ghost use Rattle.checking.specs.Fault.{is_removal, assigned_at, assignment_at, command_at, is_given, is_synfct, synfct_fault, synfct_at, unindexed_at, action_at, actions_at};

use crate::expression::sum;
use crate::sight::{as_wanted, join_faults};
use crate::sight_number::{NOTHING, depth_of, fault_of, next_of, number_seen, truth_seen};
use tokens::fault::{call_fault, code_fault, curve_fault, lower_of, read_fault, write_fault};
use tokens::token::{
    ACTIONS, CLOSE, COMMA, END, EQUALS, M, OPEN, SIZE, SYNFCT, index_at, is_arithmetic, is_call,
    is_drive, is_fifo, is_indexed, is_move, is_naming, is_variable, is_whole, token_at, whole_of,
};
use values::codes::{TOO_MANY_ACTIONS, TWO_MOVES};

// The axes moved are a word: bit x for axis x, 1 to 6, and bit 0 once an axis is moved twice. `with_move` has it so, and the loop keeps it in a register. This is all of them.
const ALL_MOVED: u64 = 127;

// FIFO [0] as a whole, unbracketed right side.
pub fn is_removal(set: &[u32; SIZE], at: usize) -> bool
    ensures { result ≡ is_removal set.now at }
{
    let w = token_at(set, at);
    if !is_fifo(w) || !is_indexed(set, w, at) || index_at(set, w, at) != 0 {
        return false;
    }
    !is_arithmetic(token_at(set, at + 4))
}

// The right side of an assignment to a variable.
fn assigned(set: &[u32; SIZE], at: usize) -> u64
    requires { at < set_size + 5 }
    ensures { (faulted result ≡ assigned_at set.now set_size at) × Counted set.now at result }
{
    if is_removal(set, at) {
        return number_seen(0, 0, at + 4);
    }
    as_wanted(false, sum(set, at, SIZE))
}

// An action that begins with a word, its index and =.
fn assignment(set: &[u32; SIZE], w: u32, at: usize) -> u64
    requires { at < set_size }
    ensures { (faulted result ≡ assignment_at set.now set_size w at) × ((InGrammar result → NoBracket w) × Counted set.now (at + 5) result) }
{
    if is_variable(w) {
        let a = number_seen(write_fault(w, index_at(set, w, at)), 0, at);
        return join_faults(a, assigned(set, at + 5));
    }
    if is_drive(w) {
        return as_wanted(false, sum(set, at + 5, SIZE));
    }
    NOTHING
}

// M= and a number; or SETAL, LOCK or UNLOCK and a number in brackets.
fn command(set: &[u32; SIZE], keyword: u32, w: u32, at: usize) -> u64
    requires { at < set_size }
    ensures { (faulted result ≡ command_at set.now keyword w at) × ((InGrammar result → NoBracket w) × Counted set.now (at + 1) result) }
{
    let n = token_at(set, at + 2);
    if !is_whole(n) {
        return NOTHING;
    }
    let sign = token_at(set, at + 1);
    if w == M {
        if sign != EQUALS {
            return NOTHING;
        }
        return number_seen(code_fault(keyword, whole_of(n)), 0, at + 3);
    }
    if !is_call(w) || sign != OPEN || token_at(set, at + 3) != CLOSE {
        return NOTHING;
    }
    number_seen(call_fault(w, whole_of(n)), 1, at + 4)
}

// Whether , and a variable with its index stand from a place on.
fn is_given(set: &[u32; SIZE], at: usize) -> bool
    ensures { result ≡ is_given set.now at }
{
    if token_at(set, at) != COMMA {
        return false;
    }
    let w = token_at(set, at + 1);
    is_variable(w) && is_indexed(set, w, at + 1)
}

// Whether the curve's number, the target and the variable of a SYNFCT stand in brackets behind the word at a place.
fn is_synfct(set: &[u32; SIZE], at: usize) -> bool
    requires { at < set_size }
    ensures { result ≡ is_synfct set.now at }
{
    if token_at(set, at + 1) != OPEN || !is_whole(token_at(set, at + 2)) {
        return false;
    }
    if !is_given(set, at + 3) || !is_given(set, at + 8) {
        return false;
    }
    token_at(set, at + 13) == CLOSE
}

// The lowest fault of the SYNFCT at a place: its curve's number, its target and its variable.
fn synfct_fault(set: &[u32; SIZE], at: usize) -> u8
    requires { at < set_size }
    ensures { result ≡ synfct_fault set.now at }
{
    let number = curve_fault(whole_of(token_at(set, at + 2)));
    let target = token_at(set, at + 4);
    let write = write_fault(target, index_at(set, target, at + 4));
    let variable = token_at(set, at + 9);
    let read = read_fault(variable, index_at(set, variable, at + 9));
    lower_of(number, lower_of(write, read))
}

// What is behind the word SYNFCT at a place.
fn synfct(set: &[u32; SIZE], at: usize) -> u64
    requires { at < set_size }
    ensures { (faulted result ≡ synfct_at set.now at) × Counted set.now (at + 1) result }
{
    if !is_synfct(set, at) {
        return NOTHING;
    }
    number_seen(synfct_fault(set, at), 1, at + 14)
}

// An action that begins with a word and no index behind it.
fn unindexed(set: &[u32; SIZE], keyword: u32, w: u32, at: usize) -> u64
    requires { at < set_size }
    ensures { (faulted result ≡ unindexed_at set.now keyword w at) × ((InGrammar result → NoBracket w) × Counted set.now (at + 1) result) }
{
    if w == SYNFCT {
        return synfct(set, at);
    }
    command(set, keyword, w, at)
}

fn action(set: &[u32; SIZE], keyword: u32, at: usize) -> u64
    ensures { (faulted result ≡ action_at set.now keyword set_size at) × Counted set.now at result }
{
    let w = token_at(set, at);
    if w == END {
        return NOTHING;
    }
    if !is_indexed(set, w, at) {
        return unindexed(set, keyword, w, at);
    }
    if token_at(set, at + 4) != EQUALS {
        return NOTHING;
    }
    assignment(set, w, at)
}

// Whether a line or a curve was named before, or the action that begins with a word names one.
fn or_naming(names: bool, t: u32) -> bool
    ensures { result ≡ names || is_naming t }
{
    names || is_naming(t)
}

// What was seen of actions, and whether one of them names a line or a curve.
fn noted(names: bool, w: u64) -> u64
    ensures { (faulted result ≡ faulted w) × (SameEnd w result × (truth_of result ≡ names)) }
{
    let fault = fault_of(w);
    let depth = depth_of(w);
    let i = next_of(w);
    if names {
        return truth_seen(fault, depth, i);
    }
    number_seen(fault, depth, i)
}

// The axes moved so far, and the one that the action at `at` moves, if its word is a move.
fn with_move(set: &[u32; SIZE], moved: u64, w: u32, at: usize) -> u64
    requires { (moved ≤ all_moved) × (is_move w ≡ true → index_at set.now w at ≤ 6) }
    ensures { result ≡ with_move moved w (index_at set.now w at) }
{
    if !is_move(w) {
        return moved;
    }
    let axis = index_at(set, w, at);
    if (moved >> axis) % 2 == 1 {
        return ALL_MOVED;
    }
    moved + (1 << axis)
}

// 10 for more actions than a line may have, or else 14 for an axis that was moved twice, which bit 0 tells.
fn end_fault(n: usize, moved: u64) -> u8
    ensures { result ≡ end_fault n moved }
{
    if ACTIONS < n {
        return TOO_MANY_ACTIONS;
    }
    if moved % 2 == 0 { 0 } else { TWO_MOVES }
}

// What was seen, and one or more actions behind it up to the line's end: the lowest fault of all, and whether one of them names a line or a curve.
pub fn actions(set: &[u32; SIZE], keyword: u32, w: u64) -> u64
    requires { InGrammar w }
    ensures { (faulted result ≡ actions_at set.now keyword set_size set_size 0 [] (fault_of w) (next_of w)) × (Onward set.now w result × Noted set.now keyword (next_of w) result) }
{
    let mut low = w;
    let mut names = false;
    let mut moved: u64 = 0;
    for n in 0..SIZE {
        let at = next_of(low);
        let first = token_at(set, at);
        names = or_naming(names, first);
        low = join_faults(low, action(set, keyword, at));
        let i = next_of(low);
        if i == 0 {
            return NOTHING;
        }
        moved = with_move(set, moved, first, at);
        if token_at(set, i) == END {
            return noted(
                names,
                join_faults(low, number_seen(end_fault(n + 1, moved), 0, i)),
            );
        }
    }
    NOTHING
}
