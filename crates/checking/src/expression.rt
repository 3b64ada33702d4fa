// The check of an expression: the walk by recursive descent over its tokens.
//
// `left` bounds the tokens left: it begins as the places of a set and falls at each bracket and sign. An operand with no operator behind it is handed up at once, first of
// all before a ), and what joins stands apart: so a bracket costs two calls.
//
// The levels `factors`, `terms` and `row` are one loop three times: they differ in their test, in what they join and in the level below, and call each other in a cycle.
// With the level below as a closure each would have to state its bound again, and one loop over three parameters is no plainer.
ghost use Rattle.std.specs.Prelude.{◌≡◌, ◌+◌, ◌<◌, ◌≤◌};
ghost use Rattle.tokens.specs.Token.{set_size};
ghost use Rattle.tokens.specs.Descent.{then, read_operand, read_close, read_variable, read_truth, factors_behind, terms_behind, row_behind, rest_behind, sum_at, expression_at};
ghost use Rattle.checking.specs.SightNumber.{seen, signs_behind};
ghost use Rattle.checking.specs.Brackets.{NoBracket, InGrammar, Counted, Onward, InBrackets};
ghost use Rattle.checking.specs.Fault.{sight};

use crate::sight::{as_wanted, join};
use crate::sight_number::{DEEPER, DEEPEST, NOTHING, depth_of, next_of, number_seen, truth_seen};
use tokens::fault::{number_fault, read_fault};
use tokens::token::{
    CLOSE, FALSE, MINUS, NOT, NUMBER, OPEN, SIZE, TRUE, index_at, is_arithmetic, is_compare,
    is_factor, is_indexed, is_logic, is_row, is_term, is_variable, token_at,
};

// How many more minus signs stand directly behind the one at place `at`, at most `most`: behind one more the check sees the same.
fn signs_behind(set: &[u32; SIZE], at: usize, most: usize) -> usize
    requires { at < set_size }
    ensures { (result ≡ signs_behind set.now most at) × ((result ≤ most) × (at + result < set_size)) }
{
    for n in 0..most {
        if token_at(set, at + n + 1) != MINUS {
            return n;
        }
    }
    most
}

// What was seen in brackets, if they are closed behind it: one deeper, but nine stays nine.
fn closed(set: &[u32; SIZE], a: u64) -> u64
    ensures { (seen result ≡ then (seen a) (read_close set.now sight)) × InBrackets set.now a result }
{
    let i = next_of(a);
    if i == 0 {
        return a;
    }
    if token_at(set, i) != CLOSE {
        return NOTHING;
    }
    if DEEPEST < depth_of(a) {
        return a + 1;
    }
    a + DEEPER + 1
}

fn variable(set: &[u32; SIZE], w: u32, at: usize) -> u64
    requires { at < set_size }
    ensures { (seen result ≡ read_variable set.now sight w at) × Counted set.now (at + 1) result }
{
    if !is_indexed(set, w, at) {
        return NOTHING;
    }
    number_seen(read_fault(w, index_at(set, w, at)), 0, at + 4)
}

// TRUE, FALSE or nothing of the grammar.
fn truth(set: &[u32; SIZE], t: u32, at: usize) -> u64
    requires { (t ≡ 0 → ⊥) → at < set_size }
    ensures { (seen result ≡ read_truth set.now sight t at) × ((InGrammar result → NoBracket t) × Counted set.now (at + 1) result) }
{
    if t == TRUE || t == FALSE {
        return truth_seen(0, 0, at + 1);
    }
    NOTHING
}

#[cycle(compared_expression_factors_operand_row_sum_terms)]
fn operand(set: &[u32; SIZE], at: usize, left: usize) -> u64
    ensures { (seen result ≡ read_operand set.now sight left at) × Counted set.now at result }
{
    if left == 0 {
        return NOTHING;
    }
    let t = token_at(set, at);
    if NUMBER <= t {
        return number_seen(number_fault(t - NUMBER), 0, at + 1);
    }
    if is_variable(t) {
        return variable(set, t, at);
    }
    if t == OPEN {
        return closed(set, expression(set, at + 1, left - 1));
    }
    if t == MINUS {
        let n = signs_behind(set, at, left - 1);
        return as_wanted(false, operand(set, at + n + 1, left - 1 - n));
    }
    if t == NOT {
        return as_wanted(true, operand(set, at + 1, left - 1));
    }
    truth(set, t, at)
}

// What was seen, and as many factors as follow.
#[cycle(compared_expression_factors_operand_row_sum_terms)]
fn factors(set: &[u32; SIZE], w: u64, left: usize) -> u64
    ensures { (seen result ≡ then (seen w) (factors_behind set.now sight left)) × Onward set.now w result }
{
    let mut a = w;
    for _ in 0..left {
        let i = next_of(a);
        if i == 0 {
            return a;
        }
        let t = token_at(set, i);
        if !is_factor(t) {
            return a;
        }
        a = join(false, false, a, operand(set, i + 1, left));
    }
    a
}

// What was seen, and as many terms as follow.
#[cycle(compared_expression_factors_operand_row_sum_terms)]
fn terms(set: &[u32; SIZE], w: u64, left: usize) -> u64
    ensures { (seen result ≡ then (seen w) (terms_behind set.now sight left)) × Onward set.now w result }
{
    let mut a = w;
    for _ in 0..left {
        let i = next_of(a);
        if i == 0 {
            return a;
        }
        let t = token_at(set, i);
        if !is_term(t) {
            return a;
        }
        let product = factors(set, operand(set, i + 1, left), left);
        a = join(false, false, a, product);
    }
    a
}

#[cycle(compared_expression_factors_operand_row_sum_terms)]
pub fn sum(set: &[u32; SIZE], at: usize, left: usize) -> u64
    ensures { (seen result ≡ sum_at set.now sight left at) × Counted set.now at result }
{
    let a = operand(set, at, left);
    let i = next_of(a);
    if i == 0 {
        return a;
    }
    if !is_arithmetic(token_at(set, i)) {
        return a;
    }
    terms(set, factors(set, a, left), left)
}

// What was seen, and the row of the operator `first` behind it.
#[cycle(compared_expression_factors_operand_row_sum_terms)]
fn row(set: &[u32; SIZE], first: u32, w: u64, left: usize) -> u64
    ensures { (seen result ≡ then (seen w) (row_behind set.now sight first left)) × Onward set.now w result }
{
    let mut a = w;
    for _ in 0..left {
        let i = next_of(a);
        if i == 0 {
            return a;
        }
        let t = token_at(set, i);
        if !is_row(first, t) {
            return a;
        }
        a = join(true, true, a, sum(set, i + 1, left));
    }
    a
}

// A sum that was seen, and the comparison or the row behind it.
#[cycle(compared_expression_factors_operand_row_sum_terms)]
fn compared(set: &[u32; SIZE], a: u64, left: usize) -> u64
    ensures { (seen result ≡ then (seen a) (rest_behind set.now sight left)) × Onward set.now a result }
{
    let i = next_of(a);
    if i == 0 {
        return a;
    }
    let t = token_at(set, i);
    if is_compare(t) {
        return join(false, true, a, sum(set, i + 1, left));
    }
    if !is_logic(t) {
        return a;
    }
    row(set, t, a, left)
}

#[cycle(compared_expression_factors_operand_row_sum_terms)]
pub fn expression(set: &[u32; SIZE], at: usize, left: usize) -> u64
    ensures { (seen result ≡ expression_at set.now sight left at) × Counted set.now at result }
{
    let a = operand(set, at, left);
    let i = next_of(a);
    if i == 0 {
        return a;
    }
    let t = token_at(set, i);
    if t == CLOSE {
        return a;
    }
    if !is_arithmetic(t) {
        return compared(set, a, left);
    }
    compared(set, terms(set, factors(set, a, left), left), left)
}
