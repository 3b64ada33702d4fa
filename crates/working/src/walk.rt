// The working of a condition and of a right side: the value walk. All operands are worked, left first; the first alarm ends it.
//
// The walk goes by recursive descent over the tokens; `left` bounds the tokens left: it begins as the places of a set and falls at each bracket, minus and NOT. What each step reads it hands on as a pair.
// Set, R and cells go through every function as three references: C lends them so (`set_condition`, `set_right_side`), and the definitions take them so (`value_over`, `condition_value`). A place is asked to be one of the set as in the check's actions.
ghost use Rattle.std.specs.Prelude.{◌≡◌, true, ◌<◌};
ghost use Rattle.tokens.specs.Token.{is_factor, is_term, is_compare, is_logic, set_size};
ghost use Rattle.tokens.specs.Descent.{up_to, then, read_operand, read_close, read_variable, read_truth, factors_behind, terms_behind, row_behind, product_at, sum_at, expression_at};
ghost use Rattle.working.specs.Pair.{said};
ghost use Rattle.working.specs.Operators.{join_values};
ghost use Rattle.working.specs.Working.{value_over, told, worked, negated, inverted, condition_value, right_value, variable_at};

use crate::operators::{is_yes, join_logic, join_truths, yes_no};
use crate::pair::{alarm_in, alarm_of, next_of, pair_of, value_of, worked_pair};
use crate::variables::{CELLS, RS, variable_value};
use tokens::token::{
    CLOSE, FALSE, MINUS, NOT, NUMBER, OPEN, PLUS, SIZE, TIMES, TRUE, index_at, is_compare,
    is_factor, is_indexed, is_logic, is_row, is_term, is_variable, token_at,
};
use values::arithmetic;
use values::codes::Alarm;

// What working reached: a value, and the place behind what it was worked from.
#[derive(Clone, Copy)]
pub struct Reached {
    pub value: i32,
    pub next: usize,
}

// ---- what one step gives

// A value, the factor's operator behind it, and what was read behind that.
fn join_factor(op: u32, a: i32, b: u64) -> u64
    requires { is_factor op ≡ true }
    ensures { said result ≡ then (said b) (λ y q. up_to (join_values op a y) q) }
{
    let i = next_of(b);
    if i == 0 {
        return b;
    }
    if op == TIMES {
        return worked_pair(arithmetic::product(a, value_of(b)), i);
    }
    worked_pair(arithmetic::quotient(a, value_of(b)), i)
}

// The same of a term. A function for each level has the operators alone that its level lets through: one over all would test what the level has told apart, and is no plainer.
fn join_term(op: u32, a: i32, b: u64) -> u64
    requires { is_term op ≡ true }
    ensures { said result ≡ then (said b) (λ y q. up_to (join_values op a y) q) }
{
    let i = next_of(b);
    if i == 0 {
        return b;
    }
    if op == PLUS {
        return worked_pair(arithmetic::sum(a, value_of(b)), i);
    }
    worked_pair(arithmetic::difference(a, value_of(b)), i)
}

// The same of a comparison.
fn join_compare(op: u32, a: i32, b: u64) -> u64
    requires { is_compare op ≡ true }
    ensures { said result ≡ then (said b) (λ y q. up_to (join_values op a y) q) }
{
    let i = next_of(b);
    if i == 0 {
        return b;
    }
    pair_of(yes_no(join_truths(op, a, value_of(b))), i)
}

// The same of AND, OR, XOR.
fn join_row(op: u32, a: i32, b: u64) -> u64
    requires { is_logic op ≡ true }
    ensures { said result ≡ then (said b) (λ y q. up_to (join_values op a y) q) }
{
    let i = next_of(b);
    if i == 0 {
        return b;
    }
    pair_of(yes_no(join_logic(op, is_yes(a), is_yes(value_of(b)))), i)
}

fn negated_pair(a: u64) -> u64
    ensures { said result ≡ then (said a) negated }
{
    let i = next_of(a);
    if i == 0 {
        return a;
    }
    worked_pair(arithmetic::negation(value_of(a)), i)
}

fn inverted_pair(a: u64) -> u64
    ensures { said result ≡ then (said a) inverted }
{
    let i = next_of(a);
    if i == 0 {
        return a;
    }
    pair_of(yes_no(!is_yes(value_of(a))), i)
}

// What was read in brackets, if they are closed behind it.
fn closed(set: &[u32; SIZE], r: &[i32; RS], cells: &[i32; CELLS], a: u64) -> u64
    ensures { said result ≡ then (said a) (read_close set.now (value_over r.now cells.now)) }
{
    let i = next_of(a);
    if i == 0 {
        return a;
    }
    if token_at(set, i) != CLOSE {
        return alarm_of(Alarm::Unsound);
    }
    a + 1
}

fn variable(set: &[u32; SIZE], r: &[i32; RS], cells: &[i32; CELLS], w: u32, at: usize) -> u64
    requires { at < set_size }
    ensures { said result ≡ read_variable set.now (value_over r.now cells.now) w at }
{
    if !is_indexed(set, w, at) {
        return alarm_of(Alarm::Unsound);
    }
    worked_pair(variable_value(r, cells, w, index_at(set, w, at)), at + 4)
}

// TRUE, FALSE or nothing of the grammar.
fn truth(set: &[u32; SIZE], r: &[i32; RS], cells: &[i32; CELLS], t: u32, at: usize) -> u64
    requires { (t ≡ 0 → ⊥) → at < set_size }
    ensures { said result ≡ read_truth set.now (value_over r.now cells.now) t at }
{
    if t == TRUE {
        return pair_of(1, at + 1);
    }
    if t == FALSE {
        return pair_of(0, at + 1);
    }
    alarm_of(Alarm::Unsound)
}

// ---- the walk

#[cycle(expression_factors_operand_product_row_sum_terms)]
fn operand(set: &[u32; SIZE], r: &[i32; RS], cells: &[i32; CELLS], at: usize, left: usize) -> u64
    ensures { said result ≡ read_operand set.now (value_over r.now cells.now) left at }
{
    if left == 0 {
        return alarm_of(Alarm::Unsound);
    }
    let t = token_at(set, at);
    if NUMBER <= t {
        return pair_of(((t - NUMBER) / 2) as i32, at + 1);
    }
    if is_variable(t) {
        return variable(set, r, cells, t, at);
    }
    if t == OPEN {
        return closed(set, r, cells, expression(set, r, cells, at + 1, left - 1));
    }
    if t == MINUS {
        return negated_pair(operand(set, r, cells, at + 1, left - 1));
    }
    if t == NOT {
        return inverted_pair(operand(set, r, cells, at + 1, left - 1));
    }
    truth(set, r, cells, t, at)
}

// What was read, and as many factors as follow. The loops stand apart from the levels, so that a level that joins nothing is merged into the one above it.
#[cycle(expression_factors_operand_product_row_sum_terms)]
fn factors(set: &[u32; SIZE], r: &[i32; RS], cells: &[i32; CELLS], w: u64, left: usize) -> u64
    ensures { said result ≡ then (said w) (factors_behind set.now (value_over r.now cells.now) left) }
{
    let mut a = w;
    for _ in 0..left {
        let i = next_of(a);
        if i == 0 {
            return a;
        }
        let t = token_at(set, i);
        if !is_factor(t) {
            return a;
        }
        a = join_factor(t, value_of(a), operand(set, r, cells, i + 1, left));
    }
    a
}

#[cycle(expression_factors_operand_product_row_sum_terms)]
fn product(set: &[u32; SIZE], r: &[i32; RS], cells: &[i32; CELLS], at: usize, left: usize) -> u64
    ensures { said result ≡ product_at set.now (value_over r.now cells.now) left at }
{
    let a = operand(set, r, cells, at, left);
    let i = next_of(a);
    if i == 0 {
        return a;
    }
    if !is_factor(token_at(set, i)) {
        return a;
    }
    factors(set, r, cells, a, left)
}

#[cycle(expression_factors_operand_product_row_sum_terms)]
fn terms(set: &[u32; SIZE], r: &[i32; RS], cells: &[i32; CELLS], w: u64, left: usize) -> u64
    ensures { said result ≡ then (said w) (terms_behind set.now (value_over r.now cells.now) left) }
{
    let mut a = w;
    for _ in 0..left {
        let i = next_of(a);
        if i == 0 {
            return a;
        }
        let t = token_at(set, i);
        if !is_term(t) {
            return a;
        }
        a = join_term(t, value_of(a), product(set, r, cells, i + 1, left));
    }
    a
}

#[cycle(expression_factors_operand_product_row_sum_terms)]
fn sum(set: &[u32; SIZE], r: &[i32; RS], cells: &[i32; CELLS], at: usize, left: usize) -> u64
    ensures { said result ≡ sum_at set.now (value_over r.now cells.now) left at }
{
    let a = product(set, r, cells, at, left);
    let i = next_of(a);
    if i == 0 {
        return a;
    }
    if !is_term(token_at(set, i)) {
        return a;
    }
    terms(set, r, cells, a, left)
}

// A row of the operator `first`.
#[cycle(expression_factors_operand_product_row_sum_terms)]
fn row(
    set: &[u32; SIZE],
    r: &[i32; RS],
    cells: &[i32; CELLS],
    first: u32,
    w: u64,
    left: usize,
) -> u64
    ensures { said result ≡ then (said w) (row_behind set.now (value_over r.now cells.now) first left) }
{
    let mut a = w;
    for _ in 0..left {
        let i = next_of(a);
        if i == 0 {
            return a;
        }
        let t = token_at(set, i);
        if !is_row(first, t) {
            return a;
        }
        a = join_row(t, value_of(a), sum(set, r, cells, i + 1, left));
    }
    a
}

#[cycle(expression_factors_operand_product_row_sum_terms)]
fn expression(set: &[u32; SIZE], r: &[i32; RS], cells: &[i32; CELLS], at: usize, left: usize) -> u64
    ensures { said result ≡ expression_at set.now (value_over r.now cells.now) left at }
{
    let a = sum(set, r, cells, at, left);
    let i = next_of(a);
    if i == 0 {
        return a;
    }
    let t = token_at(set, i);
    if is_compare(t) {
        return join_compare(t, value_of(a), sum(set, r, cells, i + 1, left));
    }
    if !is_logic(t) {
        return a;
    }
    row(set, r, cells, t, a, left)
}

// ---- what the layers above call

// What a pair says, to the layers above.
fn reached_in(w: u64) -> Result<Reached, Alarm>
    ensures { result ≡ told (said w) }
{
    let i = next_of(w);
    if i == 0 {
        return Err(alarm_in(w));
    }
    Ok(Reached {
        value: value_of(w),
        next: i,
    })
}

// The value of the condition that begins at place `at`: yes is 1, no is 0.
#[tactic(auto, unfolding(crate::specs::Working::condition_value))]
pub fn condition(
    set: &[u32; SIZE],
    r: &[i32; RS],
    cells: &[i32; CELLS],
    at: usize,
) -> Result<Reached, Alarm>
    ensures { result ≡ condition_value set.now r.now cells.now at }
{
    reached_in(expression(set, r, cells, at, SIZE))
}

// The value of the right side that begins at place `at`.
#[tactic(auto, unfolding(crate::specs::Working::right_value))]
pub fn right_side(
    set: &[u32; SIZE],
    r: &[i32; RS],
    cells: &[i32; CELLS],
    at: usize,
) -> Result<Reached, Alarm>
    ensures { result ≡ right_value set.now r.now cells.now at }
{
    reached_in(sum(set, r, cells, at, SIZE))
}

// What a pair says, without its place.
fn worked_in(w: u64) -> Result<i32, Alarm>
    ensures { result ≡ worked (said w) }
{
    reached_in(w).map(|x| x.value)
}

// What the variable that begins at place `at` reads. It is read as an operand, so that the walk is the one caller of `variable`.
pub fn variable_at(
    set: &[u32; SIZE],
    r: &[i32; RS],
    cells: &[i32; CELLS],
    at: usize,
) -> Result<i32, Alarm>
    ensures { result ≡ variable_at set.now r.now cells.now at }
{
    if !is_variable(token_at(set, at)) {
        return Err(Alarm::Unsound);
    }
    worked_in(operand(set, r, cells, at, 1))
}
