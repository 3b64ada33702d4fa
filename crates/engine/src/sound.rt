// Sound: what documents 01 and 02 ask of a set and a state, tested at every call.
//
// The cells are a part of those of a beat, lent as a slice whose number is asked: an array of them out of the slice would be an Option, with an answer for None that never comes, which is no plainer.
ghost use Rattle.std.specs.Prelude.{◌≡◌, Bool, ◌&&◌, List, ◌<◌, ◌≤◌, length, drop, IfOk};
ghost use Rattle.engine.specs.ActCount.{is_act_count, are_act_counts};
ghost use Rattle.engine.specs.Held.{state_held};
ghost use Rattle.engine.specs.Sound.{all_ranged, is_output, is_cell, are_cells, all_zero, is_fifo_sound, are_fifos, is_flag, are_flags, state_sound, is_sound, lines_with};
ghost use Rattle.working.specs.Variables.{fifos, state_cells};
ghost use Rattle.tokens.specs.Token.{max_lines};

use crate::held::Held;
use crate::set::{Lines, sound_lines};
use crate::state::{ACTS_TOP, State};
use couplers::channel::are_channels;
use tokens::token::{LINES, SIZE};
use values::arithmetic::{in_range, is_equal, is_less, output, whole_units};
use values::codes::UNSOUND;
use values::fifo::PLACES;
use working::variables::{
    COUNT_AT, FIFOS, INPUTS, MARKER_AT, PARAM_AT, RS, RUN_AT, STATE_CELLS, TIMER_AT, count_of,
};

// Whether all are values.
pub fn all_ranged(xs: &[i32]) -> bool
    ensures { result ≡ all_ranged xs.now }
{
    let mut good = true;
    for x in xs {
        good &= in_range(*x);
    }
    good
}

fn is_output(v: i32) -> bool
    ensures { result ≡ is_output v }
{
    output(v).is_ok()
}

// Whether a value may stand in the state's cell i.
#[tactic(auto, unfolding(crate::specs::Sound::is_cell))]
fn is_cell(i: usize, v: i32) -> bool
    ensures { result ≡ is_cell i v }
{
    if !in_range(v) {
        return false;
    }
    if i < MARKER_AT {
        return is_output(v);
    }
    if i < PARAM_AT {
        return is_equal(whole_units(v), v);
    }
    if i < TIMER_AT {
        return true;
    }
    if i < COUNT_AT {
        return !is_less(v, 0);
    }
    (count_of(v) as usize) <= PLACES
}

// The cells from one place up to another, behind what is known of those before. The loops of `are_cells` have ends that are constants, so each tests one rule.
fn cells_on(cells: &[i32], from: usize, to: usize, before: bool) -> bool
    requires { (from ≤ to) × (to ≤ length cells.now) }
    ensures { (result && are_cells (drop to cells.now) to) ≡ (before && are_cells (drop from cells.now) from) }
{
    let mut good = before;
    for i in from..to {
        good &= is_cell(i, cells[i]);
    }
    good
}

// Outputs, markers, parameters, timers, counts.
fn are_cells(cells: &[i32]) -> bool
    requires { length cells.now ≡ state_cells }
    ensures { result ≡ are_cells cells.now 0 }
{
    let outputs = cells_on(cells, 0, MARKER_AT, true);
    let markers = cells_on(cells, MARKER_AT, PARAM_AT, outputs);
    let params = cells_on(cells, PARAM_AT, TIMER_AT, markers);
    let timers = cells_on(cells, TIMER_AT, COUNT_AT, params);
    cells_on(cells, COUNT_AT, STATE_CELLS, timers)
}

// Whether all from place n on are 0.
fn all_zero(xs: &[i32], n: usize) -> bool
    ensures { result ≡ all_zero (drop n xs.now) }
{
    let mut good = true;
    for i in n..xs.len() {
        good &= is_equal(xs[i], 0);
    }
    good
}

// Whether the unused places of FIFO k, from 0, are 0.
#[tactic(auto, unfolding(crate::specs::Sound::is_fifo_sound))]
fn is_fifo_sound(r: &[i32; RS], cells: &[i32], k: usize) -> bool
    requires { (k < fifos) × (length cells.now ≡ state_cells) }
    ensures { result ≡ is_fifo_sound r.now cells.now k }
{
    let start = RUN_AT + PLACES * k;
    let end = start + PLACES;
    let count = count_of(cells[COUNT_AT + k]) as usize;
    all_zero(&r[start..end], count)
}

fn are_fifos(r: &[i32; RS], cells: &[i32]) -> bool
    requires { length cells.now ≡ state_cells }
    ensures { result ≡ are_fifos r.now cells.now fifos 0 }
{
    let mut good = true;
    for k in 0..FIFOS {
        good &= is_fifo_sound(r, cells, k);
    }
    good
}

// Whether lock, cancel and memory of rank k go together, in a set of so many lines.
#[tactic(auto, unfolding(crate::specs::Sound::is_flag))]
fn is_flag(count: usize, k: usize, locked: bool, cancelled: bool, memory: bool) -> bool
    ensures { result ≡ is_flag count k locked cancelled memory }
{
    if k < count {
        return !cancelled || !locked && !memory;
    }
    !locked && !memory && !cancelled
}

fn are_flags(
    count: usize,
    locked: &[bool; LINES],
    cancelled: &[bool; LINES],
    memory: &[bool; LINES],
) -> bool
    ensures { result ≡ are_flags count locked.now cancelled.now memory.now max_lines 0 }
{
    let mut good = true;
    for k in 0..LINES {
        good &= is_flag(count, k, locked[k], cancelled[k], memory[k]);
    }
    good
}

// Whether a line of rank k may have acted so often, in a set of so many lines.
#[tactic(auto, unfolding(crate::specs::ActCount::is_act_count))]
fn is_act_count(count: usize, k: usize, acts: u32) -> bool
    ensures { result ≡ is_act_count count k acts }
{
    if k < count {
        return acts <= ACTS_TOP;
    }
    acts == 0
}

fn are_act_counts(count: usize, acts: &[u32; LINES]) -> bool
    ensures { result ≡ are_act_counts count acts.now max_lines 0 }
{
    let mut good = true;
    for (k, acts) in acts.iter().enumerate() {
        good &= is_act_count(count, k, *acts);
    }
    good
}

// Whether the state that is held is sound for a set of so many lines; all of it but the running timers is looked at.
pub fn is_held_sound(count: usize, held: &Held) -> bool
    ensures { result ≡ state_sound count (state_held held.now) }
{
    let cells = &held.cells[INPUTS..];
    all_ranged(&held.r)
        && are_cells(cells)
        && are_fifos(&held.r, cells)
        && are_channels(held.channels)
        && are_flags(count, &held.locked, &held.cancelled, &held.memory)
        && are_act_counts(count, &held.acts)
}

// The same of a whole state.
fn is_state_sound(count: usize, state: &State) -> bool
    ensures { result ≡ state_sound count state.now }
{
    is_held_sound(count, &Held::new(*state))
}

// The lines of a set; 22 where it or a state is not sound.
#[tactic(auto, unfolding(crate::specs::Sound::is_sound))]
pub fn lines_with(set: &[u32; SIZE], state: &State) -> Result<Lines, u8>
    ensures value { result ≡ lines_with set.now state.now }
    ensures few { IfOk result (λ l. l.count ≤ max_lines) }
{
    let lines = sound_lines(set).ok_or(UNSOUND)?;
    if !is_state_sound(lines.count, state) {
        return Err(UNSOUND);
    }
    Ok(lines)
}

// Whether a set and a state are sound.
pub fn is_sound(set: &[u32; SIZE], state: State) -> bool
    ensures { result ≡ is_sound set.now state }
{
    lines_with(set, &state).is_ok()
}
