// The host's calls: lock, unlock, cancel, program end and control reset. Each answers a code, 0 for success, and the state.
ghost use Rattle.std.specs.Prelude.{◌≡◌, ◌≤◌, ◌<◌, length};
ghost use Rattle.engine.specs.ActCount.{reset_acts};
ghost use Rattle.engine.specs.Calls.{with_cancelled, answered, lock_call, unlock_call, cancel_call, ended_line, program_ended, program_end_call, reset_cancelled, control_reset_call, locked_call, zeroed};
ghost use Rattle.working.specs.Variables.{count_at};
ghost use Rattle.tokens.specs.Token.{max_lines};

use crate::named_line::find;
use crate::set::Lines;
use crate::sound::lines_with;
use crate::state::State;
use checking::Line;
use tokens::token::{LINES, SIZE};
use working::variables::{COUNT_AT, MARKER_AT, TIMERS};

// What a call answers. The state is there on a refusal too, as it was given: a host passes it on whatever the code, and the theorems of demands speak of it; so this is no Result.
#[derive(Clone, Copy)]
pub struct Called {
    pub code: u8,
    pub state: State,
}

// The answer of a call that gives a state, or is refused with this one as it is.
fn answer(state: State, given: Result<State, u8>) -> Called
    ensures { result ≡ answered state given }
{
    match given {
        Ok(next) => Called {
            code: 0,
            state: next,
        },
        Err(code) => Called { code, state },
    }
}

// The line with the number n is locked, or not.
#[tactic(auto, unfolding(crate::specs::Calls::locked_call, crate::specs::Calls::called))]
fn set_lock(set: &[u32; SIZE], state: &State, n: u32, on: bool) -> Result<State, u8>
    ensures { answered state.now result ≡ locked_call set.now state.now n on }
{
    let k = find(set, state, n)?;
    let mut next = *state;
    next.locked[k] = on;
    Ok(next)
}

// The line with the number n is locked.
#[tactic(auto, unfolding(crate::specs::Calls::lock_call))]
pub fn lock(set: &[u32; SIZE], state: State, n: u32) -> Called
    ensures { result ≡ lock_call set.now state n }
{
    answer(state, set_lock(set, &state, n, true))
}

// The line with the number n is unlocked.
#[tactic(auto, unfolding(crate::specs::Calls::unlock_call))]
pub fn unlock(set: &[u32; SIZE], state: State, n: u32) -> Called
    ensures { result ≡ unlock_call set.now state n }
{
    answer(state, set_lock(set, &state, n, false))
}

// The line of rank k is cancelled, without lock and memory.
fn with_cancelled(state: State, k: usize) -> State
    requires { k < max_lines }
    ensures { result ≡ with_cancelled state k }
{
    let mut next = state;
    next.locked[k] = false;
    next.cancelled[k] = true;
    next.memory[k] = false;
    next
}

#[tactic(auto, unfolding(crate::specs::Calls::cancel_call, crate::specs::Calls::called))]
fn cancel_line(set: &[u32; SIZE], state: &State, n: u32) -> Result<State, u8>
    ensures { answered state.now result ≡ cancel_call set.now state.now n }
{
    let k = find(set, state, n)?;
    Ok(with_cancelled(*state, k))
}

// The line with the number n is cancelled, until the next load.
pub fn cancel(set: &[u32; SIZE], state: State, n: u32) -> Called
    ensures { result ≡ cancel_call set.now state n }
{
    answer(state, cancel_line(set, &state, n))
}

// The line of rank k is cancelled if it is ID and still live.
#[tactic(auto, unfolding(crate::specs::Calls::ended_line))]
fn end_line(line: &Line, state: State, k: usize) -> State
    requires { k < max_lines }
    ensures { result ≡ ended_line line.now state k }
{
    if line.ids || state.cancelled[k] {
        return state;
    }
    with_cancelled(state, k)
}

#[tactic(auto, unfolding(crate::specs::Calls::program_ended, crate::specs::Calls::program_end_call))]
fn end_lines(set: &[u32; SIZE], state: &State) -> Result<State, u8>
    ensures { answered state.now result ≡ program_end_call set.now state.now }
{
    let lines = lines_with(set, state)?;
    let mut next = *state;
    for k in 0..lines.count {
        next = end_line(&lines.items[k], next, k);
    }
    Ok(next)
}

// Program end: each ID line still live is cancelled; all else stays.
pub fn program_end(set: &[u32; SIZE], state: State) -> Called
    ensures { result ≡ program_end_call set.now state }
{
    answer(state, end_lines(set, &state))
}

// Every ID line is cancelled.
#[tactic(auto, unfolding(crate::specs::Calls::reset_cancelled))]
fn cancel_ids(lines: &Lines, cancelled: &mut [bool; LINES])
    requires { lines.now.count ≤ max_lines }
    ensures { cancelled.new ≡ reset_cancelled lines.now.items cancelled.old lines.now.count }
{
    for k in 0..lines.count {
        if !lines.items[k].ids {
            cancelled[k] = true;
        }
    }
}

// Markers, parameters and timers are 0.
#[tactic(auto, unfolding(crate::specs::Calls::zeroed))]
fn zero_cells(cells: &mut [i32])
    requires { count_at ≤ length cells.old }
    ensures { cells.new ≡ zeroed cells.old }
{
    cells[MARKER_AT..COUNT_AT].fill(0);
}

// A line that is still live counts from 0 again; a cancelled one keeps its count.
#[tactic(auto, unfolding(crate::specs::ActCount::reset_acts))]
fn reset_acts(cancelled: &[bool; LINES], acts: &mut [u32; LINES])
    ensures { acts.new ≡ reset_acts cancelled.now acts.old max_lines }
{
    for (k, cancelled) in cancelled.iter().enumerate() {
        if !*cancelled {
            acts[k] = 0;
        }
    }
}

#[tactic(auto, unfolding(crate::specs::Calls::control_reset_call, crate::specs::Calls::control_reset_state))]
fn reset(set: &[u32; SIZE], state: &State) -> Result<State, u8>
    ensures { answered state.now result ≡ control_reset_call set.now state.now }
{
    let lines = lines_with(set, state)?;
    let mut cells = state.cells;
    zero_cells(&mut cells);
    let mut cancelled = state.cancelled;
    cancel_ids(&lines, &mut cancelled);
    let mut acts = state.acts;
    reset_acts(&cancelled, &mut acts);
    Ok(State {
        r: state.r,
        cells,
        runs: [false; TIMERS],
        channels: state.channels,
        locked: [false; LINES],
        cancelled,
        memory: [false; LINES],
        acts,
    })
}

// Control reset: ID lines are cancelled, IDS lines unlocked and their memory cleared, markers and parameters 0, timers stopped at 0; the counts of lines still live begin at 0; R, FIFOs, outputs and what the channels keep stay.
pub fn control_reset(set: &[u32; SIZE], state: State) -> Called
    ensures { result ≡ control_reset_call set.now state }
{
    answer(state, reset(set, &state))
}
