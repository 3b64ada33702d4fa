// The variables that a line reads: where they lie, and what each reads.
//
// R lies in an array of its own. The others lie in one array of cells: the inputs, analogues and positions of the beat, then outputs, markers,
// parameters, timers, and the counts of the four FIFOs. The same table stands in specs/Variables.
ghost use Rattle.std.specs.Prelude.{◌≡◌, true};
ghost use Rattle.tokens.specs.Token.{is_fifo};
ghost use Rattle.working.specs.Variables.{cell_of, cell_start, as_count, fifo_value, fifo_at, variable_value};

use tokens::index::{first_index, is_inside};
use tokens::token::{FIFO1, IM, INA, MARKER, OUT, PARAM, R, TIMER, is_fifo};
use values::codes::Alarm;
use values::fifo::{PLACES, count_value, newest, oldest, total};

pub const TIMERS: usize = 8;

pub const FIFOS: usize = 4;
// Where the first FIFO's run of R starts, and the places of R: the runs are the last of them.
pub const RUN_AT: usize = 100;

pub const RS: usize = RUN_AT + PLACES * FIFOS;
// The cells of a state: outputs, and from these places on markers, parameters, timers and the counts of the FIFOs.
pub const MARKER_AT: usize = 16;

pub const PARAM_AT: usize = 48;

pub const TIMER_AT: usize = 80;

pub const COUNT_AT: usize = TIMER_AT + TIMERS;

pub const STATE_CELLS: usize = COUNT_AT + FIFOS;
// The input cells of a beat: a bit each of the input word, the analogues, and from the place IM_AT on the positions.
pub const BITS: usize = 16;

pub const ANALOGUES: usize = 8;

pub const POSITIONS: usize = 6;

pub const IM_AT: usize = BITS + ANALOGUES;

pub const INPUTS: usize = IM_AT + POSITIONS;
// The cells of a beat: those of its inputs, then those of the state.
pub const CELLS: usize = INPUTS + STATE_CELLS;

const MARKER_CELLS: usize = INPUTS + MARKER_AT;

const PARAM_CELLS: usize = INPUTS + PARAM_AT;

const TIMER_CELLS: usize = INPUTS + TIMER_AT;

pub const COUNT_CELLS: usize = INPUTS + COUNT_AT;

// The first cell of a variable.
fn cell_start(w: u32) -> usize
    ensures { result ≡ cell_start w }
{
    match w {
        MARKER => MARKER_CELLS,
        PARAM => PARAM_CELLS,
        TIMER => TIMER_CELLS,
        OUT => INPUTS,
        INA => BITS,
        IM => IM_AT,
        _ => 0,
    }
}

// The cell of w[i].
pub fn cell_of(w: u32, i: u32) -> usize
    ensures { result ≡ cell_of w i }
{
    let start = cell_start(w);
    let first = first_index(w);
    if i < first {
        return start;
    }
    start + (i - first) as usize
}

// A cell as the count of a FIFO; what is no count is beyond every count: no Option, for `as_count` has it so, and one test against the places is all that is made of it.
pub fn count_of(cell: i32) -> u8
    ensures { result ≡ as_count cell }
{
    if cell < 0 {
        return 255;
    }
    if (PLACES as i32) < cell {
        return 255;
    }
    cell as u8
}

// What a FIFO, its part of R and its count, reads at [1] to [4].
#[tactic(auto, unfolding(crate::specs::Variables::fifo_value))]
fn fifo_value(part: &[i32], count: u8, i: u32) -> Result<i32, Alarm>
    ensures { result ≡ fifo_value part.now count i }
{
    match i {
        1 => oldest(part, count),
        2 => newest(part, count),
        3 => total(part, count),
        4 => count_value(part, count),
        _ => Err(Alarm::Unsound),
    }
}

// What the FIFO of the word w reads, over R and the cells.
#[tactic(auto, unfolding(crate::specs::Variables::fifo_at, crate::specs::Variables::beat_count))]
fn fifo_at(r: &[i32; RS], cells: &[i32; CELLS], w: u32, i: u32) -> Result<i32, Alarm>
    requires { is_fifo w ≡ true }
    ensures { result ≡ fifo_at r.now cells.now w i }
{
    let k = (w - FIFO1) as usize;
    let start = RUN_AT + PLACES * k;
    let end = start + PLACES;
    let count = count_of(cells[COUNT_CELLS + k]);
    fifo_value(&r[start..end], count, i)
}

// What the variable w[i] reads.
#[tactic(auto, unfolding(crate::specs::Variables::variable_value))]
pub fn variable_value(r: &[i32; RS], cells: &[i32; CELLS], w: u32, i: u32) -> Result<i32, Alarm>
    ensures { result ≡ variable_value r.now cells.now w i }
{
    if !is_inside(w, i) {
        return Err(Alarm::Unsound);
    }
    if w == R {
        return Ok(r[i as usize]);
    }
    if is_fifo(w) {
        return fifo_at(r, cells, w, i);
    }
    Ok(cells[cell_of(w, i)])
}
