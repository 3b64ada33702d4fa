// The cells of a beat: inputs, analogues and positions, then the cells of the state with the timers grown; and the state's part of them.
ghost use Rattle.std.specs.Prelude.{◌≡◌, ◌++◌, ◌+◌, ◌≤◌, length, take, drop, cond, eqb, pos};
ghost use Rattle.values.specs.Value.{unit};
ghost use Rattle.working.specs.Variables.{bit_count, analogue_count, position_count, input_count, cell_count};
ghost use Rattle.engine.specs.Cells.{input_cells, beat_cells, spread_cells};

use crate::timers::grow_timers;
use values::arithmetic::UNIT;
use working::variables::{BITS, CELLS, IM_AT, INPUTS, STATE_CELLS, TIMERS};

fn input_cell(bit: u16) -> i32
    ensures { result ≡ cond (eqb bit 1) (pos unit) (pos 0) }
{
    if bit == 1 { UNIT } else { 0 }
}

// Bit i-1 of the input word becomes the cell of $A_IN[i].
#[tactic(auto, unfolding(crate::specs::Cells::input_cells))]
fn put_inputs(cells: &mut [i32], word: u16)
    requires { bit_count ≤ length cells.old }
    ensures { cells.new ≡ input_cells word bit_count ++ drop bit_count cells.old }
{
    let mut rest = word;
    for i in 0..BITS {
        cells[i] = input_cell(rest % 2);
        rest /= 2;
    }
}

// The cells of a beat, in place: inputs, analogues, positions, the state's cells with the timers grown.
#[tactic(auto, unfolding(crate::specs::Cells::beat_cells))]
pub fn begin_cells(
    cells: &mut [i32],
    runs: &[bool; TIMERS],
    word: u16,
    values: &[i32],
    lent: &[i32],
)
    requires { (length cells.old ≡ cell_count) × ((length values.now ≡ analogue_count) × (length lent.now ≡ position_count)) }
    ensures { cells.new ≡ beat_cells word values.now lent.now runs.now (drop input_count cells.old) }
{
    grow_timers(&mut cells[INPUTS..CELLS], runs);
    put_inputs(cells, word);
    cells[BITS..IM_AT].copy_from_slice(values);
    cells[IM_AT..INPUTS].copy_from_slice(lent);
}

// The cells of a state, behind input cells that are 0.
#[tactic(auto, unfolding(crate::specs::Cells::spread_cells))]
pub fn spread_cells(from: &[i32; STATE_CELLS]) -> [i32; CELLS]
    ensures { result ≡ spread_cells from.now }
{
    let mut cells = [0i32; CELLS];
    cells[INPUTS..].copy_from_slice(from);
    cells
}

// The state's part of the cells of a beat.
pub fn kept_cells(cells: &[i32; CELLS]) -> [i32; STATE_CELLS]
    ensures { result ≡ drop input_count cells.now }
{
    let mut kept = [0i32; STATE_CELLS];
    kept.copy_from_slice(&cells[INPUTS..]);
    kept
}
