// A state as the beats in place hold it: its cells stand behind the 30 input cells of a beat.
//
// A struct of its own beside `State`, for the walk finds inputs and cells in one array (`cell_of`), and the promises of `beat_over` and `beat` speak of the one and of the other (`held_of`, `state_held`).
ghost use Rattle.std.specs.Prelude.{◌≡◌};
ghost use Rattle.engine.specs.Held.{held_of, state_held};

use crate::cells::{kept_cells, spread_cells};
use crate::state::State;
use couplers::channel::{CHANNELS, Channel};
use tokens::token::LINES;
use working::variables::{CELLS, RS, TIMERS};

#[derive(Clone, Copy)]
pub struct Held {
    pub r: [i32; RS],
    pub cells: [i32; CELLS],
    pub runs: [bool; TIMERS],
    pub channels: [Channel; CHANNELS],
    pub locked: [bool; LINES],
    pub cancelled: [bool; LINES],
    pub memory: [bool; LINES],
    pub acts: [u32; LINES],
}

impl Held {
    // A state, held for a beat.
    pub fn new(state: State) -> Held
        ensures { result ≡ held_of state }
    {
        Held {
            r: state.r,
            cells: spread_cells(&state.cells),
            runs: state.runs,
            channels: state.channels,
            locked: state.locked,
            cancelled: state.cancelled,
            memory: state.memory,
            acts: state.acts,
        }
    }

    // The state that is held.
    pub fn state(&self) -> State
        ensures { result ≡ state_held self.now }
    {
        State {
            r: self.r,
            cells: kept_cells(&self.cells),
            runs: self.runs,
            channels: self.channels,
            locked: self.locked,
            cancelled: self.cancelled,
            memory: self.memory,
            acts: self.acts,
        }
    }
}
