// The state: every variable but the inputs, what the channels keep, and for each line, by rank, whether it is locked, cancelled, its memory, and how often it acted.
ghost use Rattle.std.specs.Prelude.{◌≡◌};
ghost use Rattle.engine.specs.State.{power_on};

use couplers::channel::{CHANNELS, Channel, fresh_channels};
use tokens::token::LINES;
use working::variables::{RS, STATE_CELLS, TIMERS};

// A count of acts stays here once it is there.
pub const ACTS_TOP: u32 = 4_000_000_000;

// An array for each thing that a line has, and no array of lines: the definitions and theorems speak of each list by itself (`are_flags`, `counted_acts`), and `Held` and the beat under way keep what it has.
#[derive(Clone, Copy)]
pub struct State {
    pub r: [i32; RS],
    pub cells: [i32; STATE_CELLS],
    pub runs: [bool; TIMERS],
    pub channels: [Channel; CHANNELS],
    pub locked: [bool; LINES],
    pub cancelled: [bool; LINES],
    pub memory: [bool; LINES],
    pub acts: [u32; LINES],
}

// The state of power-on: all 0, timers stopped, no channel ever good, no lock, cancel or memory, no line acted.
pub fn power_on() -> State
    ensures { result ≡ power_on }
{
    let channels = fresh_channels();
    State {
        r: [0i32; RS],
        cells: [0i32; STATE_CELLS],
        runs: [false; TIMERS],
        channels: channels,
        locked: [false; LINES],
        cancelled: [false; LINES],
        memory: [false; LINES],
        acts: [0u32; LINES],
    }
}
