// The timers among the cells of a state.
ghost use Rattle.std.specs.Prelude.{◌≡◌, ◌+◌, length};
ghost use Rattle.working.specs.Variables.{timer_count, state_cells};
ghost use Rattle.engine.specs.Timers.{grown_cells};

use values::time::{Millis, Timer, grown};
use working::variables::{TIMER_AT, TIMERS};

// The running timers grow.
#[tactic(auto, unfolding(crate::specs::Timers::grown_cells))]
pub fn grow_timers(cells: &mut [i32], runs: &[bool; TIMERS])
    requires { length cells.old ≡ state_cells }
    ensures { cells.new ≡ grown_cells runs.now cells.old timer_count }
{
    for (i, runs) in runs.iter().enumerate() {
        let at = TIMER_AT + i;
        let grown = grown(Timer {
            time: Millis(cells[at]),
            runs: *runs,
        });
        cells[at] = grown.time.0;
    }
}
