// Writes to variables: a FIFO, a cell, R.
//
// What is asked of a word (`is_fifo w`) its caller has just tested: a type for such words would be no plainer.
ghost use Rattle.std.specs.Prelude.{◌≡◌, true, false, ◌+◌, ◌≤◌, ◌<◌, length};
ghost use Rattle.tokens.specs.Token as T;
ghost use Rattle.tokens.specs.Token.{is_fifo};
ghost use Rattle.tokens.specs.Index.{is_inside};
ghost use Rattle.working.specs.Variables.{cell_count, timer_count, run_at, run};
ghost use Rattle.engine.specs.Write.{change_answer, changed, with_run, change_fifo, write_fifo, write_timer, write_cell, write_to};
ghost use Rattle.values.specs.Fifo.{places};
ghost use Rattle.engine.specs.WriteAnswers.{IsChanged, IsCelled, IsWritten};

use tokens::index::is_inside;
use tokens::token::{FIFO1, MARKER, OUT, PARAM, R, TIMER, is_fifo};
use values::arithmetic::{marker, output};
use values::codes::Alarm;
use values::fifo::{Moved, PLACES, append, empty, remove};
use values::time::{Millis, Timer, written};
use working::variables::{CELLS, COUNT_CELLS, RS, RUN_AT, TIMERS, cell_of, count_of};

// The variables of a beat under way: R, the cells, which timers run.
#[derive(Clone, Copy)]
pub struct Vars {
    pub r: [i32; RS],
    pub cells: [i32; CELLS],
    pub runs: [bool; TIMERS],
}

// What is done to a FIFO: a value goes in behind the newest, the oldest comes out, or a value that is written empties it.
#[derive(Clone, Copy, Debug, PartialEq, Eq)]
pub enum Change {
    Append(i32),
    Remove,
    Empty(i32),
}

impl Vars {
    // The run of FIFO k, from 0, with so many places in use, is changed so.
    #[tactic(auto, unfolding(crate::specs::Write::change_answer, crate::specs::Write::changed))]
    fn change_run(&mut self, k: usize, count: u8, change: Change) -> Result<Moved, Alarm>
        requires { run_at k + places ≤ length self.old.r }
        ensures value { result ≡ change_answer change (run self.old.r k) count }
        ensures r_after { self.new ≡ record self.old { r = with_run self.old.r k (changed change (run self.old.r k) count) } }
    {
        let start = RUN_AT + PLACES * k;
        let places = &mut self.r[start..start + PLACES];
        match change {
            Change::Append(v) => append(places, count, v),
            Change::Remove => remove(places, count),
            Change::Empty(v) => empty(places, count, v),
        }
    }

    // The FIFO with the word w is changed, in R and in its count.
    #[tactic(auto, unfolding(crate::specs::Write::change_fifo, working::specs::Variables::beat_count))]
    fn change_fifo(&mut self, w: u32, change: Change) -> Result<i32, Alarm>
        requires { is_fifo w ≡ true }
        ensures value { IsChanged result self.new (change_fifo self.old.r self.old.cells change w) }
        ensures same_runs { self.new.runs ≡ self.old.runs }
    {
        let k = (w - FIFO1) as usize;
        let at = COUNT_CELLS + k;
        let moved = self.change_run(k, count_of(self.cells[at]), change)?;
        self.cells[at] = moved.count as i32;
        Ok(moved.value)
    }

    // The oldest value of the FIFO with the word w is removed.
    pub(crate) fn take_oldest(&mut self, w: u32) -> Result<i32, Alarm>
        requires { is_fifo w ≡ true }
        ensures value { IsChanged result self.new (change_fifo self.old.r self.old.cells Change.Remove w) }
        ensures same_runs { self.new.runs ≡ self.old.runs }
    {
        self.change_fifo(w, Change::Remove)
    }

    // Writing FIFO [0] appends, writing [4] empties.
    #[tactic(auto, unfolding(crate::specs::Write::write_fifo))]
    fn write_fifo(&mut self, w: u32, i: u32, v: i32) -> Result<(), Alarm>
        requires { is_fifo w ≡ true }
        ensures { IsWritten result self.new (write_fifo self.old w i v) }
    {
        match i {
            0 => self.change_fifo(w, Change::Append(v))?,
            4 => self.change_fifo(w, Change::Empty(v))?,
            _ => return Err(Alarm::Unsound),
        };
        Ok(())
    }

    // A timer is written: its cell, and whether it runs.
    fn write_timer(&mut self, at: usize, i: usize, v: i32)
        requires { (at < cell_count) × (i < timer_count) }
        ensures { self.new ≡ (let c = write_timer self.old.cells self.old.runs at i v in record self.old { cells = c.cells; runs = c.runs }) }
    {
        let before = Timer {
            time: Millis(self.cells[at]),
            runs: self.runs[i],
        };
        let after = written(before, v);
        self.cells[at] = after.time.0;
        self.runs[i] = after.runs;
    }

    // Outputs, markers, parameters and timers, each by its own rule.
    #[tactic(auto, unfolding(crate::specs::Write::write_cell))]
    fn write_cell(&mut self, w: u32, i: u32, v: i32) -> Result<(), Alarm>
        requires { (is_inside w i ≡ true) × ((is_fifo w ≡ false) × (w ≡ T.R → ⊥)) }
        ensures cell { IsCelled result self.new (write_cell self.old.cells self.old.runs w i v) }
        ensures same_r { self.new.r ≡ self.old.r }
    {
        let at = cell_of(w, i);
        if w == TIMER {
            self.write_timer(at, i as usize, v);
            return Ok(());
        }
        self.cells[at] = match w {
            MARKER => marker(v)?,
            PARAM => v,
            OUT => output(v)?,
            _ => return Err(Alarm::Unsound),
        };
        Ok(())
    }

    // The variable w[i] is written.
    #[tactic(auto, unfolding(crate::specs::Write::write_to, crate::specs::Write::write_inside))]
    pub(crate) fn write(&mut self, w: u32, i: u32, v: i32) -> Result<(), Alarm>
        ensures { IsWritten result self.new (write_to self.old w i v) }
    {
        if !is_inside(w, i) {
            return Err(Alarm::Unsound);
        }
        if w == R {
            self.r[i as usize] = v;
            return Ok(());
        }
        if is_fifo(w) {
            return self.write_fifo(w, i, v);
        }
        self.write_cell(w, i, v)
    }
}
