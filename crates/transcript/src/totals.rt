// What a session has come to so far, a line that is counted, and what is printed of it: the end, and E.
ghost use Rattle.std.specs.Prelude.{◌≡◌, ◌+◌, ◌≤◌, ◌<◌};
ghost use Rattle.engine.specs.Order.{max_orders};
ghost use Rattle.values.specs.PutAt.{IsPut};
ghost use Rattle.transcript.specs.Output.{error_line, end_room, out_size};
ghost use Rattle.transcript.specs.Totals.{no_totals, counting, counting_any, calling, calling_any, picture, ended, are_fit, last_line};
ghost use Rattle.transcript.specs.TotalsLaws.{FitCounts};

use crate::printing::{end_line, error_line, status_rows};
use crate::view::View;
use engine::{State, power_on, status_of};
use tokens::token::SIZE;
use values::time::Beats;

// After so many lines behind the line * a session ends.
pub const LAST_LINE: u32 = 1000000;

const MAX_ORDERS: u32 = engine::MAX_ORDERS as u32;

// What is printed; so far the lines behind the line *, the beats, those with a code, the orders.
#[derive(Clone, Copy)]
pub struct Counts {
    pub view: View,
    pub lines: u32,
    pub beats: Beats,
    pub coded: u32,
    pub orders: u32,
}

// So far: the counts, and the state.
#[derive(Clone, Copy)]
pub struct Totals {
    pub counts: Counts,
    pub state: State,
}

// Before the first beat.
pub fn no_totals(view: View) -> Totals
    ensures { result ≡ no_totals view }
{
    Totals {
        counts: Counts {
            view,
            lines: 0,
            beats: Beats(0),
            coded: 0,
            orders: 0,
        },
        state: power_on(),
    }
}

impl Counts {
    // Whether a session may have these counts with a line still to come.
    #[tactic(auto, unfolding(crate::specs::Totals::are_fit))]
    pub fn are_fit(&self) -> bool
        ensures { result ≡ are_fit self.now }
    {
        let beats = self.beats.0;
        self.lines < LAST_LINE
            && beats <= self.lines
            && self.coded <= beats
            && self.orders <= beats * MAX_ORDERS
    }

    // A line and its beat are counted, of this code and so many orders, where a line is still to come.
    pub(crate) fn count_fit(&mut self, code: u8, orders: u32)
        requires { FitCounts self.old × (orders ≤ max_orders) }
        ensures { self.new ≡ counting self.old code orders }
    {
        self.lines += 1;
        self.beats = Beats(self.beats.0 + 1);
        self.coded += u32::from(code != 0);
        self.orders += orders;
    }

    // A line that is no beat is counted, where a line is still to come.
    pub(crate) fn count_call_fit(&mut self)
        requires { FitCounts self.old }
        ensures { self.new ≡ calling self.old }
    {
        self.lines += 1;
    }

    // The first of any counts and any number of orders: the counts stay as they are where no session has them with a line still to come, or where the orders are more than a beat may have.
    #[tactic(auto, unfolding(crate::specs::Totals::counting_any))]
    pub fn count(&mut self, code: u8, orders: u32)
        ensures { self.new ≡ counting_any self.old code orders }
    {
        if self.are_fit() && orders <= MAX_ORDERS {
            self.count_fit(code, orders);
        }
    }

    // The second of any counts, the like.
    #[tactic(auto, unfolding(crate::specs::Totals::calling_any))]
    pub fn count_call(&mut self)
        ensures { self.new ≡ calling_any self.old }
    {
        if self.are_fit() {
            self.count_call_fit();
        }
    }
}

// The status picture.
fn put_picture(set: &[u32; SIZE], state: State, out: &mut [u8], at: usize) -> usize
    requires { at + end_room ≤ out_size }
    ensures { IsPut out.old at (picture set.now state) out.new result }
{
    let Ok(x) = status_of(set, state) else {
        return at;
    };
    status_rows(out, at, x.lines, x.count)
}

// The end, by the view: END, or the status picture.
pub fn put_end(totals: Totals, set: &[u32; SIZE], out: &mut [u8], at: usize) -> usize
    requires { at + end_room ≤ out_size }
    ensures { IsPut out.old at (ended set.now totals) out.new result }
{
    let counts = totals.counts;
    match counts.view {
        View::Run => end_line(out, at, counts.beats.0, counts.coded, counts.orders),
        View::Status => put_picture(set, totals.state, out, at),
    }
}

// E of the line behind those that were taken.
pub fn put_error(counts: &Counts, out: &mut [u8], at: usize) -> usize
    requires { (counts.now.lines < last_line) × (at ≤ out_size) }
    ensures { IsPut out.old at (error_line (counts.now.lines + 1)) out.new result }
{
    error_line(out, at, counts.lines + 1)
}
