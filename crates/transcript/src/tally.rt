// A line that says something: its beat or its call, worked in place and counted, and the lines that are printed of it.
ghost use Rattle.std.specs.Prelude.{◌≡◌, ◌++◌, ◌*◌, ◌≤◌, length};
ghost use Rattle.values.specs.PutAt.{IsPut};
ghost use Rattle.engine.specs.Order.{order_size, max_orders};
ghost use Rattle.transcript.specs.Output.{code_line, order_lines, last_start};
ghost use Rattle.transcript.specs.Tally.{counted, counted_call, answer_of, printed_by, beat_printed, said_counted, said_printed};
ghost use Rattle.transcript.specs.TotalsLaws.{FitCounts};
ghost use Rattle.transcript.specs.InPlace.{totals_at};
ghost use Rattle.transcript.specs.InPlaceLaws.{KeptBeside, SameBeside};

use crate::beat_line::{Lent, Said};
use crate::in_place::Workplace;
use crate::printing::{code_line, order_lines};
use crate::view::View;
use engine::{BeatCode, Held, State, beat_known, control_reset, program_end};
use tokens::token::SIZE;

// What is printed of a beat, by the view: C and an O per order, or nothing.
fn put_beat(view: View, beat: u32, b: BeatCode, orders: &[u8], out: &mut [u8], at: usize) -> usize
    requires room { (at ≤ last_start) × (b.orders ≤ max_orders) }
    requires long { order_size * b.orders ≤ length orders.now }
    ensures { IsPut out.old at (printed_by view (code_line beat b.code b.orders ++ order_lines b.orders orders.now)) out.new result }
{
    match view {
        View::Run => {
            let p = code_line(out, at, beat, b.code, b.orders);
            order_lines(out, p, orders, b.orders)
        }
        View::Status => at,
    }
}

// The beat over what a line lends: what is printed of it is put, and it is counted. What the order buffer has behind the orders of this beat is not looked at.
fn tally_beat(w: &mut Workplace, set: &[u32; SIZE], lent: Lent, out: &mut [u8], at: usize) -> usize
    requires { KeptBeside set.now w.old × (FitCounts w.old.counts × (at ≤ last_start)) }
    ensures totals_after { totals_at w.new ≡ counted (totals_at w.old) (answer_of set.now (totals_at w.old) lent) }
    ensures same { SameBeside w.old w.new × (w.new.intake ≡ w.old.intake) }
    ensures put { IsPut out.old at (beat_printed set.now (totals_at w.old) lent) out.new result }
{
    let b = beat_known(
        w.known,
        set,
        &w.lines,
        &mut w.held,
        lent.automatic,
        lent.word,
        lent.sent,
        &lent.positions,
        &mut w.orders,
    );
    let end = put_beat(w.counts.view, w.counts.beats.0 + 1, b, &w.orders, out, at);
    w.counts.count_fit(b.code, b.orders);
    end
}

// A call that left this state.
fn tally_call(w: &mut Workplace, left: State)
    requires { FitCounts w.old.counts }
    ensures totals_after { totals_at w.new ≡ counted_call (totals_at w.old) left }
    ensures same { SameBeside w.old w.new × (w.new.intake ≡ w.old.intake) }
{
    w.held = Held::new(left);
    w.counts.count_call_fit();
}

// What a line says: nothing is printed of a call.
pub fn tally(w: &mut Workplace, set: &[u32; SIZE], said: Said, out: &mut [u8], at: usize) -> usize
    requires { KeptBeside set.now w.old × (FitCounts w.old.counts × (at ≤ last_start)) }
    ensures totals_after { totals_at w.new ≡ said_counted set.now (totals_at w.old) said }
    ensures same { SameBeside w.old w.new × (w.new.intake ≡ w.old.intake) }
    ensures put { IsPut out.old at (said_printed set.now (totals_at w.old) said) out.new result }
{
    match said {
        Said::Beat(lent) => tally_beat(w, set, lent, out, at),
        Said::ProgramEnd => {
            let c = program_end(set, w.held.state());
            tally_call(w, c.state);
            at
        }
        Said::ControlReset => {
            let c = control_reset(set, w.held.state());
            tally_call(w, c.state);
            at
        }
    }
}
