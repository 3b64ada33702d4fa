// Time: beats that the host counts, milliseconds that timers hold, and how a timer grows and is written.
ghost use Rattle.std.specs.Prelude.{◌≡◌};
ghost use Rattle.values.specs.Time.{millis_of, grown_timer, written_timer};

use crate::arithmetic::TOP;

// The milliseconds of one beat.
const BEAT_MILLIS: u32 = 4;

// A count of beats. It is no time, and no other count.
#[derive(Clone, Copy)]
pub struct Beats(pub u32);

// A time in milliseconds: as a value, thousandths of a second.
#[derive(Clone, Copy)]
pub struct Millis(pub i32);

// A timer: the time it shows, and whether it runs.
#[derive(Clone, Copy)]
pub struct Timer {
    pub time: Millis,
    pub runs: bool,
}

// The time that a number of beats takes, at most the top: the only place that turns beats into milliseconds.
#[tactic(auto, unfolding(crate::specs::Time::millis_of))]
fn millis_of(beats: Beats) -> Millis
    ensures { result ≡ millis_of beats }
{
    if TOP as u32 / BEAT_MILLIS < beats.0 {
        return Millis(TOP);
    }
    Millis((beats.0 * BEAT_MILLIS) as i32)
}

// A timer at the start of a beat: one that runs has grown by the time of one beat, never beyond the top.
#[tactic(auto, unfolding(crate::specs::Time::grown_timer, crate::specs::Time::millis_of, crate::specs::Value::less_than))]
pub fn grown(timer: Timer) -> Timer
    ensures { result ≡ grown_timer timer }
{
    if !timer.runs {
        return timer;
    }
    let time = timer.time.0;
    let step = millis_of(Beats(1)).0;
    if TOP - step < time {
        return Timer {
            time: Millis(TOP),
            runs: true,
        };
    }
    Timer {
        time: Millis(time + step),
        runs: true,
    }
}

// A timer after a value was written to it: 0 or more sets it and makes it run, a negative one stops it and keeps its time.
#[tactic(auto, unfolding(crate::specs::Time::written_timer, crate::specs::Value::less_than))]
pub fn written(timer: Timer, v: i32) -> Timer
    ensures { result ≡ written_timer timer v }
{
    if v < 0 {
        return Timer {
            time: timer.time,
            runs: false,
        };
    }
    Timer {
        time: Millis(v),
        runs: true,
    }
}
