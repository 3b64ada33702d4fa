// A session worked in place over a piece of input: the lines of the set that were read, and the state as it is held, which the beats and the calls write. What came in is worked and printed.
//
// Anyone may make a session, with any counts: `step` tests it (`is_fit`), and what is then asked inside (`FitCounts`, `KeptBeside`) is no invariant of a type.
ghost use Rattle.std.specs.Prelude.{◌≡◌, true, List, ℕ, ◌+◌, ◌≤◌};
ghost use Rattle.transcript.specs.Machine.{is_fit, opened, said_of, said_end, arrival_worked, line_end, worked};
ghost use Rattle.transcript.specs.Output.{last_start, end_room, out_size};
ghost use Rattle.transcript.specs.SessionAnswers.{IsFed, IsWorked, machine_of};
ghost use Rattle.transcript.specs.InPlace.{totals_at, session_at, machine_at, behind_last};
ghost use Rattle.transcript.specs.InPlaceLaws.{MayCome, KeptBeside, SameBeside};
ghost use Rattle.transcript.specs.TotalsLaws.{FitCounts};
ghost use Rattle.transcript.specs.SessionRoomLaws.{Lives};

use crate::beat_line::Said;
use crate::intake::{Arrival, Arrived, Intake};
use crate::printing::{LAST_START, OUT, load_line};
use crate::session::Session;
use crate::set_text::KEPT;
use crate::tally::tally;
use crate::totals::{Counts, LAST_LINE, Totals, put_end, put_error};
use engine::{Held, Lines, ORDERS, is_sound_over, sound_lines};
use reader::load;
use text::bytes::{Kind, run_end};
use tokens::token::SIZE;

// A session while a piece of input is worked: the intake, the counts, the state as it is held; beside the set, the lines that were read of it and whether they and the state are sound; the orders of the last beat.
#[derive(Clone, Copy)]
pub struct Workplace {
    pub intake: Intake,
    pub counts: Counts,
    pub held: Held,
    pub lines: Option<Lines>,
    pub known: bool,
    pub orders: [u8; ORDERS],
}

// What a piece of input came to, beside what is written in place.
#[derive(Clone, Copy)]
pub struct Piece {
    pub taken: usize,
    pub written: usize,
}

impl Workplace {
    // A session to be worked over this set.
    pub(crate) fn new(session: Session, set: &[u32; SIZE]) -> Workplace
        ensures same { session_at result ≡ session }
        ensures beside { KeptBeside set.now result }
    {
        let mut w = Workplace {
            intake: session.intake,
            counts: session.totals.counts,
            held: Held::new(session.totals.state),
            lines: None,
            known: false,
            orders: [0; ORDERS],
        };
        w.read(set);
        w
    }

    // The lines of a set are read, and it is looked whether they and the state are sound. The slices are there that the sizes are told.
    fn read(&mut self, set: &[u32; SIZE])
        ensures same { session_at self.new ≡ session_at self.old }
        ensures beside { KeptBeside set.now self.new }
    {
        let _set = &set[..];
        let _r = &self.held.r[..];
        let _cells = &self.held.cells[..];
        self.lines = sound_lines(set);
        self.known = is_sound_over(&self.lines, &self.held);
    }

    pub(crate) fn totals(&self) -> Totals
        ensures { result ≡ totals_at self.now }
    {
        Totals {
            counts: self.counts,
            state: self.held.state(),
        }
    }

    // The session that is worked.
    pub(crate) fn session(&self) -> Session
        ensures { result ≡ session_at self.now }
    {
        Session {
            intake: self.intake,
            totals: self.totals(),
        }
    }
}

// ---- what came in is worked

// Behind a line that was counted: the end, if it is the last.
fn end_behind(w: &mut Workplace, set: &[u32; SIZE], out: &mut [u8], at: usize) -> usize
    requires { at + end_room ≤ out_size }
    ensures same { (SameBeside w.old w.new) × (w.new.held ≡ w.old.held) }
    ensures fed { (t : List ℕ) → IsFed (behind_last (machine_at t set.now w.old)) (machine_at t set.now w.new) out.old at out.new result }
{
    if w.counts.lines != LAST_LINE {
        return at;
    }
    w.intake = w.intake.stop();
    put_end(w.totals(), set, out, at)
}

// A line that says something: what is printed of it, and the end behind the last line.
fn work_said(w: &mut Workplace, set: &[u32; SIZE], said: Said, out: &mut [u8], at: usize) -> usize
    requires { KeptBeside set.now w.old × (FitCounts w.old.counts × (at ≤ last_start)) }
    ensures beside { KeptBeside set.now w.new }
    ensures fed { (t : List ℕ) → IsFed (said_of (machine_at t set.now w.old) said) (machine_at t set.now w.new) out.old at out.new result }
{
    let end = tally(w, set, said, out, at);
    end_behind(w, set, out, end)
}

// A line behind the line *: E if it is ill-formed.
fn work_line(
    w: &mut Workplace,
    set: &[u32; SIZE],
    said: Option<Said>,
    out: &mut [u8],
    at: usize,
) -> usize
    requires { KeptBeside set.now w.old × (FitCounts w.old.counts × (at ≤ last_start)) }
    ensures beside { KeptBeside set.now w.new }
    ensures fed { (t : List ℕ) → IsFed (said_end (machine_at t set.now w.old) said) (machine_at t set.now w.new) out.old at out.new result }
{
    let Some(said) = said else {
        w.intake = w.intake.stop();
        return put_error(&w.counts, out, at);
    };
    work_said(w, set, said, out, at)
}

// The set text is whole.
fn open_set(w: &mut Workplace, t: &[u8], set: &mut [u32; SIZE], out: &mut [u8], at: usize) -> usize
    requires { at ≤ last_start }
    ensures beside { KeptBeside set.new w.new }
    ensures fed { (m s : List ℕ) → IsFed (opened (machine_at m s w.old) t.now) (machine_at m set.new w.new) out.old at out.new result }
{
    let l = load(t, set);
    w.read(set);
    if l.code == 0 {
        return at;
    }
    w.intake = w.intake.stop();
    load_line(out, at, l.code, l.line)
}

// What the end of a line, or of the input, brought.
pub fn work_arrival(
    w: &mut Workplace,
    arrived: Arrived,
    text: &[u8; KEPT],
    set: &mut [u32; SIZE],
    out: &mut [u8],
    at: usize,
) -> usize
    requires { KeptBeside set.old w.old × (MayCome arrived w.old.counts × (at ≤ last_start)) }
    ensures beside { KeptBeside set.new w.new }
    ensures fed { IsFed (arrival_worked (machine_of text.now set.old (record { intake = arrived.intake; totals = totals_at w.old })) arrived.arrival) (machine_at text.now set.new w.new) out.old at out.new result }
{
    w.intake = arrived.intake;
    match arrived.arrival {
        Arrival::Nothing => at,
        Arrival::WholeText(size) => open_set(w, &text[..size], set, out, at),
        Arrival::LineCame(said) => work_line(w, set, said, out, at),
    }
}

// An LF: what it brings is worked.
fn line_end(
    w: &mut Workplace,
    text: &mut [u8; KEPT],
    set: &mut [u32; SIZE],
    out: &mut [u8],
    at: usize,
) -> usize
    requires { KeptBeside set.old w.old × (Lives (session_at w.old) × (at ≤ last_start)) }
    ensures beside { KeptBeside set.new w.new }
    ensures fed { IsFed (line_end (machine_at text.old set.old w.old)) (machine_at text.new set.new w.new) out.old at out.new result }
{
    let arrived = w.intake.end_line_kept(text);
    work_arrival(w, arrived, text, set, out, at)
}

// ---- a piece of input

// A piece of input, line by line while there is room for what one more line may print. It ends by that room or by the input, and a line ends where its bytes say: no `for` counts it.
pub fn work_lines(
    w: &mut Workplace,
    text: &mut [u8; KEPT],
    set: &mut [u32; SIZE],
    input: &[u8],
    out: &mut [u8; OUT],
) -> Piece
    requires { KeptBeside set.old w.old × (is_fit (session_at w.old) ≡ true) }
    ensures { IsWorked (worked (machine_at text.old set.old w.old) input.now) (machine_at text.new set.new w.new) result.taken out.old out.new result.written }
{
    let mut i: usize = 0;
    let mut at: usize = 0;
    while at <= LAST_START {
        let end = run_end(input, i, Kind::Line);
        w.intake = w.intake.take_in_kept(text, &input[i..end]);
        if input.len() <= end {
            return Piece {
                taken: end,
                written: at,
            };
        }
        at = line_end(w, text, set, out, at);
        i = end + 1;
    }
    Piece {
        taken: i,
        written: at,
    }
}
