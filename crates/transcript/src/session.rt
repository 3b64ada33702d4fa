// A session: over a piece of input the lines of its set are read once, its state is held for the beats, the piece is worked in place, and the session is put together.
ghost use Rattle.std.specs.Prelude.{◌≡◌, ◌+◌, ◌≤◌, length};
ghost use Rattle.values.specs.PutAt.{put_at, IsPut};
ghost use Rattle.transcript.specs.Intake.{is_over};
ghost use Rattle.transcript.specs.Machine.{begun, is_fit, end_after, finished_text, worked};
ghost use Rattle.transcript.specs.Output.{end_room, out_size};
ghost use Rattle.transcript.specs.SessionAnswers.{machine_of, step_answer};

use crate::in_place::{Workplace, work_arrival, work_lines};
use crate::intake::Intake;
use crate::printing::OUT;
use crate::set_text::KEPT;
use crate::totals::{Totals, no_totals, put_end};
use crate::view::View;
use tokens::token::SIZE;

// What is kept between two pieces of input.
#[derive(Clone, Copy)]
pub struct Session {
    pub intake: Intake,
    pub totals: Totals,
}

// What a piece of input came to: how much of it was taken, and how many bytes were written.
#[derive(Clone, Copy)]
pub struct Stepped {
    pub session: Session,
    pub taken: usize,
    pub written: usize,
}

// Before the first byte of input.
pub fn begin(view: View) -> Session
    ensures { result ≡ begun view }
{
    Session {
        intake: Intake::new(),
        totals: no_totals(view),
    }
}

// Whether a session is over: it prints nothing more.
pub fn is_over(session: Session) -> bool
    ensures { result ≡ is_over session.intake }
{
    session.intake.is_over()
}

// Whether a session could have come from a beginning.
#[tactic(auto, unfolding(crate::specs::Machine::is_fit))]
fn is_fit(session: &Session) -> bool
    ensures { result ≡ is_fit session.now }
{
    session.intake.fits() && session.totals.counts.are_fit()
}

// A piece of input. What is left of it goes in again.
pub fn step(
    session: Session,
    text: &mut [u8; KEPT],
    set: &mut [u32; SIZE],
    input: &[u8],
    out: &mut [u8; OUT],
) -> Stepped
    ensures value { result ≡ step_answer (worked (machine_of text.old set.old session) input.now) }
    ensures text_after { text.new ≡ (worked (machine_of text.old set.old session) input.now).machine.text }
    ensures set_after { set.new ≡ (worked (machine_of text.old set.old session) input.now).machine.set }
    ensures out_after { out.new ≡ put_at out.old 0 (worked (machine_of text.old set.old session) input.now).output }
{
    if !is_fit(&session) {
        return Stepped {
            session,
            taken: input.len(),
            written: 0,
        };
    }
    let mut w = Workplace::new(session, set);
    let p = work_lines(&mut w, text, set, input, out);
    Stepped {
        session: w.session(),
        taken: p.taken,
        written: p.written,
    }
}

// The end, where lines are still awaited.
#[tactic(auto, unfolding(crate::specs::Machine::end_after))]
fn put_last(session: Session, set: &[u32; SIZE], out: &mut [u8], at: usize) -> usize
    requires { at + end_room ≤ out_size }
    ensures { IsPut out.old at (end_after set.now session) out.new result }
{
    if !session.intake.in_beats() {
        return at;
    }
    put_end(session.totals, set, out, at)
}

// The end of input: what is still to be printed, and how many bytes it is.
pub fn finish(session: Session, text: &[u8; KEPT], set: &[u32; SIZE], out: &mut [u8; OUT]) -> usize
    ensures value { result ≡ length (finished_text (machine_of text.now set.now session)) }
    ensures out_after { out.new ≡ put_at out.old 0 (finished_text (machine_of text.now set.now session)) }
{
    if !is_fit(&session) {
        return 0;
    }
    let mut own = *set;
    let mut w = Workplace::new(session, &own);
    let end = work_arrival(&mut w, session.intake.end_input(), text, &mut own, out, 0);
    put_last(w.session(), &own, out, end)
}
