// What synrun and synstat do alike: reads standard input, hands it to a session piece by piece, and writes what the session prints. Nothing else happens here.
//
// Where reading or writing fails it says so on standard error, by the program's name, and stops, without what stands at the end.
#![tactic(auto)]

ghost use Rattle.std.specs.Prelude.{IfOk, ◌≡◌, not};
ghost use Rattle.transcript.specs.Intake.{is_over};
ghost use Rattle.transcript.specs.Machine.{LeadsTo};
ghost use Rattle.transcript.specs.SessionAnswers.{machine_of};

use engine::empty_set;
use std::io::Read;
use tokens::token::SIZE;
use transcript::{KEPT, OUT, Session, View, begin, finish, is_over, step};

// The bytes that are read at once.
const PIECE: usize = 65536;

// What failed: reading or writing.
#[derive(Clone, Copy, Debug, PartialEq, Eq)]
enum PipeError {
    Input,
    Output,
}

// A session behind a piece of input, and whether more of its input is wanted.
#[derive(Clone, Copy)]
struct Next {
    session: Session,
    more: bool,
}

// Writes what was printed.
fn write(output: &impl Print, part: &[u8]) -> Result<(), PipeError> {
    output.write_all(part).map_err(|_| PipeError::Output)
}

// Hands over one piece of input, and writes what it prints, up to a write that fails.
fn hand_over(
    output: &impl Print,
    first: Session,
    text: &mut [u8; KEPT],
    set: &mut [u32; SIZE],
    piece: &[u8],
) -> Result<Next, PipeError>
    ensures leads_to { IfOk result (λ next. LeadsTo (machine_of text.old set.old first) piece.now (machine_of text.new set.new next.session)) }
    ensures more_value { IfOk result (λ next. next.more ≡ not (is_over next.session.intake)) }
{
    let mut session = first;
    let mut rest = piece;
    // A step takes as many bytes as it likes: no `for` counts them.
    while !rest.is_empty() {
        let mut out = [0u8; OUT];
        let x = step(session, text, set, rest, &mut out);
        write(output, &out[..x.written])?;
        session = x.session;
        rest = rest.split_at(x.taken).1;
    }
    Ok(Next {
        session,
        more: !is_over(session),
    })
}

// All of the input through a session of this view, up to its end.
fn pipe(mut input: impl Read + Drop, output: &impl Print, view: View) -> Result<(), PipeError> {
    let mut text = [0u8; KEPT];
    let mut set = empty_set();
    let mut session = begin(view);
    let mut piece = [0u8; PIECE];
    // A proved loop has to end, and nothing says that an input does: no run uses up so many rounds.
    for _ in 0..u64::MAX {
        let n = input.read(&mut piece).map_err(|_| PipeError::Input)?;
        if n == 0 {
            break;
        }
        let next = hand_over(output, session, &mut text, &mut set, &piece[..n])?;
        session = next.session;
        if !next.more {
            break;
        }
    }
    let mut out = [0u8; OUT];
    let n = finish(session, &text, &set, &mut out);
    write(output, &out[..n])
}

// So, and it says what fails; where not even that can be written, nothing more is said. The programs hand it their standard input, output and error.
// It answers nothing: of what is read and written no contract can say anything.
pub fn pipe_through(
    input: impl Read + Drop,
    output: &impl Print,
    errors: &impl Print,
    view: View,
    program: &[u8],
) {
    let Err(e) = pipe(input, output, view) else {
        return;
    };
    let _ = errors.write_all(program);
    let _ = errors.write_all(match e {
        PipeError::Input => b": standard input cannot be read\n",
        PipeError::Output => b": standard output cannot be written\n",
    });
}
