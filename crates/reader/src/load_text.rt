// Loading a text.
ghost use Rattle.std.specs.Prelude.{◌≡◌};
ghost use Rattle.engine.specs.Set.{empty_set};
ghost use Rattle.reader.specs.Load.{answered, load_answer, load_set};
ghost use Rattle.reader.specs.Draft.{answer_of};

use crate::by_number::{first_unknown, put_rows};
use crate::draft::{Refused, no_draft};
use crate::line_count::count_lines;
use crate::lines::read_lines;
use engine::{State, empty_set, power_on};
use tokens::token::{LINES, SIZE, TEXT_SIZE};
use values::codes::{NOT_IN_SET, TOO_LONG, TOO_MANY_LINES};

// What loading answers: 0 and 0 if the text is taken, else a code and a line; and the state, that of power-on in each case. It is there on a refusal too, and the theorems on loading speak of all three (`load_answer`): so this is no Result.
#[derive(Clone, Copy)]
pub struct Loaded {
    pub code: u8,
    pub line: u32,
    pub state: State,
}

fn answered(code: u8, line: u32) -> Loaded
    ensures { result ≡ answered code line }
{
    Loaded {
        code: code,
        line: line,
        state: power_on(),
    }
}

// Loading a text into a set: 1 and 2 first, then the first faulty line, then 12. On any code the set is empty; until its curves and lines are put, each line stands there by itself while it is checked.
pub fn load(text: &[u8], set: &mut [u32; SIZE]) -> Loaded
    ensures value { result ≡ load_answer text.now }
    ensures set_after { set.new ≡ load_set text.now }
{
    *set = empty_set();
    match take_text(text, set) {
        Ok(()) => answered(0, 0),
        Err(r) => answered(r.code, r.line),
    }
}

// The text is taken into the set, which is empty before, or refused.
fn take_text(text: &[u8], set: &mut [u32; SIZE]) -> Result<(), Refused>
    requires { set.old ≡ empty_set }
    ensures { (answer_of result ≡ load_answer text.now) × (set.new ≡ load_set text.now) }
{
    if TEXT_SIZE < text.len() {
        return Err(Refused {
            code: TOO_LONG,
            line: 0,
        });
    }
    if LINES < count_lines(text) {
        return Err(Refused {
            code: TOO_MANY_LINES,
            line: 0,
        });
    }
    let mut s = empty_set();
    let mut d = no_draft();
    read_lines(text, &mut s, set, &mut d)?;
    let k = first_unknown(&s, set, &d);
    if k != 0 {
        return Err(Refused {
            code: NOT_IN_SET,
            line: k,
        });
    }
    put_rows(&s, &d, set);
    Ok(())
}
