// Calls of the control for programs in Rust or C. Each is a thin shell over a proved call and asks nothing of its caller but arrays of the
// right length. What begins with `set_` is lent a set, with `reader_` a set text.
#![tactic(auto)]

ghost use Rattle.std.specs.Prelude.{◌≡◌};
ghost use Rattle.working.specs.Working.{condition_value, right_value};
ghost use Rattle.checking.specs.Fault.{fault_of_line, line_at};
ghost use Rattle.reader.specs.Load.{load_answer, load_set};
ghost use Rattle.exports.specs.Packed.{packed, packed_load};

use checking::line_at;
use reader::load;
use tokens::token::SIZE;
use values::codes::Alarm;
use working::variables::{CELLS, RS};
use working::{Reached, condition, right_side};

// An alarm of the code k is -2^40 - k, below every value.
const ALARMS: i64 = -1099511627776;

// What working gives, as one number: the value, or an alarm.
fn packed_value(answer: Result<Reached, Alarm>) -> i64
    ensures { result ≡ packed answer }
{
    match answer {
        Ok(reached) => i64::from(reached.value),
        Err(alarm) => ALARMS - i64::from(alarm.code()),
    }
}

// The condition at place `at`: 1 for yes, 0 for no, or an alarm.
#[unsafe(no_mangle)]
pub extern "C" fn set_condition(
    set: &[u32; SIZE],
    r: &[i32; RS],
    cells: &[i32; CELLS],
    at: usize,
) -> i64
    ensures { result ≡ packed (condition_value set.now r.now cells.now at) }
{
    packed_value(condition(set, r, cells, at))
}

// The right side at place `at`: its value in thousandths, or an alarm.
#[unsafe(no_mangle)]
pub extern "C" fn set_right_side(
    set: &[u32; SIZE],
    r: &[i32; RS],
    cells: &[i32; CELLS],
    at: usize,
) -> i64
    ensures { result ≡ packed (right_value set.now r.now cells.now at) }
{
    packed_value(right_side(set, r, cells, at))
}

// The lowest fault of 4 to 10, or 14, of the line at place `at`, 0 for none.
#[unsafe(no_mangle)]
pub extern "C" fn set_line_fault(set: &[u32; SIZE], at: usize) -> u32
    ensures { result ≡ fault_of_line (line_at set.now at) }
{
    match line_at(set, at) {
        Ok(_) => 0,
        Err(fault) => fault as u32,
    }
}

// Loads a text into a set: the code, and 256 times the line that it names.
#[unsafe(no_mangle)]
pub extern "C" fn reader_load(text: &[u8], set: &mut [u32; SIZE]) -> u64
    ensures value { result ≡ packed_load (load_answer text.now) }
    ensures set_after { set.new ≡ load_set text.now }
{
    let l = load(text, set);
    l.line as u64 * 256 + l.code as u64
}
