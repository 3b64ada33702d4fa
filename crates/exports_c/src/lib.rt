// The calls of `exports` as a static library for programs in C or Rust: each calls the one of its name, and promises the same.
#![tactic(auto)]

ghost use Rattle.std.specs.Prelude.{◌≡◌};
ghost use Rattle.working.specs.Working.{condition_value, right_value};
ghost use Rattle.checking.specs.Fault.{fault_of_line, line_at};
ghost use Rattle.reader.specs.Load.{load_answer, load_set};
ghost use Rattle.exports.specs.Packed.{packed, packed_load};

use tokens::token::SIZE;
use working::variables::{CELLS, RS};

// The condition at place `at`: 1 for yes, 0 for no, or an alarm.
#[unsafe(no_mangle)]
pub extern "C" fn set_condition(
    set: &[u32; SIZE],
    r: &[i32; RS],
    cells: &[i32; CELLS],
    at: usize,
) -> i64
    ensures { result ≡ packed (condition_value set.now r.now cells.now at) }
{
    exports::set_condition(set, r, cells, at)
}

// The right side at place `at`: its value in thousandths, or an alarm.
#[unsafe(no_mangle)]
pub extern "C" fn set_right_side(
    set: &[u32; SIZE],
    r: &[i32; RS],
    cells: &[i32; CELLS],
    at: usize,
) -> i64
    ensures { result ≡ packed (right_value set.now r.now cells.now at) }
{
    exports::set_right_side(set, r, cells, at)
}

// The lowest fault of 4 to 10, or 14, of the line at place `at`, 0 for none.
#[unsafe(no_mangle)]
pub extern "C" fn set_line_fault(set: &[u32; SIZE], at: usize) -> u32
    ensures { result ≡ fault_of_line (line_at set.now at) }
{
    exports::set_line_fault(set, at)
}

// Loads a text into a set: the code, and 256 times the line that it names.
#[unsafe(no_mangle)]
pub extern "C" fn reader_load(text: &[u8], set: &mut [u32; SIZE]) -> u64
    ensures value { result ≡ packed_load (load_answer text.now) }
    ensures set_after { set.new ≡ load_set text.now }
{
    exports::reader_load(text, set)
}
