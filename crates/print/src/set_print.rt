// The print of a set: its rows, an LF between them. It is put nowhere first, which counts its bytes, and then into the buffer.
//
// Slots and counts are asked to be below their limits where they are used: a type for a slot would be taken apart at once.
ghost use Rattle.std.specs.Prelude.{◌≡◌, ◌++◌, ◌+◌, ◌≤◌, ◌<◌, length};
ghost use Rattle.values.specs.PutAt.{IsPut};
ghost use Rattle.tokens.specs.Token.{max_lines, max_curves};
ghost use Rattle.print.specs.PrintText.{line_rows, curve_rows, rows_text, print_answer, print_buffer};
ghost use Rattle.print.specs.PrintOrder.{slot_at, slot_start, has_row, row_behind, slot_text};
ghost use Rattle.print.specs.PrintRoomLaws.{last_place, row_room};

use crate::line::put_line;
use engine::{CURVE_PLACE, START_PLACE, sound_lines};
use text::buffer::put;
use text::bytes::LF;
use tokens::token::{CURVES, SIZE, TEXT_SIZE, token_at};
use values::codes::{SHORT_PRINT, UNSOUND};

// Slot k of the print: those of the curves, then those of the lines.
#[tactic(auto, unfolding(crate::specs::PrintOrder::slot_at))]
fn slot_at(k: usize) -> usize
    requires { k < max_curves + max_lines }
    ensures { result ≡ slot_at k }
{
    if k < CURVES {
        CURVE_PLACE + k
    } else {
        START_PLACE + (k - CURVES)
    }
}

// Where the row of slot k begins.
fn slot_start(set: &[u32; SIZE], k: usize) -> usize
    requires { k < max_curves + max_lines }
    ensures { result ≡ slot_start set.now k }
{
    token_at(set, slot_at(k)) as usize
}

// Whether the set has it: a line always, a curve if it begins somewhere.
#[tactic(auto, unfolding(crate::specs::PrintOrder::has_row))]
fn is_there(set: &[u32; SIZE], k: usize) -> bool
    requires { k < max_curves + max_lines }
    ensures { result ≡ has_row set.now k }
{
    CURVES <= k || 0 < slot_start(set, k)
}

// The row that begins at a place of the set, with an LF before it behind others; the answer is the place behind it in the buffer.
fn put_row_behind(set: &[u32; SIZE], behind: bool, start: usize, out: &mut [u8], at: usize) -> usize
    requires { at + row_room ≤ last_place }
    ensures put { IsPut out.old at (row_behind set.now behind start) out.new result }
    ensures upper_bound { result ≤ at + row_room }
{
    if !behind {
        return put_line(set, start, out, at);
    }
    put(out, at, LF);
    put_line(set, start, out, at + 1)
}

// So the row of slot k, if the set has it.
fn put_slot(set: &[u32; SIZE], behind: bool, k: usize, out: &mut [u8], at: usize) -> usize
    requires { (k < max_curves + max_lines) × (at + row_room ≤ last_place) }
    ensures put { IsPut out.old at (slot_text set.now behind k) out.new result }
    ensures upper_bound { result ≤ at + row_room }
{
    if !is_there(set, k) {
        return at;
    }
    put_row_behind(set, behind, slot_start(set, k), out, at)
}

// The rows of a set, curves and lines, each by rising number, from the buffer's start on; the answer is how many bytes they take, those past its end too.
fn put_rows(set: &[u32; SIZE], count: usize, out: &mut [u8]) -> usize
    requires { count ≤ max_lines }
    ensures { IsPut out.old 0 (rows_text (curve_rows set.now max_curves 1 ++ line_rows set.now count 0)) out.new result }
{
    let mut at = 0;
    let mut behind = false;
    for k in 0..CURVES + count {
        at = put_slot(set, behind, k, out, at);
        behind = behind || is_there(set, k);
    }
    at
}

// How many bytes they take: they are put nowhere.
fn size_of(set: &[u32; SIZE], count: usize) -> usize
    requires { count ≤ max_lines }
    ensures { result ≡ length (rows_text (curve_rows set.now max_curves 1 ++ line_rows set.now count 0)) }
{
    let mut nowhere = [0u8; 0];
    put_rows(set, count, &mut nowhere)
}

// The set is printed at the start of the buffer: how many bytes that takes, or the code of the refusal, a number of the document (22, 24). Nothing is written before the size of the print is known.
pub fn print(set: &[u32; SIZE], buffer: &mut [u8]) -> Result<usize, u8>
    ensures value { result ≡ print_answer set.now buffer.old }
    ensures buffer_after { buffer.new ≡ print_buffer set.now buffer.old }
{
    let Some(lines) = sound_lines(set) else {
        return Err(UNSOUND);
    };
    if buffer.len() < TEXT_SIZE || buffer.len() < size_of(set, lines.count) {
        return Err(SHORT_PRINT);
    }
    Ok(put_rows(set, lines.count, buffer))
}
