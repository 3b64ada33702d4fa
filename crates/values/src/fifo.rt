// FIFOs: each keeps its values in its own part of sixteen places of R, oldest first, unused places 0.
//
// Every call takes that part and the number of places in use. A part of another length, and a count above sixteen, are
// answered Unsound and change nothing.
// They stay two parameters: the part is lent out of R and the count comes out of a cell, each by itself, and the definitions take them so (`append_answer`).
ghost use Rattle.std.specs.Prelude.{◌≡◌, true, ◌≤◌, ◌<◌, length};
ghost use Rattle.values.specs.Fifo.{places, fits, sum_first, shifted, append_answer, appended, remove_answer, removed, oldest_of, newest_of, total_of, count_of, empty_answer, emptied};

use crate::arithmetic::{UNIT, value_of};
use crate::codes::Alarm;

// The places of a FIFO.
pub const PLACES: usize = 16;

// A change that was done: the value that went in or out, and the new count.
#[derive(Clone, Copy)]
pub struct Moved {
    pub value: i32,
    pub count: u8,
}

// Whether so many places with so many in use are a FIFO.
#[tactic(auto, unfolding(crate::specs::Fifo::fits))]
fn is_fit(size: usize, count: u8) -> bool
    ensures { (result ≡ fits size count) × (result ≡ true → (size ≡ places) × (count ≤ places)) }
{
    size == PLACES && count as usize <= PLACES
}

// Writing [0]: the value goes behind the newest.
#[tactic(auto, unfolding(crate::specs::Fifo::append_answer, crate::specs::Fifo::appended))]
pub fn append(part: &mut [i32], count: u8, v: i32) -> Result<Moved, Alarm>
    ensures value { result ≡ append_answer part.old count v }
    ensures part_after { part.new ≡ appended part.old count v }
{
    if !is_fit(part.len(), count) {
        return Err(Alarm::Unsound);
    }
    let at = count as usize;
    if at == PLACES {
        return Err(Alarm::FifoFull);
    }
    part[at] = v;
    Ok(Moved {
        value: v,
        count: count + 1,
    })
}

// The first n places are moved one to the front, and the place that becomes free is 0.
fn shift(part: &mut [i32], n: usize)
    requires { (0 < n) × (n ≤ length part.old) }
    ensures { part.new ≡ shifted part.old n }
{
    part.copy_within(1..n, 0);
    part[n - 1] = 0;
}

// Reading [0]: the oldest value, which is removed.
#[tactic(auto, unfolding(crate::specs::Fifo::remove_answer, crate::specs::Fifo::removed))]
pub fn remove(part: &mut [i32], count: u8) -> Result<Moved, Alarm>
    ensures value { result ≡ remove_answer part.old count }
    ensures part_after { part.new ≡ removed part.old count }
{
    if !is_fit(part.len(), count) {
        return Err(Alarm::Unsound);
    }
    if count == 0 {
        return Err(Alarm::FifoEmpty);
    }
    let v = part[0];
    shift(part, count as usize);
    Ok(Moved {
        value: v,
        count: count - 1,
    })
}

// Reading [1]: the oldest value.
#[tactic(auto, unfolding(crate::specs::Fifo::oldest_of))]
pub fn oldest(part: &[i32], count: u8) -> Result<i32, Alarm>
    ensures { result ≡ oldest_of part.now count }
{
    if !is_fit(part.len(), count) {
        return Err(Alarm::Unsound);
    }
    if count == 0 {
        return Err(Alarm::FifoEmpty);
    }
    Ok(part[0])
}

// Reading [2]: the newest value.
#[tactic(auto, unfolding(crate::specs::Fifo::newest_of))]
pub fn newest(part: &[i32], count: u8) -> Result<i32, Alarm>
    ensures { result ≡ newest_of part.now count }
{
    if !is_fit(part.len(), count) {
        return Err(Alarm::Unsound);
    }
    if count == 0 {
        return Err(Alarm::FifoEmpty);
    }
    let at = (count - 1) as usize;
    Ok(part[at])
}

// The exact sum of the first n places.
fn sum_first(part: &[i32], n: usize) -> i64
    requires { (n ≤ length part.now) × (n ≤ places) }
    ensures { result ≡ sum_first part.now n }
{
    let mut all = 0;
    for x in &part[..n] {
        all += i64::from(*x);
    }
    all
}

// Reading [3]: the exact sum, or alarm 30.
#[tactic(auto, unfolding(crate::specs::Fifo::total_of))]
pub fn total(part: &[i32], count: u8) -> Result<i32, Alarm>
    ensures { result ≡ total_of part.now count }
{
    if !is_fit(part.len(), count) {
        return Err(Alarm::Unsound);
    }
    value_of(sum_first(part, count as usize))
}

// Reading [4]: the count, in whole units.
#[tactic(auto, unfolding(crate::specs::Fifo::count_of))]
pub fn count_value(part: &[i32], count: u8) -> Result<i32, Alarm>
    ensures { result ≡ count_of part.now count }
{
    if !is_fit(part.len(), count) {
        return Err(Alarm::Unsound);
    }
    Ok(count as i32 * UNIT)
}

// Writing [4]: 0 empties the FIFO, another value gives alarm 34.
#[tactic(auto, unfolding(crate::specs::Fifo::empty_answer, crate::specs::Fifo::emptied, crate::specs::Fifo::cleared, crate::specs::Value::equal_to))]
pub fn empty(part: &mut [i32], count: u8, v: i32) -> Result<Moved, Alarm>
    ensures value { result ≡ empty_answer part.old count v }
    ensures part_after { part.new ≡ emptied part.old count v }
{
    if !is_fit(part.len(), count) {
        return Err(Alarm::Unsound);
    }
    if v != 0 {
        return Err(Alarm::NotAllowed);
    }
    part.fill(0);
    Ok(Moved { value: 0, count: 0 })
}
