// A set in its array: how many lines, where each begins and where each curve does, their tokens. A line is put into it; the lines are read once a call, by rising number.
ghost use Rattle.std.specs.Prelude.{position, nat_eq, ◌≡◌, true, false, map, ◌≤◌, set, ◌<◌, get_or};
ghost use Rattle.values.specs.PutAt.{put_at};
ghost use Rattle.engine.specs.Set.{with_end, without_mark, with_count, with_line, no_line, no_lines, lines_read, curve_start, curve_line, defined_curve, rank_in, is_defined, curves_in, asked_table, set_table, names_known, all_known, is_curve, curves_sound, sound_lines, empty_set};
ghost use Rattle.checking.specs.CurveDefinition.{no_curve};
ghost use Rattle.engine.specs.SetLinesLaws.{Lined};
ghost use Rattle.tokens.specs.Token.{set_size, max_lines, max_curves};

use checking::{Definition, Line, definition_at, line_at};
use tokens::token::{
    CURVES, END, LINES, NUMBER, SIZE, TABLE_SIZE, is_lock, is_naming, token_at, whole_of,
};
use values::curve::Curve;

// The place that has the number of lines, the place that says where the line of rank 0 begins, and the place that says where curve 1 does.
pub const COUNT_PLACE: usize = 0;

pub const START_PLACE: usize = 1;

pub const CURVE_PLACE: usize = START_PLACE + LINES;

// The place of the first line's tokens, behind the table.
pub const FIRST_PLACE: usize = TABLE_SIZE;

// The lines of a set as its tokens have them, by rising number. No heap: 32 places and how many are in use. The numbers stand by themselves as well, for `rank_in` and the table of names look through them alone (`set_table`).
// Anyone may make them, with any count: so ranks and counts are asked to be at most 32 where they are used, and a beat answers 22 to more.
#[derive(Clone, Copy)]
pub struct Lines {
    pub count: usize,
    pub numbers: [u8; LINES],
    pub items: [Line; LINES],
}

// The line of rank k.
pub fn line_of(lines: &Lines, k: usize) -> Line
    requires { k < max_lines }
    ensures { result ≡ get_or lines.now.items k no_line }
{
    lines.items[k]
}

// The set without lines.
pub fn empty_set() -> [u32; SIZE]
    ensures { result ≡ empty_set }
{
    [0u32; SIZE]
}

// A number's token without the mark of a written point.
#[tactic(auto, unfolding(crate::specs::Set::without_mark))]
fn without_mark(t: u32) -> u32
    ensures { result ≡ without_mark t }
{
    if t < NUMBER {
        return t;
    }
    t - t % 2
}

// A token is written at a place; past the end nothing is.
fn put(array: &mut [u32; SIZE], at: usize, t: u32)
    ensures { array.new ≡ set array.old at t }
{
    if at < SIZE {
        array[at] = t;
    }
}

// Tokens without their marks from a place on, and their end.
fn put_tokens(set: &mut [u32; SIZE], at: u32, tokens: &[u32])
    ensures { set.new ≡ put_at set.old at (with_end (map without_mark tokens.now)) }
{
    let first = at as usize;
    for (i, t) in tokens.iter().enumerate() {
        put(set, first + i, without_mark(*t));
    }
    put(set, first + tokens.len(), END);
}

// A count of lines, at the place of the table that has it.
pub fn put_count(set: &mut [u32; SIZE], place: usize, n: u32)
    ensures { set.new ≡ with_count set.old place n }
{
    put(set, place, n);
}

// One line more, with its slot, the place of the table that says where it begins: it begins at the place `at`. What would lie past the array is left off.
pub fn put_line(set: &mut [u32; SIZE], slot: usize, at: u32, tokens: &[u32])
    ensures { set.new ≡ with_line set.old slot at tokens.now }
{
    put(set, slot, at);
    put_tokens(set, at, tokens);
}

// A place without a line. The definition has this name (`no_line`), and the laws on places past the last cite it.
pub fn no_line() -> Line
    ensures { result ≡ no_line }
{
    Line {
        number: 0,
        ids: false,
        keyword: 0,
        condition: 0,
        actions: 0,
        end: 0,
        names: false,
    }
}

// The lines, if none has a fault and their numbers rise.
#[tactic(auto, unfolding(crate::specs::Set::lines_read, crate::specs::Set::lines_from))]
fn read_lines(set: &[u32; SIZE]) -> Option<Lines>
    ensures { result ≡ lines_read set.now }
{
    let count = token_at(set, COUNT_PLACE) as usize;
    if LINES < count {
        return None;
    }
    let mut numbers = [0u8; LINES];
    let mut items = [no_line(); LINES];
    let mut last: u8 = 0;
    for k in 0..count {
        let start = token_at(set, START_PLACE + k) as usize;
        let Ok(l) = line_at(set, start) else {
            return None;
        };
        if l.number <= last {
            return None;
        }
        numbers[k] = l.number;
        items[k] = l;
        last = l.number;
    }
    Some(Lines {
        count,
        numbers,
        items,
    })
}

fn place_of(numbers: &[u8], n: u32) -> Option<usize>
    ensures { result ≡ position (λ x. nat_eq x n) numbers.now }
{
    numbers.iter().position(|x| *x as u32 == n)
}

// The rank of the line with a number, 32 if there is none: a number, for the theorems on LOCK and on names say it so (`rank_in`).
pub fn rank_in(numbers: &[u8; LINES], n: u32) -> usize
    ensures { result ≡ rank_in numbers.now n 0 }
{
    place_of(numbers, n).unwrap_or(LINES)
}

// ---- curves

// Where curve n begins; 0, as the set's array has it, which a C host keeps: the set has none.
fn curve_start(set: &[u32; SIZE], n: u32) -> usize
    ensures { result ≡ curve_start set.now n }
{
    token_at(set, CURVE_PLACE - 1 + n as usize) as usize
}

// The line that defines curve n, as its tokens have it.
fn curve_line(set: &[u32; SIZE], n: u32) -> Result<Definition, u8>
    ensures { result ≡ curve_line set.now n }
{
    definition_at(set, curve_start(set, n))
}

// The curve n; 0 throughout, where no line without a fault defines it.
pub fn defined_curve(set: &[u32; SIZE], n: u32) -> Curve
    ensures { result ≡ defined_curve set.now n }
{
    match curve_line(set, n) {
        Ok(d) => d.curve,
        Err(_) => no_curve(),
    }
}

fn no_curve() -> Curve
    ensures { result ≡ no_curve }
{
    Curve {
        lower: 0,
        upper: 0,
        a0: 0,
        a1: 0,
        a2: 0,
        a3: 0,
    }
}

// Which curves a set has, by number from 1 on.
#[tactic(auto, unfolding(crate::specs::Set::curves_from))]
fn curves_in(set: &[u32; SIZE]) -> [bool; CURVES]
    ensures { result ≡ curves_in set.now }
{
    // three tests, written out: of a map over [1, 2, 3] the proof was not found
    [
        0 < curve_start(set, 1),
        0 < curve_start(set, 2),
        0 < curve_start(set, 3),
    ]
}

// Whether curve n is one of those that are there.
pub fn is_defined(curves: &[bool; CURVES], n: u32) -> bool
    ensures { result ≡ is_defined curves.now n }
{
    if n < 1 {
        return false;
    }
    curves.get((n - 1) as usize).copied().unwrap_or(false)
}

// Whether curve n is defined without a fault, by a line with that number.
fn is_curve(set: &[u32; SIZE], n: u32) -> bool
    ensures { result ≡ is_curve set.now n }
{
    match curve_line(set, n) {
        Ok(d) => d.number == n,
        Err(_) => false,
    }
}

// Whether each curve of a set is one, and there are with them at most 32 lines; `lines` are there before them.
#[tactic(auto, unfolding(crate::specs::Set::curves_sound))]
fn curves_sound(set: &[u32; SIZE], lines: usize) -> bool
    requires { lines ≤ max_lines }
    ensures { result ≡ curves_sound set.now max_curves 1 lines }
{
    let mut all = lines;
    for n in 1..CURVES as u32 + 1 {
        if 0 < curve_start(set, n) {
            if !is_curve(set, n) {
                return false;
            }
            all += 1;
        }
    }
    all <= LINES
}

// ---- names

// Whether what a word names is there: LOCK and UNLOCK name a line, SYNFCT names a curve. Of lines it is only asked with `asked`.
fn name_known(numbers: &[u8; LINES], curves: &[bool; CURVES], asked: bool, w: u32, n: u32) -> bool
    ensures { result ≡ asked_table asked numbers.now curves.now w n }
{
    if !is_lock(w) {
        return is_defined(curves, n);
    }
    !asked || rank_in(numbers, n) < LINES
}

// The same of all that the line at a place names.
#[tactic(auto, unfolding(crate::specs::Set::names_known))]
pub fn names_known(
    set: &[u32; SIZE],
    numbers: &[u8; LINES],
    curves: &[bool; CURVES],
    asked: bool,
    start: usize,
) -> bool
    ensures { result ≡ names_known set.now (asked_table asked numbers.now curves.now) set_size start }
{
    for p in start..SIZE {
        let t = set[p];
        if t == END {
            return true;
        }
        if is_naming(t) {
            let n = whole_of(token_at(set, p + 2));
            if !name_known(numbers, curves, asked, t, n) {
                return false;
            }
        }
    }
    true
}

// The same, asked of lines too, where it is noted whether the line names something: a line that names nothing is not looked through.
fn line_known(
    set: &[u32; SIZE],
    numbers: &[u8; LINES],
    curves: &[bool; CURVES],
    names: bool,
    start: usize,
) -> bool
    requires { names ≡ false → names_known set.now (asked_table true numbers.now curves.now) set_size start ≡ true }
    ensures { result ≡ names_known set.now (asked_table true numbers.now curves.now) set_size start }
{
    !names || names_known(set, numbers, curves, true, start)
}

// The same of every line of the set.
#[tactic(auto, unfolding(crate::specs::Set::all_known))]
fn all_known(set: &[u32; SIZE], lines: &Lines) -> bool
    requires { Lined set.now lines.now }
    ensures { result ≡ all_known set.now (set_table set.now lines.now.numbers) lines.now.count 0 }
{
    let curves = curves_in(set);
    for k in 0..lines.count {
        let start = token_at(set, START_PLACE + k) as usize;
        if !line_known(set, &lines.numbers, &curves, lines.items[k].names, start) {
            return false;
        }
    }
    true
}

// The lines of a set that passes each loading check from 4 on.
#[tactic(auto, unfolding(crate::specs::Set::sound_lines, crate::specs::Set::named_lines))]
pub fn sound_lines(set: &[u32; SIZE]) -> Option<Lines>
    ensures { result ≡ sound_lines set.now }
{
    let lines = read_lines(set)?;
    if !curves_sound(set, lines.count) {
        return None;
    }
    if !all_known(set, &lines) {
        return None;
    }
    Some(lines)
}
