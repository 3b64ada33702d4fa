// A beat: its checks 22, 20, 21, 23 in that order, the timers' growth, the turns by rising number, and the undoing of all by the first alarm.
ghost use Rattle.std.specs.Prelude.{◌≡◌, ◌++◌, ◌≤◌, eqb, length, take, drop, replicate};
ghost use Rattle.working.specs.Variables.{input_count, analogue_count, position_count};
ghost use Rattle.engine.specs.ActCount.{one_more, counted_acts};
ghost use Rattle.engine.specs.Beat.{buffer_size, are_inputs, buffered, sound_over, beat_answer, beat_buffer};
ghost use Rattle.engine.specs.Held.{few_lines, state_held, turned_code, held_after, LeavesBeat, given_with, kept_held, turns_held, known_held, beat_held};
ghost use Rattle.engine.specs.Order.{max_orders};
ghost use Rattle.tokens.specs.Token.{max_lines};

use crate::cells::begin_cells;
use crate::held::Held;
use crate::order::{ORDER_BYTES, ORDERS};
use crate::set::{Lines, sound_lines};
use crate::sound::{all_ranged, is_held_sound};
use crate::state::{ACTS_TOP, State};
use crate::turn::turns;
use crate::world::{Course, Orders, World};
use crate::write::Vars;
use couplers::channel::{CHANNELS, Channel, sample_all};
use couplers::reading::Reading;
use tokens::token::{LINES, SIZE};
use values::codes::{FAULTY_CHANNEL, SHORT_BUFFER, UNSOUND, WRONG_NUMBERS};
use working::variables::POSITIONS;

// What a beat in place answers: its code, the count of orders in the buffer, and the word of the lines that acted, by rank. The two are 0 with a code, which `turned_code` says and the theorems on beats ask: so this is no Result.
#[derive(Clone, Copy)]
pub struct BeatCode {
    pub code: u8,
    pub orders: u32,
    pub acted: u64,
}

// What a beat answers: the same, and the state. It has no `BeatCode` inside: what is proved of a beat speaks of its `code`, its `orders` and its `acted`, refused or not.
#[derive(Clone, Copy)]
pub struct Beaten {
    pub code: u8,
    pub orders: u32,
    pub acted: u64,
    pub state: State,
}

// Six positions, each within range.
#[tactic(auto, unfolding(crate::specs::Beat::are_inputs))]
fn are_inputs(lent: &[i32]) -> bool
    ensures { result ≡ are_inputs lent.now }
{
    lent.len() == POSITIONS && all_ranged(lent)
}

// The first n bytes of the orders go into the lent buffer; its bytes behind them stay.
fn copy_orders(orders: &mut [u8], out: &[u8; ORDERS], n: usize)
    requires { (n ≤ buffer_size) × (buffer_size ≤ length orders.old) }
    ensures { (orders.new ≡ take n out.now ++ drop n orders.old) × (length (take n out.now) ≡ n) }
{
    orders[..n].copy_from_slice(&out[..n]);
}

// One more where the bit is 1, up to the top.
#[tactic(auto, unfolding(crate::specs::ActCount::one_more))]
fn one_more(acts: u32, bit: u64) -> u32
    ensures { result ≡ one_more acts (eqb bit 1) }
{
    if bit == 1 && acts < ACTS_TOP {
        acts + 1
    } else {
        acts
    }
}

// Each line of this word counts one more.
fn count_acts(acts: &mut [u32; LINES], word: u64)
    ensures { acts.new ≡ counted_acts acts.old word max_lines }
{
    let mut rest = word;
    for k in 0..LINES {
        if rest == 0 {
            return;
        }
        acts[k] = one_more(acts[k], rest % 2);
        rest /= 2;
    }
}

fn refused(code: u8) -> BeatCode
    ensures { result ≡ record { code = code; orders = 0; acted = 0 } }
{
    BeatCode {
        code,
        orders: 0,
        acted: 0,
    }
}

// The answer of a beat that came to its end.
fn finished(count: usize, acted: u64) -> BeatCode
    requires { count ≤ max_orders }
    ensures { result ≡ record { code = 0; orders = count; acted = acted } }
{
    BeatCode {
        code: 0,
        orders: count as u32,
        acted,
    }
}

// What the turns begin with: what is held, no line that acted, no orders.
fn world_of(held: &Held) -> World
    ensures { result ≡ record { vars = record { r = held.now.r; cells = held.now.cells; runs = held.now.runs }; locked = held.now.locked; memory = held.now.memory; acted = 0; orders = record { bytes = replicate buffer_size 0; count = 0 } } }
{
    World {
        vars: Vars {
            r: held.r,
            cells: held.cells,
            runs: held.runs,
        },
        locked: held.locked,
        memory: held.memory,
        acted: 0,
        orders: Orders {
            bytes: [0u8; ORDERS],
            count: 0,
        },
    }
}

// The turns of a beat that no check refuses, with these analogues and positions: its orders go to the buffer, and the channels keep these; at an alarm nothing is written back.
// Mode, word, readings and positions go in one by one here, in `beat_over` and in `beat_known`, as in the public `beat`: docs/HOST.md gives a host these arguments, and its clause speaks of them (`beat_answer`).
fn all_turns(
    set: &[u32; SIZE],
    lines: &Lines,
    held: &mut Held,
    kept: [Channel; CHANNELS],
    automatic: bool,
    inputs: u16,
    values: &[i32],
    lent: &[i32],
    orders: &mut [u8],
) -> BeatCode
    requires { (lines.now.count ≤ max_lines) × ((length values.now ≡ analogue_count) × ((length lent.now ≡ position_count) × (buffer_size ≤ length orders.old))) }
    ensures { LeavesBeat (turns_held set.now lines.now held.old automatic inputs values.now lent.now) kept held.old orders.old result held.new orders.new }
{
    let mut world = world_of(held);
    begin_cells(&mut world.vars.cells, &held.runs, inputs, values, lent);
    let course = Course {
        set,
        lines,
        cancelled: &held.cancelled,
        automatic,
    };
    if let Err(alarm) = turns(course, &mut world) {
        return refused(alarm.code());
    }
    held.r = world.vars.r;
    held.cells = world.vars.cells;
    held.runs = world.vars.runs;
    held.channels = kept;
    held.locked = world.locked;
    held.memory = world.memory;
    count_acts(&mut held.acts, world.acted);
    let count = world.orders.count;
    copy_orders(orders, &world.orders.bytes, count * ORDER_BYTES);
    finished(count, world.acted)
}

// Whether lines that were read before and the state that is held are sound.
pub fn is_sound_over(lines: &Option<Lines>, held: &Held) -> bool
    ensures { result ≡ sound_over (few_lines lines.now) (state_held held.now) }
{
    match lines {
        Some(lines) => lines.count <= LINES && is_held_sound(lines.count, held),
        None => false,
    }
}

// One beat over lines that `sound_lines` read before, in place: the state is held, and on any code all is as it was. More lines than a set may have are none.
pub fn beat_over(
    set: &[u32; SIZE],
    lines: &Option<Lines>,
    held: &mut Held,
    automatic: bool,
    inputs: u16,
    readings: [Reading; CHANNELS],
    lent: &[i32],
    orders: &mut [u8],
) -> BeatCode
    ensures value { result ≡ turned_code (beat_held set.now (few_lines lines.now) held.old (given_with automatic inputs readings lent.now orders.old)) }
    ensures state_after { held.new ≡ held_after held.old (kept_held held.old readings) (beat_held set.now (few_lines lines.now) held.old (given_with automatic inputs readings lent.now orders.old)) }
    ensures orders_after { orders.new ≡ buffered orders.old (beat_held set.now (few_lines lines.now) held.old (given_with automatic inputs readings lent.now orders.old)) }
{
    let known = is_sound_over(lines, held);
    beat_known(
        known, set, lines, held, automatic, inputs, readings, lent, orders,
    )
}

// The same for a caller who knows whether the lines and the state are sound, and says so: of the state no place is looked at for 22. Where `known` is what `is_sound_over` answers, this is `beat_over`.
pub fn beat_known(
    known: bool,
    set: &[u32; SIZE],
    lines: &Option<Lines>,
    held: &mut Held,
    automatic: bool,
    inputs: u16,
    readings: [Reading; CHANNELS],
    lent: &[i32],
    orders: &mut [u8],
) -> BeatCode
    ensures value { result ≡ turned_code (known_held known set.now (few_lines lines.now) held.old (given_with automatic inputs readings lent.now orders.old)) }
    ensures state_after { held.new ≡ held_after held.old (kept_held held.old readings) (known_held known set.now (few_lines lines.now) held.old (given_with automatic inputs readings lent.now orders.old)) }
    ensures orders_after { orders.new ≡ buffered orders.old (known_held known set.now (few_lines lines.now) held.old (given_with automatic inputs readings lent.now orders.old)) }
{
    let Some(lines) = lines else {
        return refused(UNSOUND);
    };
    if LINES < lines.count || !known {
        return refused(UNSOUND);
    }
    if orders.len() < ORDERS {
        return refused(SHORT_BUFFER);
    }
    if !are_inputs(lent) {
        return refused(WRONG_NUMBERS);
    }
    let Some(sampled) = sample_all(held.channels, readings) else {
        return refused(FAULTY_CHANNEL);
    };
    all_turns(
        set,
        lines,
        held,
        sampled.channels,
        automatic,
        inputs,
        &sampled.values,
        lent,
        orders,
    )
}

// One beat. On any code the state is as given, there are no orders and the word is 0, and no byte of the buffer has changed.
pub fn beat(
    set: &[u32; SIZE],
    state: State,
    automatic: bool,
    inputs: u16,
    readings: [Reading; CHANNELS],
    lent: &[i32],
    orders: &mut [u8],
) -> Beaten
    ensures value { result ≡ beat_answer set.now state (record { automatic = automatic; word = inputs; readings = readings; lent = lent.now; buffer = orders.old }) }
    ensures orders_after { orders.new ≡ beat_buffer set.now state (record { automatic = automatic; word = inputs; readings = readings; lent = lent.now; buffer = orders.old }) }
{
    let lines = sound_lines(set);
    let mut held = Held::new(state);
    let b = beat_over(
        set, &lines, &mut held, automatic, inputs, readings, lent, orders,
    );
    let next = held.state();
    Beaten {
        code: b.code,
        orders: b.orders,
        acted: b.acted,
        state: next,
    }
}
