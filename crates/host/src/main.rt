// A short host: it loads a set, works ten beats with a lock, an unlock, a cancel, a program end and a control reset in between, writes what each call answered, and at the end prints its set. A real host reads its inputs
// from the terminals and hands the orders to the drives; this one has its inputs in `inputs_at` and writes the orders down. What cannot be written is left out: the beats go on. docs/HOST.md goes through it.
#![tactic(auto)]

use couplers::channel::CHANNELS;
use couplers::reading::Reading;
use engine::{
    Beaten, Called, ORDERS, State, beat, cancel, control_reset, empty_set, lock, program_end,
    unlock,
};
use print::print;
use reader::load;
use std::fmt;
use tokens::token::{SIZE, TEXT_SIZE};
use values::codes::{SHORT_BUFFER, UNSOUND};

const BEATS: u32 = 10;

fn main(rt: HostRuntime) {
    // R[100] may not be written: code 8, line 1.
    serve(&rt, b"ID=10 DO $R[100]=1\n");
    // Line 10 counts pulses, line 20 moves X at the second, line 30 divides by analogue 1.
    serve(
        &rt,
        b"ID=10 EVERY $A_IN[1]==1 DO $AC_MARKER[0]=$AC_MARKER[0]+1 M=7\n\
        IDS=20 EVERY $AC_MARKER[0]>=2 DO POS[X]=-12.5\n\
        IDS=30 WHENEVER $A_IN[2]==1 DO $AC_PARAM[0]=60/$A_INA[1]\n",
    );
}

// A set text has come. If it is refused, code and line are shown and nothing is worked.
fn serve(rt: &impl Print, text: &[u8]) {
    let mut set = empty_set();
    let l = load(text, &mut set);
    let _ = println!(rt; "load: code {}, line {}", l.code, l.line);
    if l.code != 0 {
        return;
    }
    work(rt, &set, l.state);
    show(rt, &set);
}

// Every 4 ms: what the operator asks for, then a beat. With any code the state of the answer is the one to keep.
fn work(rt: &impl Print, set: &[u32; SIZE], first: State) {
    let mut state = first;
    for k in 1..=BEATS {
        state = asked_at(rt, k, set, state);
        let b = one_beat(rt, k, set, state);
        state = b.state;
        if stops_on(b.code) {
            return;
        }
    }
}

// What the operator asks for before beat k.
fn asked_at(rt: &impl Print, k: u32, set: &[u32; SIZE], state: State) -> State {
    match k {
        2 => called(rt, "lock 10", lock(set, state, 10)),
        4 => called(rt, "unlock 10", unlock(set, state, 10)),
        8 => called(rt, "cancel 30", cancel(set, state, 30)),
        9 => ended(rt, set, state),
        10 => called(rt, "lock 10", lock(set, state, 10)),
        _ => state,
    }
}

// The end of the part program, and then a control reset.
fn ended(rt: &impl Print, set: &[u32; SIZE], state: State) -> State {
    let next = called(rt, "program end", program_end(set, state));
    called(rt, "control reset", control_reset(set, next))
}

fn called(rt: &impl Print, call: &str, c: Called) -> State {
    let _ = println!(rt; "{call}: code {}", c.code);
    c.state
}

// Beat k, in AUTOMATIC, with readings of 0 V and positions that are all 0. Its orders are carried out.
fn one_beat(rt: &impl Print, k: u32, set: &[u32; SIZE], state: State) -> Beaten {
    let readings = [Reading::Volts(0.0); CHANNELS];
    // Room for every order that a beat can give.
    let mut orders = [0u8; ORDERS];
    let b = beat(
        set,
        state,
        true,
        inputs_at(k),
        readings,
        &[0; 6],
        &mut orders,
    );
    let _ = println!(rt;
        "beat {k}: code {}, orders {}, acted {}",
        b.code, b.orders, b.acted
    );
    carry_out(rt, &orders, b.orders);
    b
}

// The input word. Input 1 is the wheel: one pulse in beats 1 to 4, the next from 6 on. Input 2 is high in beat 7.
fn inputs_at(k: u32) -> u16 {
    match k {
        5 => 0,
        7 => 3,
        _ => 1,
    }
}

// 20, a fault of the host, and 22, damaged memory, stop it. On 21 and 23 nothing was worked, and an alarm, 30 to 34, has undone its beat: the next one goes on.
fn stops_on(code: u8) -> bool {
    matches!(code, SHORT_BUFFER | UNSOUND)
}

// What the control really holds: beats, locks and cancels change the state, and none of them the set.
fn show(rt: &impl Print, set: &[u32; SIZE]) {
    let mut text = [0u8; TEXT_SIZE];
    let (code, size) = match print(set, &mut text) {
        Ok(size) => (0, size),
        Err(code) => (code, 0),
    };
    let _ = println!(rt; "print: code {code}, bytes {size}");
    if let Some(printed) = text.get(..size) {
        let _ = rt.write_all(printed);
    }
    let _ = println!(rt);
}

// ---- orders

// An order as the buffer has it in eight bytes, its value low byte first.
#[derive(Clone, Copy)]
struct Order {
    kind: u8,
    line: u8,
    target: u8,
    value: i32,
}

impl From<[u8; 8]> for Order {
    fn from(bytes: [u8; 8]) -> Order {
        let [kind, line, target, _, a, b, c, d] = bytes;
        Order {
            kind,
            line,
            target,
            value: i32::from_le_bytes([a, b, c, d]),
        }
    }
}

impl fmt::Display for Order {
    fn fmt<W: fmt::Write>(&self, f: &mut fmt::Formatter<W>) -> fmt::Result {
        let Order {
            kind,
            line,
            target,
            value,
        } = self;
        write!(
            f,
            "order of line {line}: kind {kind}, target {target}, value {value}"
        )
    }
}

// The first n orders of the buffer.
fn carry_out(rt: &impl Print, orders: &[u8; ORDERS], n: u32) {
    let (orders, _) = orders.as_chunks();
    for bytes in orders.iter().take(n as usize) {
        let _ = println!(rt; "  {}", Order::from(*bytes));
    }
}
