// The requests of a session: loads, beats, host calls, status pictures, prints. Each answers by numbers and leaves the state after it.
use crate::numbers::{OUT, Part, Request, answer, first};
use crate::places::{put, put_value, write_set, write_state};
use couplers::channel::CHANNELS;
use couplers::reading::{Reading, reading_of};
use engine::{
    LineStatus, Standing, State, beat, cancel, control_reset, empty_set, lock, power_on,
    program_end, status_of, unlock,
};
use print::print;
use reader::load;
use std::array;
use tokens::token::SIZE;

// The byte that fills the buffer before each beat and each print.
const FILL: u8 = 170;
// The bytes that hold the set text.
pub const TEXT: usize = 16384;
// The longest buffer that a print may be lent.
const PRINT: usize = 8192;
// The readings of a beat in a request: two numbers each, its kind and its bits.
const READINGS_AT: usize = 20;
// The longest list of positions that a beat may be lent, and its place in a request.
const LIST: usize = 16;

const LIST_AT: usize = 84;

// What a session keeps: the text that loads take, the set and the state.
#[derive(Drop)]
pub struct Host {
    text: [u8; TEXT],
    set: [u32; SIZE],
    state: State,
}

// ---- what a beat is lent

// The reading of a channel, from 0: 1 is a break, 2 a short circuit, any other kind a number of volts; a NaN's bits are a break.
fn reading_at(request: &Request, channel: usize) -> Reading {
    if CHANNELS <= channel {
        return Reading::Break;
    }
    let at = READINGS_AT + 8 * channel;
    match request.word(at) {
        1 => Reading::Break,
        2 => Reading::Short,
        _ => reading_of(request.word(at + 4)),
    }
}

fn position_at(request: &Request, k: usize) -> i32 {
    if LIST <= k {
        return 0;
    }
    request.word(LIST_AT + 4 * k).cast_signed()
}

// ---- the status picture

fn standing_number(standing: Standing) -> u32 {
    match standing {
        Standing::Waiting => 0,
        Standing::Locked => 1,
        Standing::Cancelled => 2,
    }
}

// Puts a line's row.
fn put_row(part: &mut Part, row: &LineStatus) {
    part.put(row.ids);
    part.put(u32::from(row.number));
    part.put(standing_number(row.standing));
    part.put(row.acts);
}

impl Host {
    // Nothing is loaded.
    pub fn new(text: [u8; TEXT]) -> Host {
        Host {
            text,
            set: empty_set(),
            state: power_on(),
        }
    }

    // Loads the first bytes of the set text; answers code and line.
    fn load_first(&mut self, rt: &impl Print, request: &Request) {
        let text = first(&self.text, request.word(4) as usize);
        let l = load(text, &mut self.set);
        answer(rt, u32::from(l.code), l.line, 0);
        self.state = l.state;
    }

    // Answers code, orders, the word of the lines that acted, and the buffer.
    fn work_beat(&mut self, rt: &impl Print, request: &Request) {
        let list: [i32; LIST] = array::from_fn(|k| position_at(request, k));
        let readings: [Reading; CHANNELS] = array::from_fn(|k| reading_at(request, k));
        let mut buffer = [FILL; OUT];
        let size = OUT.min(request.word(12) as usize);
        let b = beat(
            &self.set,
            self.state,
            request.word(4) == 1,
            (request.word(8) % 65536) as u16,
            readings,
            first(&list, request.word(16) as usize),
            &mut buffer[..size],
        );
        answer(rt, u32::from(b.code), b.orders, b.acted);
        let _ = rt.write_all(&buffer[..size]);
        self.state = b.state;
    }

    // Answers code and lines, then the row of each line.
    fn work_status(&self, rt: &impl Print) {
        match status_of(&self.set, self.state) {
            Ok(picture) => {
                answer(rt, 0, (picture.count & 0xffffffff) as u32, 0);
                let mut part = Part::new();
                for row in first(&picture.lines, picture.count) {
                    put_row(&mut part, row);
                }
                part.write(rt);
            }
            Err(code) => answer(rt, u32::from(code), 0, 0),
        }
    }

    // Answers code, bytes, and the buffer.
    fn work_print(&self, rt: &impl Print, request: &Request) {
        let mut buffer = [FILL; PRINT];
        let size = PRINT.min(request.word(4) as usize);
        let (code, bytes) = match print(&self.set, &mut buffer[..size]) {
            Ok(bytes) => (0, bytes),
            Err(code) => (code, 0),
        };
        answer(rt, u32::from(code), (bytes & 0xffffffff) as u32, 0);
        let _ = rt.write_all(&buffer[..size]);
    }

    // Lock, unlock and cancel of a line, program end and control reset; answers the code. Another letter than these is a control reset.
    fn work_call(&mut self, rt: &impl Print, request: &Request) {
        let n = request.word(4);
        let c = match request.letter() {
            b'L' => lock(&self.set, self.state, n),
            b'U' => unlock(&self.set, self.state, n),
            b'C' => cancel(&self.set, self.state, n),
            b'E' => program_end(&self.set, self.state),
            _ => control_reset(&self.set, self.state),
        };
        answer(rt, u32::from(c.code), 0, 0);
        self.state = c.state;
    }

    // A request is worked, by its letter.
    pub fn work(&mut self, rt: &impl Print, request: &Request) {
        match request.letter() {
            b'N' => self.load_first(rt, request),
            b'B' => self.work_beat(rt, request),
            b'V' => put_value(request, &mut self.state),
            b'D' => write_state(rt, &self.state),
            b'P' => put(request, &mut self.set),
            b'Q' => self.work_print(rt, request),
            b'I' => self.work_status(rt),
            b'W' => write_set(rt, request, &self.set),
            _ => self.work_call(rt, request),
        }
    }
}
