// The places of a set, and those of a state in ten arrays: R, cells, timers that run, locks, cancels, memories; of the channels whether each was good, the bits of the last good reading, the faults in a row; the acts. Each can be put and answered.
use crate::numbers::{Part, Request, answer_all};
use couplers::channel::Channel;
use couplers::reading::{Reading, reading_of};
use engine::State;
use tokens::token::{SIZE, token_at};

// The places of a set that are answered at once.
const PLACES: usize = 1024;

// ---- putting

// Puts an item into a place, where there is one.
fn put_at<T: Copy>(items: &mut [T], at: usize, item: T) {
    if let Some(place) = items.get_mut(at) {
        *place = item;
    }
}

// A number is put into a place of the set.
pub fn put(request: &Request, set: &mut [u32; SIZE]) {
    put_at(set, request.word(4) as usize, request.word(8));
}

// The number that a pattern of bits stands for; a NaN's for none, and then it is the one before.
fn volts_of(bits: u32, before: f32) -> f32 {
    match reading_of(bits) {
        Reading::Volts(x) => x,
        Reading::Break | Reading::Short => before,
    }
}

// A number is put into a place of a channel.
fn put_channel(channel: &mut Channel, array: u32, n: u32) {
    match array {
        6 => channel.known = n == 1,
        7 => channel.last = volts_of(n, channel.last),
        _ => channel.faults = (n % 256) as u8,
    }
}

// A number is put into a place of an array of the state.
pub fn put_value(request: &Request, state: &mut State) {
    let array = request.word(4);
    let at = request.word(8) as usize;
    let n = request.word(12);
    match array {
        0 => put_at(&mut state.r, at, n.cast_signed()),
        1 => put_at(&mut state.cells, at, n.cast_signed()),
        2 => put_at(&mut state.runs, at, n == 1),
        3 => put_at(&mut state.locked, at, n == 1),
        4 => put_at(&mut state.cancelled, at, n == 1),
        5 => put_at(&mut state.memory, at, n == 1),
        6 | 7 | 8 => {
            if let Some(channel) = state.channels.get_mut(at) {
                put_channel(channel, array, n);
            }
        }
        9 => put_at(&mut state.acts, at, n),
        _ => {}
    }
}

// ---- answering

// Answers the numbers of 1,024 places of the set, from a place on; those past its end are 0.
pub fn write_set(rt: &impl Print, request: &Request, set: &[u32; SIZE]) {
    let from = request.word(4) as usize;
    let mut part = Part::new();
    for i in 0..PLACES {
        part.put(token_at(set, from + i));
    }
    part.write(rt);
}

// The bits of a number; those of a NaN, which no channel keeps, are 0.
fn bits_of(x: f32) -> u32 {
    if x.is_nan() { 0 } else { x.to_bits() }
}

// Answers every place of the state.
pub fn write_state(rt: &impl Print, state: &State) {
    answer_all(rt, &state.r);
    answer_all(rt, &state.cells);
    answer_all(rt, &state.runs);
    answer_all(rt, &state.locked);
    answer_all(rt, &state.cancelled);
    answer_all(rt, &state.memory);
    answer_all(rt, &state.channels.map(|c| c.known));
    answer_all(rt, &state.channels.map(|c| bits_of(c.last)));
    answer_all(rt, &state.channels.map(|c| u32::from(c.faults)));
    answer_all(rt, &state.acts);
}
