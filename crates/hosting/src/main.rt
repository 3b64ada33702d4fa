// hosting, a test: works the requests of a host session by the proved calls and answers each in numbers. tests/HOST-SESSIONS.md, "Requests and answers", gives their form.
// It is proved safe and to end, no more. Where reading fails the input ends there; what cannot be written is left out.
#![tactic(auto)]

mod numbers;
mod places;
mod requests;

use numbers::{REQUEST, Request};
use requests::{Host, TEXT};
use std::io::Read;

// More requests are not worked.
const REQUESTS: u32 = 1000000;

// Fills a buffer. Where the input ends before that, or fails, the rest of the buffer stays as it was.
fn read_full(input: &mut impl Read, buffer: &mut [u8]) {
    let mut done = 0;
    // A read takes as many bytes as it likes: no `for` counts them.
    while done < buffer.len() {
        match input.read(&mut buffer[done..]) {
            Ok(0) | Err(_) => return,
            Ok(n) => done += n,
        }
    }
}

// The next request; all 0 at the end of the input.
fn next(input: &mut impl Read) -> Request {
    let mut bytes = [0u8; REQUEST];
    read_full(input, &mut bytes);
    Request { bytes }
}

// Works each request up to the first without a letter.
fn work_all(rt: &impl Print, input: &mut impl Read, host: &mut Host) {
    for _ in 0..REQUESTS {
        let request = next(input);
        if request.letter() == 0 {
            return;
        }
        host.work(rt, &request);
    }
}

fn main(rt: HostRuntime) {
    let mut input = rt.stdin();
    let mut text = [0u8; TEXT];
    read_full(&mut input, &mut text);
    work_all(&rt, &mut input, &mut Host::new(text));
}
