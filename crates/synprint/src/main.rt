// synprint: reads what synrun reads, from standard input, and writes the print of the set that the text before the line * loads, or L code line. Beat lines are not looked at.
//
// Where reading or writing fails it says so on standard error and stops.
#![tactic(auto)]

ghost use Rattle.std.specs.Prelude.{◌≡◌, ◌≤◌, length, IfOk};
ghost use Rattle.values.specs.PutAt.{put_at};
ghost use Rattle.synprint.specs.Synprint.{synprint};

use engine::empty_set;
use print::print;
use reader::load;
use std::io;
use std::io::Read;
use tokens::token::TEXT_SIZE;
use transcript::{put_refusal, set_text_size};

// The bytes of input that are read: a text of 4,097 bytes is refused whatever it holds, and the line * behind one of 4,096 takes three more.
const INPUT: usize = TEXT_SIZE + 4;

// What the input prints, at the start of a buffer; the answer is how many bytes it is.
fn answer(input: &[u8], out: &mut [u8; TEXT_SIZE]) -> usize
    ensures value { (result ≡ length (synprint input.now)) × (result ≤ length out.new) }
    ensures out_after { out.new ≡ put_at out.old 0 (synprint input.now) }
{
    let size = set_text_size(input);
    let mut set = empty_set();
    let l = load(&input[..size], &mut set);
    if l.code != 0 {
        return put_refusal(out, l.code, l.line);
    }
    // What a text loads is never refused.
    print(&set, out).unwrap()
}

// Reads until the input is over, or enough of it has come: how many bytes that is.
fn read_input(source: &mut impl Read, input: &mut [u8]) -> io::Result<usize>
    ensures { IfOk result (λ size. size ≤ length input.old) }
{
    let mut size = 0;
    // A read takes as many bytes as it likes: no `for` counts them.
    while size < input.len() {
        let n = source.read(&mut input[size..])?;
        if n == 0 {
            break;
        }
        size += n;
    }
    Ok(size)
}

// Where not even standard error can be written, nothing is said.
fn main(rt: HostRuntime) {
    let mut input = [0u8; INPUT];
    let Ok(size) = read_input(&mut rt.stdin(), &mut input) else {
        let _ = eprintln!(rt; "synprint: standard input cannot be read");
        return;
    };
    let mut out = [0u8; TEXT_SIZE];
    let n = answer(&input[..size], &mut out);
    if rt.write_all(&out[..n]).is_err() {
        let _ = eprintln!(rt; "synprint: standard output cannot be written");
    }
}
