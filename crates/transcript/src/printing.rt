// The lines that a session prints, each at a place of a lent buffer; the answer is the place behind it.
//
// A buffer and the place in it stay two parameters: most calls are `at + put_..(out, at, ..)` of another layer. A struct around them would be lent anew at each call, which is no plainer.
ghost use Rattle.std.specs.Prelude.{◌≡◌, cond, [], ◌∷◌, ◌++◌, ◌+◌, ◌*◌, ◌≤◌, length};
ghost use Rattle.engine.specs.Order.{order_size, max_orders};
ghost use Rattle.text.specs.Byte.{bytes};
ghost use Rattle.tokens.specs.Token.{max_lines};
ghost use Rattle.values.specs.PutAt.{put_at, IsPut};
ghost use Rattle.transcript.specs.Output.{spaced, printed_line, decimals, load_line, error_line, code_line, order_line, order_lines, end_line, standing_word, status_line, status_rows, order_room, status_room, out_size};

use engine::{LineStatus, MAX_ORDERS, ORDER_BYTES, Standing};
use text::buffer::{put, put_bytes};
use text::bytes::{LF, SPACE};
use text::digits::{put_number, put_signed};
use tokens::token::LINES;

const S: u8 = 83;

// The bytes of C, of O and of S at most: a number has up to ten digits.
const CODE_ROOM: usize = 35;

const ORDER_ROOM: usize = 47;

const STATUS_ROOM: usize = 38;

// What is printed at the end at most: an S per line, which is more than END.
const END_ROOM: usize = STATUS_ROOM * LINES;

// What a line of input prints at most: C, an O per order, and the end behind the last beat.
const LINE_ROOM: usize = CODE_ROOM + ORDER_ROOM * MAX_ORDERS + END_ROOM;

// The last place where what a line of input prints may begin.
pub const LAST_START: usize = 65536;

// The bytes that output is handed over in.
pub const OUT: usize = LAST_START + LINE_ROOM;

// A number behind a space.
fn put_field(out: &mut [u8], at: usize, n: u32) -> usize
    requires { at ≤ out_size + 36 }
    ensures { IsPut out.old at (spaced (decimals (n ∷ []))) out.new result }
{
    put(out, at, SPACE);
    let p = at + 1;
    p + put_number(out, p, n)
}

// Numbers, each behind a space.
fn put_numbers(out: &mut [u8], at: usize, numbers: &[u32]) -> usize
    requires { (at ≤ out_size + 3) × (length numbers.now ≤ 3) }
    ensures { IsPut out.old at (spaced (decimals numbers.now)) out.new result }
{
    let mut p = at;
    for n in numbers {
        p = put_field(out, p, *n);
    }
    p
}

// A word, and numbers behind it.
fn put_fields(out: &mut [u8], at: usize, word: &[u8], numbers: &[u32]) -> usize
    requires { (at ≤ out_size) × (length word.now ≤ 3) × (length numbers.now ≤ 3) }
    ensures { IsPut out.old at (word.now ++ spaced (decimals numbers.now)) out.new result }
{
    put_bytes(out, at, word);
    put_numbers(out, at + word.len(), numbers)
}

// A line of a word and numbers.
fn put_line(out: &mut [u8], at: usize, word: &[u8], numbers: &[u32]) -> usize
    requires { (at ≤ out_size) × (length word.now ≤ 3) × (length numbers.now ≤ 3) }
    ensures { IsPut out.old at (printed_line word.now (decimals numbers.now)) out.new result }
{
    let p = put_fields(out, at, word, numbers);
    put(out, p, LF);
    p + 1
}

// L code line
#[tactic(auto, unfolding(crate::specs::Output::load_line))]
pub fn load_line(out: &mut [u8], at: usize, code: u8, line: u32) -> usize
    requires { at ≤ out_size }
    ensures { IsPut out.old at (load_line code line) out.new result }
{
    put_line(out, at, b"L", &[u32::from(code), line])
}

// The same at a buffer's start; the answer is how many bytes it is.
pub fn put_refusal(out: &mut [u8], code: u8, line: u32) -> usize
    ensures value { result ≡ length (load_line code line) }
    ensures out_after { out.new ≡ put_at out.old 0 (load_line code line) }
{
    load_line(out, 0, code, line)
}

// E k
#[tactic(auto, unfolding(crate::specs::Output::error_line))]
pub fn error_line(out: &mut [u8], at: usize, k: u32) -> usize
    requires { at ≤ out_size }
    ensures { IsPut out.old at (error_line k) out.new result }
{
    put_line(out, at, b"E", &[k])
}

// C beat code orders
#[tactic(auto, unfolding(crate::specs::Output::code_line))]
pub fn code_line(out: &mut [u8], at: usize, beat: u32, code: u8, orders: u32) -> usize
    requires { at ≤ out_size }
    ensures { IsPut out.old at (code_line beat code orders) out.new result }
{
    put_line(out, at, b"C", &[beat, u32::from(code), orders])
}

// END beats beats-with-a-code orders
#[tactic(auto, unfolding(crate::specs::Output::end_line))]
pub fn end_line(out: &mut [u8], at: usize, beats: u32, coded: u32, orders: u32) -> usize
    requires { at ≤ out_size }
    ensures { IsPut out.old at (end_line beats coded orders) out.new result }
{
    put_line(out, at, b"END", &[beats, coded, orders])
}

// ---- orders

// O line kind target value, of an order's bytes.
#[tactic(auto, unfolding(crate::specs::Output::order_line, crate::specs::Output::four_of))]
fn order_line(out: &mut [u8], at: usize, order: &[u8; ORDER_BYTES]) -> usize
    requires { at ≤ out_size }
    ensures { IsPut out.old at (order_line order.now) out.new result }
{
    let [kind, line, target, _, a, b, c, d] = *order;
    let numbers = [u32::from(line), u32::from(kind), u32::from(target)];
    let p = put_fields(out, at, b"O", &numbers);
    put(out, p, SPACE);
    let q = p + 1;
    let end = q + put_signed(out, q, u32::from_le_bytes([a, b, c, d]));
    put(out, end, LF);
    end + 1
}

// The lines of n orders.
pub fn order_lines(out: &mut [u8], at: usize, orders: &[u8], n: u32) -> usize
    requires room { (at + order_room * n ≤ out_size) × (n ≤ max_orders) }
    requires long { order_size * n ≤ length orders.now }
    ensures { IsPut out.old at (order_lines n orders.now) out.new result }
{
    let mut p = at;
    let mut rest = orders;
    for _ in 0..n {
        let Some((order, behind)) = rest.split_first_chunk() else {
            return p;
        };
        p = order_line(out, p, order);
        rest = behind;
    }
    p
}

// ---- the status picture

// A word behind a space.
fn put_word(out: &mut [u8], at: usize, word: &[u8]) -> usize
    requires { (at ≤ out_size + 36) × (length word.now ≤ 9) }
    ensures { IsPut out.old at (spaced (word.now ∷ [])) out.new result }
{
    put(out, at, SPACE);
    let p = at + 1;
    put_bytes(out, p, word);
    p + word.len()
}

// ID or IDS.
fn put_kind(out: &mut [u8], at: usize, ids: bool) -> usize
    requires { at ≤ out_size + 1 }
    ensures { IsPut out.old at (spaced (cond ids (bytes "IDS") (bytes "ID") ∷ [])) out.new result }
{
    if ids {
        put_word(out, at, b"IDS")
    } else {
        put_word(out, at, b"ID")
    }
}

// Locked, cancelled or waiting.
fn put_standing(out: &mut [u8], at: usize, standing: Standing) -> usize
    requires { at ≤ out_size + 36 }
    ensures { IsPut out.old at (spaced (standing_word standing ∷ [])) out.new result }
{
    match standing {
        Standing::Locked => put_word(out, at, b"locked"),
        Standing::Cancelled => put_word(out, at, b"cancelled"),
        Standing::Waiting => put_word(out, at, b"waiting"),
    }
}

// S kind number standing acts
fn status_line(out: &mut [u8], at: usize, row: LineStatus) -> usize
    requires { at ≤ out_size }
    ensures { IsPut out.old at (status_line row) out.new result }
{
    put(out, at, S);
    let p = put_kind(out, at + 1, row.ids);
    let q = put_field(out, p, u32::from(row.number));
    let r = put_standing(out, q, row.standing);
    let end = put_field(out, r, row.acts);
    put(out, end, LF);
    end + 1
}

// The first rows of a picture.
pub fn status_rows(out: &mut [u8], at: usize, rows: [LineStatus; LINES], count: usize) -> usize
    requires { (at + status_room * count ≤ out_size) × (count ≤ max_lines) }
    ensures { IsPut out.old at (status_rows count 0 rows) out.new result }
{
    let mut p = at;
    for row in &rows[..count] {
        p = status_line(out, p, *row);
    }
    p
}
