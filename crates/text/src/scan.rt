// The first token of some bytes.
ghost use Rattle.std.specs.Prelude.{◌≡◌, [], ◌∷◌, ◌+◌, ◌≤◌, length, get_or, drop};
ghost use Rattle.text.specs.Byte.{is_letter};
ghost use Rattle.text.specs.Word.{pairs, singles, token_in, some_token};
ghost use Rattle.text.specs.First.{word_first, behind_point, with_point, number_with, number_first, sign_first, first_token};

use crate::bytes::{Kind, POINT, is_digit, is_letter, run_end, starts_word};
use crate::number::number_token;
use crate::word::word_token;
use tokens::token::{
    ATLEAST, ATMOST, CLOSE, COMMA, EQUALS, LEFT, LESS, MINUS, MORE, OPEN, OTHER, OVER, PLUS, RIGHT,
    SAME, TIMES,
};

// A token and how many bytes it takes.
#[derive(Clone, Copy)]
pub struct First {
    pub token: u32,
    pub size: usize,
}

#[tactic(auto, unfolding(crate::specs::First::word_first))]
fn word_first(part: &[u8]) -> Option<First>
    requires { 1 ≤ length part.now }
    ensures { result ≡ word_first part.now }
{
    let size = run_end(part, 1, Kind::Word);
    let token = word_token(&part[..size])?;
    Some(First { token, size })
}

// How many digits stand behind a point at n.
#[tactic(auto, unfolding(crate::specs::First::behind_point))]
fn behind_point(part: &[u8], n: usize) -> usize
    ensures { result ≡ behind_point (drop n part.now) }
{
    match part.get(n) {
        Some(&POINT) => run_end(part, n + 1, Kind::Digit) - (n + 1),
        _ => 0,
    }
}

// Where a number of n digits, a point and m digits ends; no point without digits behind it.
fn number_end(n: usize, m: usize) -> usize
    requires { n + with_point m ≤ 18446744073709551615 }
    ensures { result ≡ n + with_point m }
{
    if m == 0 { n } else { n + m + 1 }
}

fn is_letter_at(part: &[u8], k: usize) -> bool
    ensures { result ≡ is_letter (get_or part.now k 0) }
{
    part.get(k).is_some_and(|b| is_letter(*b))
}

// A number of n digits, and m behind a point.
#[tactic(auto, unfolding(crate::specs::First::number_with))]
fn number_with(part: &[u8], n: usize, m: usize) -> Option<First>
    requires { n + with_point m ≤ length part.now }
    ensures { result ≡ number_with part.now n m }
{
    let size = number_end(n, m);
    if is_letter_at(part, size) {
        return None;
    }
    let token = number_token(&part[..n], &part[size - m..size]);
    Some(First { token, size })
}

#[tactic(auto, unfolding(crate::specs::First::number_first))]
fn number_first(part: &[u8]) -> Option<First>
    ensures { result ≡ number_first part.now }
{
    let n = run_end(part, 0, Kind::Digit);
    let m = behind_point(part, n);
    number_with(part, n, m)
}

// The token of a sign of two bytes.
fn pair_token(a: u8, b: u8) -> Option<u32>
    ensures { result ≡ some_token (token_in pairs (a ∷ b ∷ [])) }
{
    match (a, b) {
        (b'=', b'=') => Some(SAME),
        (b'<', b'>') => Some(OTHER),
        (b'<', b'=') => Some(ATMOST),
        (b'>', b'=') => Some(ATLEAST),
        _ => None,
    }
}

// That of a sign of one byte.
fn single_token(a: u8) -> Option<u32>
    ensures { result ≡ some_token (token_in singles (a ∷ [])) }
{
    match a {
        b'=' => Some(EQUALS),
        b'<' => Some(LESS),
        b'>' => Some(MORE),
        b'+' => Some(PLUS),
        b'-' => Some(MINUS),
        b'*' => Some(TIMES),
        b'/' => Some(OVER),
        b'(' => Some(OPEN),
        b')' => Some(CLOSE),
        b'[' => Some(LEFT),
        b']' => Some(RIGHT),
        b',' => Some(COMMA),
        _ => None,
    }
}

// A sign of two bytes, else of one.
#[tactic(auto, unfolding(crate::specs::First::sign_first))]
fn sign_first(part: &[u8]) -> Option<First>
    ensures { result ≡ sign_first part.now }
{
    let pair = match part {
        [a, b, ..] => pair_token(*a, *b),
        _ => None,
    };
    if let Some(token) = pair {
        return Some(First { token, size: 2 });
    }
    let token = single_token(*part.first()?)?;
    Some(First { token, size: 1 })
}

// The first token from a place on, longest first.
#[tactic(auto, unfolding(crate::specs::First::first_token))]
pub fn first_token(text: &[u8], at: usize) -> Option<First>
    ensures { result ≡ first_token (drop at text.now) }
{
    let part = text.get(at..)?;
    match *part.first()? {
        b if starts_word(b) => word_first(part),
        b if is_digit(b) => number_first(part),
        _ => sign_first(part),
    }
}
