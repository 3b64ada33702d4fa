// The set text as it comes in: how much of it is kept, and whether its last line is the line * that ends it.
ghost use Rattle.std.specs.Prelude.{◌≡◌, ◌+◌, ◌≤◌, min, length};
ghost use Rattle.transcript.specs.Input.{input_of};
ghost use Rattle.transcript.specs.SetText.{kept_size, no_place, star_after, star_on, is_alone, star_ends, place_kept, place_on, place_end, last_size};

use text::bytes::{CR, Kind, run_end};
use tokens::token::TEXT_SIZE;

// The bytes of set text that are kept: one more than a text may have, so that a longer one is seen to be too long.
pub const KEPT: usize = TEXT_SIZE + 1;

// What a line is so far: nothing, `*`, `*` and CR, anything else.
// `Unknown` is any number but theirs, as a session that is made up may have it: the line is anything else. No answer hangs on the number.
#[derive(Clone, Copy, PartialEq, Eq)]
pub enum Star {
    Empty,
    Alone,
    Return,
    Other,
    Unknown(u8),
}

// Where the set text stands: how many bytes of it are kept, where its last line begins, and what that line is so far.
#[derive(Clone, Copy)]
pub struct Place {
    pub size: usize,
    pub start: usize,
    pub star: Star,
}

impl Star {
    // What a line is with one more byte.
    #[tactic(auto, unfolding(crate::specs::SetText::star_after))]
    fn after(self, b: u8) -> Star
        ensures { result ≡ star_after self b }
    {
        match (self, b) {
            (Star::Empty, b'*') => Star::Alone,
            (Star::Alone, CR) => Star::Return,
            _ => Star::Other,
        }
    }

    #[tactic(auto, unfolding(crate::specs::SetText::star_on))]
    fn on(self, part: &[u8]) -> Star
        ensures { result ≡ star_on self part.now }
    {
        let mut star = self;
        for b in part {
            star = star.after(*b);
        }
        star
    }

    // Whether a line is *.
    fn is_alone(self) -> bool
        ensures { result ≡ is_alone self }
    {
        self == Star::Alone
    }

    // Whether a line is *, with or without a CR behind it.
    pub fn ends(self) -> bool
        ensures { result ≡ star_ends self }
    {
        matches!(self, Star::Alone | Star::Return)
    }
}

// The bytes kept with n more.
fn size_with(size: usize, n: usize) -> usize
    requires { size ≤ kept_size }
    ensures { result ≡ min kept_size (size + n) }
{
    size + n.min(KEPT - size)
}

impl Place {
    // Before the first byte.
    pub(crate) fn new() -> Place
        ensures { result ≡ no_place }
    {
        Place {
            size: 0,
            start: 0,
            star: Star::Empty,
        }
    }

    // Bytes of a line, no LF among them, in set text.
    #[tactic(auto, unfolding(crate::specs::SetText::place_on))]
    pub(crate) fn on_kept(self, part: &[u8]) -> Place
        requires { self.size ≤ kept_size }
        ensures { result ≡ place_on self part.now }
    {
        Place {
            size: size_with(self.size, part.len()),
            star: self.star.on(part),
            ..self
        }
    }

    // The LF of a line of set text.
    #[tactic(auto, unfolding(crate::specs::SetText::place_end))]
    pub(crate) fn end_kept(self) -> Place
        requires { self.size ≤ kept_size }
        ensures { result ≡ place_end self }
    {
        let size = size_with(self.size, 1);
        Place {
            size,
            start: size,
            star: Star::Empty,
        }
    }

    // With no more than is kept.
    pub(crate) fn kept(self) -> Place
        ensures { result ≡ place_kept self }
    {
        Place {
            size: self.size.min(KEPT),
            ..self
        }
    }

    // The two of a place of any size.
    #[tactic(auto, unfolding(crate::specs::SetText::place_on))]
    pub fn on(self, part: &[u8]) -> Place
        ensures { result ≡ place_on self part.now }
    {
        self.kept().on_kept(part)
    }

    #[tactic(auto, unfolding(crate::specs::SetText::place_end))]
    pub fn end(self) -> Place
        ensures { result ≡ place_end self }
    {
        self.kept().end_kept()
    }

    // Where the set text ends if its last line has no LF: before the line *, or behind all of it.
    pub fn text_size(self) -> usize
        ensures { result ≡ last_size self }
    {
        if self.star.is_alone() {
            self.start
        } else {
            self.size
        }
    }
}

// How many bytes of a whole input are its set text: those before the first line *, or all of it.
pub fn set_text_size(input: &[u8]) -> usize
    ensures { result ≡ length (input_of input.now).text }
{
    let mut at: usize = 0;
    // A line ends where its bytes say, and no line is read behind the line *: no plainer as a `for`.
    while at < input.len() {
        let end = run_end(input, at, Kind::Line);
        let star = Star::Empty.on(&input[at..end]);
        if end == input.len() {
            return if star.is_alone() { at } else { end };
        }
        if star.ends() {
            return at;
        }
        at = end + 1;
    }
    at
}
