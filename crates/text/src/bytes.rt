// The kinds of bytes that a text is made of, and runs of one kind.
ghost use Rattle.std.specs.Prelude.{◌≡◌, ◌+◌, drop};
ghost use Rattle.text.specs.Byte.{is_digit, is_letter, starts_word, is_word_byte, kind_of, run};

pub const LF: u8 = 10;

pub const CR: u8 = 13;

pub const SPACE: u8 = 32;

// $
pub(crate) const DOLLAR: u8 = 36;

// .
pub const POINT: u8 = 46;

// ; begins a comment
const COMMENT: u8 = 59;

// _
const LOWLINE: u8 = 95;

// What the bytes of a run are: digits, the bytes of a word, no LF, no comment's begin.
#[derive(Clone, Copy)]
pub enum Kind {
    Digit,
    Word,
    Line,
    Body,
}

pub fn is_digit(b: u8) -> bool
    ensures { result ≡ is_digit b }
{
    matches!(b, b'0'..=b'9')
}

// An upper case letter.
pub(crate) fn is_letter(b: u8) -> bool
    ensures { result ≡ is_letter b }
{
    matches!(b, b'A'..=b'Z')
}

// A letter or $.
pub(crate) fn starts_word(b: u8) -> bool
    ensures { result ≡ starts_word b }
{
    is_letter(b) || b == DOLLAR
}

// A letter, a digit or _.
fn is_word_byte(b: u8) -> bool
    ensures { result ≡ is_word_byte b }
{
    is_letter(b) || is_digit(b) || b == LOWLINE
}

fn is_of(kind: Kind, b: u8) -> bool
    ensures { result ≡ kind_of kind b }
{
    match kind {
        Kind::Digit => is_digit(b),
        Kind::Word => is_word_byte(b),
        Kind::Line => b != LF,
        Kind::Body => b != COMMENT,
    }
}

// How many of the first bytes are of a kind.
fn run(part: &[u8], kind: Kind) -> usize
    ensures { result ≡ run (kind_of kind) part.now }
{
    part.iter()
        .position(|b| !is_of(kind, *b))
        .unwrap_or(part.len())
}

// Where the bytes of a kind that stand from a place on end. A closure in place of the kind would ask of the caller that it may be called, and no public call asks anything.
#[tactic(auto, unfolding(crate::specs::Byte::run))]
pub fn run_end(text: &[u8], at: usize, kind: Kind) -> usize
    ensures { result ≡ at + run (kind_of kind) (drop at text.now) }
{
    if text.len() <= at {
        return at;
    }
    at + run(&text[at..], kind)
}
