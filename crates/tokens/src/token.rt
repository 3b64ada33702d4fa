// The tokens: their numbers, and what a token is. The same table stands in specs/Token.
//
// A token stays a number: the theorems of the grammar, of the turns and of the loading speak of a set as numbers in one array, and a C host keeps that array.
ghost use Rattle.std.specs.Prelude.{◌≡◌, get_or};
ghost use Rattle.tokens.specs.Token.{is_variable, is_fifo, is_axis, is_drive, is_move, is_call, is_lock, is_naming, is_keyword, is_id, is_factor, is_term, is_arithmetic, is_compare, is_logic, is_whole, whole};
ghost use Rattle.tokens.specs.Descent.{is_row, is_index, index_of, is_indexed, index_at};

// The lines that a set may have, the actions of each, and the bytes of its text.
pub const LINES: usize = 32;

pub const ACTIONS: usize = 8;

pub const TEXT_SIZE: usize = 4096;
// The curves and the lists that a set has places for, and the lines of a list.
pub const CURVES: usize = 3;

pub const LISTS: usize = 8;

pub const LIST_LINES: usize = 16;
// The places before the tokens: how many lines and where each starts, where each curve starts, and of each list how many lines and where each starts.
pub const TABLE_SIZE: usize = 1 + LINES + CURVES + LISTS * (1 + LIST_LINES);
// The places of a set: its table, and the tokens of a text with an end to each line.
pub const SIZE: usize = TABLE_SIZE + TEXT_SIZE + 1;
// More than the places of a set: what places are counted by where one number holds a place and more.
pub const ROOM: u64 = 8192;

pub const END: u32 = 0;

pub const EQUALS: u32 = 1;

pub const SAME: u32 = 2;

pub const OTHER: u32 = 3;

pub const LESS: u32 = 4;

pub const MORE: u32 = 5;

pub const ATMOST: u32 = 6;

pub const ATLEAST: u32 = 7;

pub const PLUS: u32 = 8;

pub const MINUS: u32 = 9;

pub const TIMES: u32 = 10;

pub const OVER: u32 = 11;

pub const OPEN: u32 = 12;

pub const CLOSE: u32 = 13;

pub const LEFT: u32 = 14;

pub const RIGHT: u32 = 15;

pub const ID: u32 = 16;

pub const IDS: u32 = 17;

pub const WHEN: u32 = 18;

pub const WHENEVER: u32 = 19;

pub const FROM: u32 = 20;

pub const EVERY: u32 = 21;

pub const DO: u32 = 22;

pub const TRUE: u32 = 23;

pub const FALSE: u32 = 24;

pub const NOT: u32 = 25;

pub const AND: u32 = 26;

pub const OR: u32 = 27;

pub const XOR: u32 = 28;

pub const COMMA: u32 = 29;

pub const FCTDEF: u32 = 30;

pub const IN: u32 = 32;

pub const INA: u32 = 33;

pub const OUT: u32 = 34;

pub const MARKER: u32 = 35;

pub const PARAM: u32 = 36;

pub const R: u32 = 37;

pub const TIMER: u32 = 38;

pub const FIFO1: u32 = 39;

pub const FIFO4: u32 = 42;

pub const IM: u32 = 43;

pub const POS: u32 = 48;

pub const FA: u32 = 49;

pub const MOV: u32 = 50;

pub const M: u32 = 51;

pub const SETAL: u32 = 52;

pub const LOCK: u32 = 53;

pub const UNLOCK: u32 = 54;

pub const SYNFCT: u32 = 56;

pub const X: u32 = 57;

pub const W: u32 = 62;

pub const NUMBER: u32 = 2147483648;

// The token at a place, 0 past the end.
pub fn token_at(set: &[u32], at: usize) -> u32
    ensures { result ≡ get_or set.now at 0 }
{
    if at < set.len() { set[at] } else { 0 }
}

pub fn is_variable(t: u32) -> bool
    ensures { result ≡ is_variable t }
{
    matches!(t, IN..=IM)
}

pub fn is_fifo(t: u32) -> bool
    ensures { result ≡ is_fifo t }
{
    matches!(t, FIFO1..=FIFO4)
}

pub fn is_axis(t: u32) -> bool
    ensures { result ≡ is_axis t }
{
    matches!(t, X..=W)
}

pub fn is_drive(t: u32) -> bool
    ensures { result ≡ is_drive t }
{
    matches!(t, POS..=MOV)
}

// POS or MOV; FA is no move.
pub fn is_move(t: u32) -> bool
    ensures { result ≡ is_move t }
{
    matches!(t, POS | MOV)
}

pub fn is_call(t: u32) -> bool
    ensures { result ≡ is_call t }
{
    matches!(t, SETAL..=UNLOCK)
}

// LOCK and UNLOCK.
pub fn is_lock(t: u32) -> bool
    ensures { result ≡ is_lock t }
{
    matches!(t, LOCK..=UNLOCK)
}

// Whether the first number in the brackets of a word is a name: LOCK and UNLOCK, and SYNFCT.
pub fn is_naming(t: u32) -> bool
    ensures { result ≡ is_naming t }
{
    is_lock(t) || t == SYNFCT
}

pub fn is_keyword(t: u32) -> bool
    ensures { result ≡ is_keyword t }
{
    matches!(t, WHEN..=EVERY)
}

pub fn is_id(t: u32) -> bool
    ensures { result ≡ is_id t }
{
    matches!(t, ID..=IDS)
}

pub fn is_factor(t: u32) -> bool
    ensures { result ≡ is_factor t }
{
    matches!(t, TIMES..=OVER)
}

pub fn is_term(t: u32) -> bool
    ensures { result ≡ is_term t }
{
    matches!(t, PLUS..=MINUS)
}

// One of + - * /: those of a term stand directly before those of a factor.
pub fn is_arithmetic(t: u32) -> bool
    ensures { result ≡ is_arithmetic t }
{
    matches!(t, PLUS..=OVER)
}

pub fn is_compare(t: u32) -> bool
    ensures { result ≡ is_compare t }
{
    matches!(t, SAME..=ATLEAST)
}

pub fn is_logic(t: u32) -> bool
    ensures { result ≡ is_logic t }
{
    matches!(t, AND..=XOR)
}

// Whether a token goes on with the row of AND, OR or XOR that began with `first`.
pub fn is_row(first: u32, t: u32) -> bool
    ensures { result ≡ is_row first t }
{
    is_logic(t) && t == first
}

// Whether a token is a number written without a point.
pub fn is_whole(t: u32) -> bool
    ensures { result ≡ is_whole t }
{
    t >= NUMBER && (t - NUMBER) % 2000 == 0
}

// The number that a whole number's token carries; 0 for a token that is no number.
pub fn whole_of(t: u32) -> u32
    ensures { result ≡ whole t }
{
    t.saturating_sub(NUMBER) / 2000
}

// Whether a token is an index of the word w: an axis letter, or a number without a point.
#[tactic(auto, unfolding(crate::specs::Descent::is_index))]
fn is_index(w: u32, t: u32) -> bool
    ensures { result ≡ is_index w t }
{
    if w < IM { is_whole(t) } else { is_axis(t) }
}

// The index that a token is for the word w; X to W are 1 to 6.
#[tactic(auto, unfolding(crate::specs::Descent::index_of))]
fn index_of(w: u32, t: u32) -> u32
    ensures { result ≡ index_of w t }
{
    if w < IM {
        whole_of(t)
    } else {
        t.saturating_sub(X - 1)
    }
}

// Whether an index of the word w stands behind place `at`.
#[tactic(auto, unfolding(crate::specs::Descent::is_indexed))]
pub fn is_indexed(set: &[u32], w: u32, at: usize) -> bool
    ensures { result ≡ is_indexed set.now w at }
{
    at < set.len()
        && token_at(set, at + 1) == LEFT
        && token_at(set, at + 3) == RIGHT
        && is_index(w, token_at(set, at + 2))
}

// The index of the word w behind place `at`.
#[tactic(auto, unfolding(crate::specs::Descent::index_at))]
pub fn index_at(set: &[u32], w: u32, at: usize) -> u32
    ensures { result ≡ index_at set.now w at }
{
    index_of(w, token_at(set, at.saturating_add(2)))
}
