// What is kept of a text while it is read: the tokens of its lines one behind the other in one array, and beside it a draft; and a line added to it.
//
// What is asked of a draft (`Held`) it has only together with the array beside it, which the checks are lent too: a struct of both would be taken apart at each, which is no plainer.
ghost use Rattle.std.specs.Prelude.{map, Option, is_some, ◌≡◌, true, false, ◌&&◌, [], ◌∷◌, ◌+◌, ◌-◌, ◌<◌, ◌≤◌, eqb, length, get_or};
ghost use Rattle.tokens.specs.Token.{END, FCTDEF, set_size, max_lines, max_curves};
ghost use Rattle.engine.specs.Set.{asked_table, names_known, empty_set};
ghost use Rattle.reader.specs.declared.draft.DraftLine.{DraftLine};
ghost use Rattle.reader.specs.declared.draft.Span.{Span};
ghost use Rattle.reader.specs.Load.{rows_from};
ghost use Rattle.reader.specs.Draft.{alone, no_draft, grown_by, grown_by_curve, kept_in, added_to, curve_added, line_added, at_line, Held, Follows, Says};

use crate::alone::{curve_alone, line_alone, names_alone};
use crate::line_tokens::write_tokens;
use engine::{is_defined, rank_in};
use tokens::token::{CURVES, FCTDEF, LINES, SIZE};
use values::codes::{NO_TOKEN, USED_ABOVE, WRONG_CURVE};

// What refuses a text: the code, and the line of the text.
#[derive(Clone, Copy)]
pub struct Refused {
    pub code: u8,
    pub line: u32,
}

// Where the tokens of a line stand: from `start` on, before `end`.
#[derive(Clone, Copy)]
pub struct Span {
    pub start: usize,
    pub end: usize,
}

impl Span {
    // How many tokens stand there.
    pub(crate) fn size(self) -> usize
        requires { self.start ≤ self.end }
        ensures { result ≡ self.end - self.start }
    {
        self.end - self.start
    }
}

// A numbered line that is kept: its number, where it stands in the text, and where its tokens stand.
#[derive(Clone, Copy)]
pub struct DraftLine {
    pub number: u8,
    pub place: u32,
    pub tokens: Span,
}

// How many lines are kept, and the place behind their tokens; each line; and of each curve, by number, where the tokens of its line stand, if it is there. No heap: 32 places and how many are in use.
#[derive(Clone, Copy)]
pub struct Draft {
    pub count: usize,
    pub at: usize,
    pub lines: [DraftLine; LINES],
    pub curves: [Option<Span>; CURVES],
}

// The draft without lines.
pub fn no_draft() -> Draft
    ensures { result ≡ no_draft }
{
    let none = DraftLine {
        number: 0,
        place: 0,
        tokens: Span { start: 0, end: 0 },
    };
    Draft {
        count: 0,
        at: 0,
        lines: [none; LINES],
        curves: [None; CURVES],
    }
}

// The numbers of the lines: a look-up of a line by its number goes through them.
pub fn numbers_in(lines: &[DraftLine; LINES]) -> [u8; LINES]
    ensures { result ≡ map (λ (l : DraftLine). l.number) lines.now }
{
    let mut numbers = [0; LINES];
    // Not by `map`, which would copy the lines into an iterator of its own, once a line of the text.
    for k in 0..LINES {
        numbers[k] = lines[k].number;
    }
    numbers
}

// Which curves are there.
pub fn curves_there(curves: &[Option<Span>; CURVES]) -> [bool; CURVES]
    ensures { result ≡ map (λ (x : Option Span). is_some x) curves.now }
{
    curves.map(|x| x.is_some())
}

// The line k of the text, with the number n, stands behind the others and ends before the place `end`.
fn grow_by(d: &mut Draft, k: u32, n: u8, end: usize)
    requires { d.old.count < max_lines }
    ensures { d.new ≡ grown_by d.old k n end }
{
    d.lines[d.count] = DraftLine {
        number: n,
        place: k,
        tokens: Span {
            start: d.at,
            end: end,
        },
    };
    d.count += 1;
    d.at = end;
}

// The line that defines curve n stands behind the others and ends before the place `end`.
fn grow_by_curve(d: &mut Draft, n: u32, end: usize)
    requires { (1 ≤ n) × (n ≤ max_curves) }
    ensures { d.new ≡ grown_by_curve d.old n end }
{
    d.curves[(n - 1) as usize] = Some(Span {
        start: d.at,
        end: end,
    });
    d.at = end;
}

// Whether a line defines a curve, where `count` numbered lines stand above it.
fn defines(count: usize, tokens: &[u32]) -> bool
    ensures { result ≡ (eqb count 0 && eqb (get_or tokens.now 0 END) FCTDEF) }
{
    count == 0 && tokens.first() == Some(&FCTDEF)
}

// The next line of the text, whose tokens are the last in s, up to the place `end`, defines a curve or refuses the text.
fn add_curve(s: &[u32; SIZE], row: &mut [u32; SIZE], d: &mut Draft, end: usize) -> Result<(), u8>
    requires { Held s.now d.old × Follows s.now d.old end × (row.old ≡ empty_set) }
    ensures { (added_to d.new result ≡ curve_added s.now d.old end) × (row.new ≡ empty_set) }
{
    let f = curve_alone(row, &s[d.at..end])?;
    if is_defined(&curves_there(&d.curves), f.number) {
        return Err(WRONG_CURVE);
    }
    grow_by_curve(d, f.number, end);
    Ok(())
}

// Whether each curve that a line names is there, where it is noted whether the line names anything: a line that names nothing is not looked through.
fn curves_known(
    row: &mut [u32; SIZE],
    numbers: &[u8; LINES],
    curves: &[bool; CURVES],
    names: bool,
    tokens: &[u32],
) -> bool
    requires { (row.old ≡ empty_set) × (length tokens.now ≤ set_size) × (names ≡ false → names_known (alone tokens.now) (asked_table false numbers.now curves.now) set_size 0 ≡ true) }
    ensures { (result ≡ names_known (alone tokens.now) (asked_table false numbers.now curves.now) set_size 0) × (row.new ≡ empty_set) }
{
    if !names {
        return true;
    }
    names_alone(row, numbers, curves, false, tokens)
}

// The line k of the text, whose tokens are the last in s, up to the place `end`, is added as a numbered line or refuses the text.
fn add_numbered(
    s: &[u32; SIZE],
    row: &mut [u32; SIZE],
    d: &mut Draft,
    k: u32,
    end: usize,
) -> Result<(), u8>
    requires { Held s.now d.old × Follows s.now d.old end × (row.old ≡ empty_set) × (d.old.count < max_lines) }
    ensures { (added_to d.new result ≡ line_added s.now d.old k end) × (row.new ≡ empty_set) }
{
    let tokens = &s[d.at..end];
    let l = line_alone(row, tokens)?;
    let numbers = numbers_in(&d.lines);
    if rank_in(&numbers, l.number as u32) < LINES {
        return Err(USED_ABOVE);
    }
    let curves = curves_there(&d.curves);
    if !curves_known(row, &numbers, &curves, l.names, tokens) {
        return Err(WRONG_CURVE);
    }
    grow_by(d, k, l.number, end);
    Ok(())
}

// The line k of the text is added, or refuses the text: then the draft is of no use.
pub fn add_line(
    body: &[u8],
    s: &mut [u32; SIZE],
    row: &mut [u32; SIZE],
    d: &mut Draft,
    k: u32,
) -> Result<(), u8>
    requires { Held s.old d.old × (row.old ≡ empty_set) × (d.old.count < max_lines) × (d.old.at + length body.now ≤ set_size) }
    ensures { Says (rows_from (kept_in s.old d.old) (record { place = k; body = body.now } ∷ [])) s.new (at_line k (added_to d.new result)) × (row.new ≡ empty_set) }
{
    let at = d.at;
    let Some(count) = write_tokens(body, s, at) else {
        return Err(NO_TOKEN);
    };
    let end = at + count;
    if defines(d.count, &s[at..end]) {
        return add_curve(s, row, d, end);
    }
    add_numbered(s, row, d, k, end)
}
