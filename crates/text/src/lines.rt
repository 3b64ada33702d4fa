// Where a line of a text ends, and which lines have nothing to them.
ghost use Rattle.std.specs.Prelude.{◌≡◌, drop};
ghost use Rattle.text.specs.Lines.{without_return, bounds_at, is_blank};

use crate::bytes::{CR, Kind, SPACE, run_end};

// The place where a line ends, at its LF or the end of the text, and the place where its body ends, before comment and CR.
#[derive(Clone, Copy)]
pub struct Bounds {
    pub end: usize,
    pub body: usize,
}

// Only spaces.
#[tactic(auto, unfolding(crate::specs::Lines::is_blank))]
pub fn is_blank(part: &[u8]) -> bool
    ensures { result ≡ is_blank part.now }
{
    part.iter().all(|b| *b == SPACE)
}

// A line without a CR at its end.
#[tactic(auto, unfolding(crate::specs::Lines::without_return))]
fn without_return(line: &[u8]) -> &[u8]
    ensures { result.now ≡ without_return line.now }
{
    match line {
        [kept @ .., CR] => kept,
        _ => line,
    }
}

// The bounds of the line that begins at a place. A CR is dropped only before an LF, so not at the end of the text.
#[tactic(auto, unfolding(crate::specs::Lines::bounds_at, crate::specs::Lines::first_body, crate::specs::Lines::without_comment))]
pub fn line_bounds(text: &[u8], at: usize) -> Bounds
    ensures { result ≡ bounds_at at (drop at text.now) }
{
    if text.len() <= at {
        return Bounds { end: at, body: at };
    }
    let end = run_end(text, at, Kind::Line);
    let line = &text[at..end];
    let kept = if end == text.len() {
        line
    } else {
        without_return(line)
    };
    let size = run_end(kept, 0, Kind::Body);
    Bounds {
        end,
        body: at + size,
    }
}
