// A line by itself, at the beginning of an array that is otherwise 0: what the checks tell of it there. The array is 0 again afterwards.
//
// The array is the caller's set, lent to each check in turn, so that there is no second one of its size. A struct around it would be made at each call: so each call asks that it is empty and promises it.
ghost use Rattle.std.specs.Prelude.{◌≡◌, ◌≤◌, length, replicate};
ghost use Rattle.values.specs.PutAt.{put_at};
ghost use Rattle.tokens.specs.Token.{set_size};
ghost use Rattle.checking.specs.Fault.{line_at};
ghost use Rattle.checking.specs.CurveDefinition.{definition_at};
ghost use Rattle.engine.specs.Set.{asked_table, names_known, empty_set};
ghost use Rattle.reader.specs.Draft.{alone};

use checking::{Definition, Line, definition_at, line_at};
use engine::names_known;
use tokens::token::{CURVES, LINES, SIZE};

// Tokens are written from the first place on.
fn lay(row: &mut [u32; SIZE], tokens: &[u32])
    requires { length tokens.now ≤ set_size }
    ensures { row.new ≡ put_at row.old 0 tokens.now }
{
    row[..tokens.len()].copy_from_slice(tokens);
}

// The first n places are 0.
fn wipe(row: &mut [u32; SIZE], n: usize)
    requires { n ≤ set_size }
    ensures { row.new ≡ put_at row.old 0 (replicate n 0) }
{
    row[..n].fill(0);
}

// What the check tells of a line.
pub fn line_alone(row: &mut [u32; SIZE], tokens: &[u32]) -> Result<Line, u8>
    requires { (row.old ≡ empty_set) × (length tokens.now ≤ set_size) }
    ensures { (result ≡ line_at (alone tokens.now) 0) × (row.new ≡ empty_set) }
{
    lay(row, tokens);
    let l = line_at(row, 0);
    wipe(row, tokens.len());
    l
}

// What the check tells of a line FCTDEF.
pub fn curve_alone(row: &mut [u32; SIZE], tokens: &[u32]) -> Result<Definition, u8>
    requires { (row.old ≡ empty_set) × (length tokens.now ≤ set_size) }
    ensures { (result ≡ definition_at (alone tokens.now) 0) × (row.new ≡ empty_set) }
{
    lay(row, tokens);
    let d = definition_at(row, 0);
    wipe(row, tokens.len());
    d
}

// Whether each name in a line is known: of a curve those that are there, of a line one of some numbers, which is only asked with `asked`.
pub fn names_alone(
    row: &mut [u32; SIZE],
    numbers: &[u8; LINES],
    curves: &[bool; CURVES],
    asked: bool,
    tokens: &[u32],
) -> bool
    requires { (row.old ≡ empty_set) × (length tokens.now ≤ set_size) }
    ensures { (result ≡ names_known (alone tokens.now) (asked_table asked numbers.now curves.now) set_size 0) × (row.new ≡ empty_set) }
{
    lay(row, tokens);
    let known = names_known(row, numbers, curves, asked, 0);
    wipe(row, tokens.len());
    known
}
