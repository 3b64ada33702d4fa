// The lines of a text are read one after the other, up to the first that refuses it.
ghost use Rattle.std.specs.Prelude.{◌≡◌, [], ◌∷◌, ◌+◌, ◌≤◌, length};
ghost use Rattle.text.specs.Lines.{numbered, token_lines};
ghost use Rattle.tokens.specs.Token.{set_size, max_lines, text_size};
ghost use Rattle.engine.specs.Set.{empty_set};
ghost use Rattle.reader.specs.Row.{nothing};
ghost use Rattle.reader.specs.Load.{rows_from};
ghost use Rattle.reader.specs.Draft.{no_draft, kept_in, added_to, at_line, Held, Says};

use crate::draft::{Draft, Refused, add_line};
use text::{is_blank, line_bounds};
use tokens::token::SIZE;

// The line k of the text is added, unless it is only spaces and comment.
fn take_line(
    body: &[u8],
    s: &mut [u32; SIZE],
    row: &mut [u32; SIZE],
    d: &mut Draft,
    k: u32,
) -> Result<(), u8>
    requires { Held s.old d.old × (row.old ≡ empty_set) × (d.old.count + length (numbered k (body.now ∷ [])) ≤ max_lines) × (d.old.at + length body.now ≤ set_size) }
    ensures { Says (rows_from (kept_in s.old d.old) (numbered k (body.now ∷ []))) s.new (at_line k (added_to d.new result)) × (row.new ≡ empty_set) }
{
    if is_blank(body) {
        return Ok(());
    }
    add_line(body, s, row, d, k)
}

// What refuses the text does so at its line k.
fn at_line(k: u32, added: Result<(), u8>) -> Result<(), Refused>
    ensures { result ≡ at_line k added }
{
    added.map_err(|code| Refused {
        code: code,
        line: k,
    })
}

// The lines of a text are added to the draft without lines, up to the first that refuses the text.
pub fn read_lines(
    text: &[u8],
    s: &mut [u32; SIZE],
    row: &mut [u32; SIZE],
    d: &mut Draft,
) -> Result<(), Refused>
    requires { (length text.now ≤ text_size) × (length (token_lines text.now) ≤ max_lines) × (s.old ≡ empty_set) × (row.old ≡ empty_set) × (d.old ≡ no_draft) }
    ensures { Says (rows_from nothing (token_lines text.now)) s.new (added_to d.new result) × (row.new ≡ empty_set) }
{
    let mut k: u32 = 1;
    // By the bounds of the line at hand, which say where the next one begins: a `split` would look for its end a second time, and an iterator of the two loops' own would be no plainer.
    let mut i: usize = 0;
    while i <= text.len() {
        let b = line_bounds(text, i);
        let end = b.body;
        at_line(k, take_line(&text[i..end], s, row, d, k))?;
        k += 1;
        i = b.end + 1;
    }
    Ok(())
}
