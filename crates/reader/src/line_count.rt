// How many lines with tokens a text has.
ghost use Rattle.std.specs.Prelude.{◌≡◌, ◌≤◌, length};
ghost use Rattle.tokens.specs.Token.{text_size};
ghost use Rattle.text.specs.Lines.{token_lines};

use text::{is_blank, line_bounds};

// How many lines with tokens a text has.
pub fn count_lines(text: &[u8]) -> usize
    requires { length text.now ≤ text_size }
    ensures { result ≡ length (token_lines text.now) }
{
    let mut n: usize = 0;
    // By the bounds of the line at hand, which say where the next one begins: a `split` would look for its end a second time, and an iterator of the two loops' own would be no plainer.
    let mut i: usize = 0;
    while i <= text.len() {
        let b = line_bounds(text, i);
        let end = b.body;
        if !is_blank(&text[i..end]) {
            n += 1;
        }
        i = b.end + 1;
    }
    n
}
