// The tokens of a line's body, written into an array.
ghost use Rattle.std.specs.Prelude.{◌≡◌, ◌+◌, ◌≤◌, length};
ghost use Rattle.text.specs.Tokens.{tokens_of};
ghost use Rattle.values.specs.PutAt.{put_at};
ghost use Rattle.tokens.specs.Token.{set_size};
ghost use Rattle.reader.specs.Draft.{written};

use text::bytes::SPACE;
use text::first_token;
use tokens::token::SIZE;

// The tokens of a body are written from a place on; how many, if every byte of the line made one.
pub fn write_tokens(body: &[u8], s: &mut [u32; SIZE], at: usize) -> Option<usize>
    requires { at + length body.now ≤ set_size }
    ensures value { result ≡ written (tokens_of body.now) }
    ensures s_after { s.new ≡ put_at s.old at (tokens_of body.now).list }
{
    let mut n: usize = 0;
    // A token says how far it goes: no `for` counts the places.
    let mut i: usize = 0;
    while i < body.len() {
        if body[i] == SPACE {
            i += 1;
            continue;
        }
        let first = first_token(body, i)?;
        s[at + n] = first.token;
        n += 1;
        i += first.size;
    }
    Some(n)
}
