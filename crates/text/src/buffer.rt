// Bytes written at a place of a lent buffer; what would lie past its end is left off.
//
// Buffer and place are two parameters: a caller may put at any place, past the end too, and no call asks that it is inside.
ghost use Rattle.std.specs.Prelude.{◌≡◌, set};
ghost use Rattle.values.specs.PutAt.{put_at};

pub fn put(out: &mut [u8], at: usize, b: u8)
    ensures { out.new ≡ set out.old at b }
{
    if at < out.len() {
        out[at] = b;
    }
}

// Bytes, one behind the other.
pub fn put_bytes(out: &mut [u8], at: usize, s: &[u8])
    ensures { out.new ≡ put_at out.old at s.now }
{
    let at = at.min(out.len());
    let size = s.len().min(out.len() - at);
    out[at..at + size].copy_from_slice(&s[..size]);
}
