// The names of signs and words, those by which they are read, at a place of a lent buffer; the answer is how many bytes that is, those past the end too.
ghost use Rattle.std.specs.Prelude.{◌≡◌, ◌+◌, ◌≤◌, length};
ghost use Rattle.values.specs.PutAt.{put_at};
ghost use Rattle.print.specs.TokenText.{name_text};
ghost use Rattle.print.specs.NameRows.{solid_size, row_in, longest_name};

use text::buffer::put;
use text::bytes::SPACE;
use tokens::token::{ID, IN, POS, W};

// The bytes before the first space.
fn solid_size(row: &[u8]) -> usize
    ensures { result ≡ solid_size row.now }
{
    row.iter().position(|b| *b == SPACE).unwrap_or(row.len())
}

// The name that begins at a place of a table of names, each in so many bytes with spaces behind it.
fn put_row(out: &mut [u8], at: usize, table: &[u8], width: usize, start: usize) -> usize
    requires { (start + width ≤ length table.now) × (width ≤ longest_name) }
    ensures value { result ≡ length (row_in table.now width start) }
    ensures out_after { out.new ≡ put_at out.old at (row_in table.now width start) }
{
    let row = &table[start..start + width];
    let name = &row[..solid_size(row)];
    // A print is counted with no room at all.
    if out.len() <= at {
        return name.len();
    }
    // Byte by byte: a block copy of so short a name takes longer.
    for (i, b) in name.iter().enumerate() {
        put(out, at + i, *b);
    }
    name.len()
}

// The name of a token, from tables by rising token; a token without a name is written as nothing.
pub fn put_name(out: &mut [u8], at: usize, t: u32) -> usize
    ensures value { result ≡ length (name_text t) }
    ensures out_after { out.new ≡ put_at out.old at (name_text t) }
{
    match t {
        ..ID => put_row(
            out,
            at,
            b"  = ==<>< > <=>=+ - * / ( ) [ ] ",
            2,
            t as usize * 2,
        ),
        ID..IN => put_row(
            out,
            at,
            b"ID      IDS     WHEN    WHENEVERFROM    EVERY   DO      \
        TRUE    FALSE   NOT     AND     OR      XOR     ,       FCTDEF          ",
            8,
            (t - ID) as usize * 8,
        ),
        IN..POS => put_row(
            out,
            at,
            b"$A_IN     $A_INA    $A_OUT    $AC_MARKER$AC_PARAM $R        \
        $AC_TIMER $AC_FIFO1 $AC_FIFO2 $AC_FIFO3 $AC_FIFO4 $AA_IM                                            ",
            10,
            (t - IN) as usize * 10,
        ),
        POS..=W => put_row(
            out,
            at,
            b"POS   FA    MOV   M     SETAL LOCK  UNLOCK      SYNFCT\
        X     Y     Z     U     V     W     ",
            6,
            (t - POS) as usize * 6,
        ),
        _ => 0,
    }
}
