// The indices that each variable has; a word that is no variable has none. The same table stands in specs/Index.
ghost use Rattle.std.specs.Prelude.{◌≡◌};
ghost use Rattle.tokens.specs.Index.{first_index, is_inside};

use crate::token::{FIFO1, FIFO4, IM, IN, INA, MARKER, OUT, PARAM, R, TIMER};

// The first of them.
pub fn first_index(w: u32) -> u32
    ensures { result ≡ first_index w }
{
    if matches!(w, MARKER..=FIFO4) { 0 } else { 1 }
}

// Whether the variable w has an index i.
#[tactic(auto, unfolding(crate::specs::Index::is_inside))]
pub fn is_inside(w: u32, i: u32) -> bool
    ensures { result ≡ is_inside w i }
{
    match w {
        R => i <= 163,
        MARKER | PARAM => i <= 31,
        TIMER => i <= 7,
        FIFO1..=FIFO4 => i <= 4,
        IN | OUT => matches!(i, 1..=16),
        INA => matches!(i, 1..=8),
        IM => matches!(i, 1..=6),
        _ => false,
    }
}
