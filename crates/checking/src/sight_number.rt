// What the check sees, in one number of 64 bits: the walk hands it on in a register. So it is no struct: speed (docs/PERFORMANCE.md), and the walk's contracts say of this number what it means (`seen`).
//
// Its remainder by ROOM is the place behind it, 0 where it is not in the grammar; its quotient has one bit for a yes/no or, of actions, for a name, the lowest fault, and the greatest depth of
// brackets in it, counted to nine.
ghost use Rattle.std.specs.Prelude.{◌≡◌};
ghost use Rattle.checking.specs.SightNumber.{number_seen, truth_seen, next_of, truth_of, fault_of, is_faultless, depth_of, deeper_of};

use tokens::fault::BRACKETS;
use tokens::token::ROOM;

// How many brackets may be open.
pub const DEEPEST: u8 = BRACKETS as u8;

// One bracket deeper.
pub const DEEPER: u64 = 256 * 2 * ROOM;

// Not in the grammar.
pub const NOTHING: u64 = 0;

pub fn number_seen(fault: u8, depth: u8, next: usize) -> u64
    ensures { result ≡ number_seen fault depth next }
{
    (depth as u64 * 256 + fault as u64) * 2 * ROOM + next as u64 % ROOM
}

pub fn truth_seen(fault: u8, depth: u8, next: usize) -> u64
    ensures { result ≡ truth_seen fault depth next }
{
    ((depth as u64 * 256 + fault as u64) * 2 + 1) * ROOM + next as u64 % ROOM
}

pub fn next_of(w: u64) -> usize
    ensures { result ≡ next_of w }
{
    (w % ROOM) as usize
}

// Whether a yes/no was seen; of actions, whether one names a line or a curve.
pub fn truth_of(w: u64) -> bool
    ensures { result ≡ truth_of w }
{
    w / ROOM % 2 == 1
}

pub fn fault_of(w: u64) -> u8
    ensures { result ≡ fault_of w }
{
    (w / (2 * ROOM) % 256) as u8
}

// Whether a yes/no (true) or a number (false) was seen, as is wanted, and no fault. Nothing counts as a number without fault.
pub fn is_faultless(wanted: bool, w: u64) -> bool
    ensures { result ≡ is_faultless wanted w }
{
    let found = w / ROOM % 512;
    if wanted { found == 1 } else { found == 0 }
}

pub fn depth_of(w: u64) -> u8
    ensures { result ≡ depth_of w }
{
    (w / DEEPER % 256) as u8
}

// The greater depth of two.
pub fn deeper_of(a: u64, b: u64) -> u8
    ensures { result ≡ deeper_of a b }
{
    depth_of(a).max(depth_of(b))
}
