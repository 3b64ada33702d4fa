// What the check makes of two sights side by side, and of one behind a sign: the steps of the check walk.
//
// A kind is a bool, true for yes/no, as in the definitions (`lowest`, `wanting_fault`): it is one bit of the number.
ghost use Rattle.std.specs.Prelude.{◌≡◌};
ghost use Rattle.tokens.specs.Descent.{read, then};
ghost use Rattle.tokens.specs.SingleFault.{lower};
ghost use Rattle.checking.specs.SightNumber.{fault_of, sight_of, seen, faulted, signed_sight};
ghost use Rattle.checking.specs.Brackets.{SameEnd, Joined};
ghost use Rattle.checking.specs.Fault.{lowest};

use crate::sight_number::{
    deeper_of, depth_of, fault_of, is_faultless, next_of, number_seen, truth_of, truth_seen,
};
use tokens::fault::{lower_of, wanting};

// The lowest fault of two sights side by side, where yes/no (true) or numbers (false) are wanted.
fn lowest_of(wanted: bool, a: u64, b: u64) -> u8
    ensures { result ≡ lowest wanted (sight_of a) (sight_of b) }
{
    if is_faultless(wanted, a) {
        if is_faultless(wanted, b) {
            return 0;
        }
    }
    let kinds = lower_of(wanting(wanted, truth_of(a)), wanting(wanted, truth_of(b)));
    lower_of(kinds, lower_of(fault_of(a), fault_of(b)))
}

// Two sights and an operator between them that wants yes/no (true) or numbers (false), and gives the one or the other.
pub fn join(wanted: bool, gives: bool, a: u64, b: u64) -> u64
    ensures { (seen result ≡ then (seen b) (λ y q. read (record { truth = gives; fault = lowest wanted (sight_of a) y }) q)) × Joined a b result }
{
    let i = next_of(b);
    if i == 0 {
        return b;
    }
    let fault = lowest_of(wanted, a, b);
    if gives {
        return truth_seen(fault, deeper_of(a, b), i);
    }
    number_seen(fault, deeper_of(a, b), i)
}

// The lower fault of two sights, where their kinds do not count.
pub fn join_faults(a: u64, b: u64) -> u64
    ensures { (faulted result ≡ then (faulted b) (λ g q. read (lower (fault_of a) g) q)) × Joined a b result }
{
    let i = next_of(b);
    if i == 0 {
        return b;
    }
    number_seen(lower_of(fault_of(a), fault_of(b)), deeper_of(a, b), i)
}

// What was seen, where a yes/no (true) or a number (false) is wanted: of that kind, with 6 if it was of the other. NOT and - want so, and give what they want.
pub fn as_wanted(wanted: bool, a: u64) -> u64
    ensures { (seen result ≡ then (seen a) (signed_sight wanted)) × SameEnd a result }
{
    if is_faultless(wanted, a) {
        return a;
    }
    let i = next_of(a);
    if i == 0 {
        return a;
    }
    let fault = lower_of(wanting(wanted, truth_of(a)), fault_of(a));
    if wanted {
        return truth_seen(fault, depth_of(a), i);
    }
    number_seen(fault, depth_of(a), i)
}
