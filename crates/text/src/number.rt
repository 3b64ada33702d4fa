// The token of a number.
ghost use Rattle.std.specs.Prelude.{◌≡◌, ◌-◌, ◌^◌, ◌≤◌, IfSome, length};
ghost use Rattle.values.specs.Value.{top};
ghost use Rattle.text.specs.Number.{digits_value, thousandths, number_token};

use tokens::token::NUMBER;

// The digits before the point and behind it, and the thousandths, of the largest numbers.
const WHOLE_DIGITS: usize = 7;

const PART_DIGITS: usize = 3;

const TOP: u64 = 1000000000;

const UNIT: u64 = 1000;

// What stands for any larger number.
const TOO_LARGE: u32 = 1000001000;

// The value of at most seven digits.
fn digits_value(digits: &[u8]) -> u64
    requires { length digits.now ≤ 7 }
    ensures { (result ≡ digits_value digits.now 0) × (result ≤ 230000000) }
{
    let mut n: u64 = 0;
    for b in digits {
        n = n * 10 + u64::from(b.saturating_sub(b'0'));
    }
    n
}

// The thousandths of one at the last of so many places behind the point.
fn place_value(count: usize) -> u64
    ensures { (result ≡ 10 ^ (3 - count)) × (result ≤ 1000) }
{
    match count {
        0 => 1000,
        1 => 100,
        2 => 10,
        _ => 1,
    }
}

// The thousandths of a number with these digits before and behind its point, unless there are too many digits or it is above the top.
#[tactic(auto, unfolding(crate::specs::Number::is_fit, crate::specs::Number::written))]
fn thousandths(before: &[u8], behind: &[u8]) -> Option<u32>
    ensures value { result ≡ thousandths before.now behind.now }
    ensures upper_bound { IfSome result (λ n. n ≤ top) }
{
    if before.len() > WHOLE_DIGITS || behind.len() > PART_DIGITS {
        return None;
    }
    let n = digits_value(before) * UNIT + digits_value(behind) * place_value(behind.len());
    if n > TOP { None } else { Some(n as u32) }
}

// The token of a number with these digits before and behind its point; none behind if no point was written.
#[tactic(auto, unfolding(crate::specs::Number::number_token))]
pub fn number_token(before: &[u8], behind: &[u8]) -> u32
    ensures { result ≡ number_token before.now behind.now }
{
    let mark = u32::from(!behind.is_empty());
    NUMBER + thousandths(before, behind).unwrap_or(TOO_LARGE) * 2 + mark
}
