// A value and the place behind it, or an alarm, in one number of 64 bits: the walk hands it on in a register. So it is no Result: speed (docs/PERFORMANCE.md), and the walk's contracts say of this number what it means (`said`).
//
// Its remainder by ROOM is the place, 0 for an alarm; its quotient has the 32 bits of the value, or the code of the alarm.
ghost use Rattle.std.specs.Prelude.{◌≡◌, ◌<◌};
ghost use Rattle.values.specs.Codes.{code_of, alarm_with};
ghost use Rattle.tokens.specs.Token.{room};
ghost use Rattle.tokens.specs.Descent.{up_to};
ghost use Rattle.working.specs.Operators.{from_worked};
ghost use Rattle.working.specs.Pair.{pair_of, alarm_of, value_of, next_of, alarm_in, worked_pair, said};

use tokens::token::ROOM;
use values::codes::Alarm;
use values::complement::twos_complement;

pub fn pair_of(v: i32, next: usize) -> u64
    ensures { result ≡ pair_of v next }
{
    twos_complement(v) as u64 * ROOM + next as u64 % ROOM
}

pub fn alarm_of(a: Alarm) -> u64
    ensures { result ≡ alarm_of (code_of a) }
{
    a.code() as u64 * ROOM
}

pub fn next_of(w: u64) -> usize
    ensures { result ≡ next_of w }
{
    (w % ROOM) as usize
}

// The value of a pair that has one.
pub fn value_of(w: u64) -> i32
    ensures { result ≡ value_of w }
{
    let bits = (w / ROOM % 4294967296) as u32;
    bits.cast_signed()
}

// The alarm of a pair that has one.
pub fn alarm_in(w: u64) -> Alarm
    ensures { result ≡ alarm_with (alarm_in w) }
{
    Alarm::with_code((w / ROOM % 256) as u8)
}

// What a working gave and the place behind it; an alarm has no place.
pub fn worked_pair(w: Result<i32, Alarm>, next: usize) -> u64
    ensures { (result ≡ worked_pair w next) × ((0 < next) × (next < room) → said result ≡ up_to (from_worked w) next) }
{
    match w {
        Ok(v) => pair_of(v, next),
        Err(a) => alarm_of(a),
    }
}
