// A number as it is printed, without needless zeros, at a place of a lent buffer; the answer is the place behind it.
ghost use Rattle.std.specs.Prelude.{◌+◌, ◌≤◌, ◌<◌};
ghost use Rattle.values.specs.PutAt.{IsPut};
ghost use Rattle.values.specs.Value.{unit};
ghost use Rattle.print.specs.TokenText.{part_text, number_text};
ghost use Rattle.print.specs.PrintRoomLaws.{last_place, units_room};

use text::buffer::put;
use text::bytes::POINT;
use text::digits::put_number;

// The thousandths of a unit.
const UNIT: u32 = values::arithmetic::UNIT as u32;

// So many thousandths below a unit: the point and the digits behind it, with no 0 at the end; nothing if there are none.
fn put_part(out: &mut [u8], at: usize, f: u32) -> usize
    requires { (at ≤ last_place + units_room) × (f < unit) }
    ensures { IsPut out.old at (part_text f) out.new result }
{
    if f == 0 {
        return at;
    }
    put(out, at, POINT);
    let tenths = at + 1;
    put(out, tenths, b'0' + (f / 100) as u8);
    let hundredths = tenths + 1;
    if f % 100 == 0 {
        return hundredths;
    }
    put(out, hundredths, b'0' + (f / 10 % 10) as u8);
    let last = hundredths + 1;
    if f % 10 == 0 {
        return last;
    }
    put(out, last, b'0' + (f % 10) as u8);
    last + 1
}

// So many thousandths.
pub fn put_thousandths(out: &mut [u8], at: usize, n: u32) -> usize
    requires { at ≤ last_place }
    ensures { IsPut out.old at (number_text n) out.new result }
{
    let size = put_number(out, at, n / UNIT);
    put_part(out, at + size, n % UNIT)
}
