// The orders of POS, FA and MOV.
ghost use Rattle.engine.specs.Drive.{drive_order};
ghost use Rattle.engine.specs.CodeAnswers.{Gives};

use crate::order::{Kind, Order};
use tokens::token::{FA, POS};
use values::arithmetic::{feed, sign};
use values::codes::Alarm;

// The order of POS, FA or MOV.
#[tactic(auto, unfolding(crate::specs::Drive::drive_order))]
pub fn drive_order(number: u8, w: u32, axis: u8, v: i32) -> Result<Order, Alarm>
    ensures { Gives result (λ o. o) (drive_order number w axis v) }
{
    let (kind, value) = match w {
        POS => (Kind::Pos, v),
        FA => (Kind::Fa, feed(v)?),
        _ => (Kind::Mov, sign(v)),
    };
    Ok(Order {
        kind,
        line: number,
        target: axis,
        value,
    })
}
