// The actions of a line in a row, left to right: each finds the beat as the one before it left it, and the first alarm ends them.
ghost use Rattle.std.specs.Prelude.{◌+◌, ◌≤◌};
ghost use Rattle.engine.specs.Order.{max_orders};
ghost use Rattle.engine.specs.ActionAnswers.{world_in, actions_in, IsDone, Within};
ghost use Rattle.tokens.specs.Token.{max_actions};

use crate::action::action;
use crate::world::{Course, World};
use tokens::token::{ACTIONS, END, token_at};
use values::codes::Alarm;

// The actions from place p on, left to right, at most eight: the place behind them.
pub fn actions(course: Course, world: &mut World, number: u8, p: usize) -> Result<usize, Alarm>
    requires { world.old.orders.count + max_actions ≤ max_orders }
    ensures done { IsDone result (world_in world.new) (actions_in course.entry number max_actions (world_in world.old) p) }
    ensures within { Within max_actions world.old world.new }
{
    let set = course.set;
    let mut at = p;
    for _ in 0..ACTIONS {
        at = action(course, world, number, at)?;
        if token_at(set, at) == END {
            return Ok(at);
        }
    }
    Err(Alarm::Unsound)
}
