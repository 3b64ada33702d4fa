// The turns of a beat: each line by its rank, whether it takes its turn, tries its condition and acts.
//
// How far the turns have come (`BeforeTurn k`) is asked of the rank too, so it is no invariant of `World`.
ghost use Rattle.std.specs.Prelude.{◌≡◌, ◌+◌, ◌≤◌, ◌<◌, List};
ghost use Rattle.engine.specs.Turn.{Entry};
ghost use Rattle.engine.specs.ActionAnswers.{world_in};
ghost use Rattle.engine.specs.TurnAnswers.{do_turn_in, try_turn_in, turn_in, turns_in, IsTurned, BeforeTurn};
ghost use Rattle.tokens.specs.Token.{max_lines};

use crate::actions::actions;
use crate::keyword::{acts_now, remembers_now, tries_now};
use crate::set::line_of;
use crate::world::{Course, World};
use checking::Line;
use values::arithmetic::is_equal;
use values::codes::Alarm;
use working::condition;

// The actions of the line of rank k, if it acts: its bit in the word of the lines that acted, and what they write.
#[tactic(auto, unfolding(crate::specs::Turn::do_turn))]
fn act(course: Course, world: &mut World, l: Line, k: usize, yes: bool) -> Result<(), Alarm>
    requires { (k < max_lines) × BeforeTurn k world.old }
    ensures turned { (es : List Entry) → IsTurned result (world_in world.new) (do_turn_in course.entry l k (world_in world.old) es yes) }
    ensures before_next { BeforeTurn (k + 1) world.new }
{
    if yes {
        world.acted += 1 << k;
        actions(course, world, l.number, l.actions)?;
    }
    Ok(())
}

// The condition of the line of rank k, if it is to be worked; then its actions, if it acts.
#[tactic(auto, unfolding(crate::specs::Turn::try_turn))]
fn try_line(course: Course, world: &mut World, l: Line, k: usize) -> Result<(), Alarm>
    requires { (k < max_lines) × BeforeTurn k world.old }
    ensures turned { IsTurned result (world_in world.new) (try_turn_in course.entry l k (world_in world.old)) }
    ensures before_next { BeforeTurn (k + 1) world.new }
{
    let memory = world.memory[k];
    if !tries_now(l.keyword, memory) {
        return act(course, world, l, k, acts_now(l.keyword, memory, false));
    }
    let worked = condition(course.set, &world.vars.r, &world.vars.cells, l.condition)?;
    let v = !is_equal(worked.value, 0);
    world.memory[k] = remembers_now(l.keyword, memory, v);
    act(course, world, l, k, acts_now(l.keyword, memory, v))
}

// The turn of the line of rank k: none if it is cancelled or locked at that moment; an ID line also needs AUTOMATIC.
#[tactic(auto, unfolding(crate::specs::Turn::turn_of, crate::specs::Turn::takes_turn))]
fn turn(course: Course, world: &mut World, l: Line, k: usize) -> Result<(), Alarm>
    requires { (k < max_lines) × BeforeTurn k world.old }
    ensures turned { IsTurned result (world_in world.new) (turn_in course.entry l k (world_in world.old)) }
    ensures before_next { BeforeTurn (k + 1) world.new }
{
    if course.cancelled[k] || world.locked[k] {
        return Ok(());
    }
    if !l.ids && !course.automatic {
        return Ok(());
    }
    try_line(course, world, l, k)
}

// The turns of a beat: those of all lines, by rising number.
pub fn turns(course: Course, world: &mut World) -> Result<(), Alarm>
    requires { (course.lines.now.count ≤ max_lines) × BeforeTurn 0 world.old }
    ensures turned { IsTurned result (world_in world.new) (turns_in course.entry (world_in world.old)) }
    ensures before_next { BeforeTurn max_lines world.new }
{
    for k in 0..course.lines.count {
        turn(course, world, line_of(course.lines, k), k)?;
    }
    Ok(())
}
