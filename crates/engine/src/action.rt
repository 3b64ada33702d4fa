// One action of a line: an assignment, SYNFCT, POS, FA, MOV, M, SETAL, LOCK or UNLOCK, each by its own rule.
//
// What an action writes stays written at its alarm too: a beat that ends so leaves all of it aside.
// That a place is one of the set, and that an order fits, is asked of a place and of a count that each step makes anew: a type for them would be taken apart at each, which is no plainer.
ghost use Rattle.std.specs.Prelude.{◌≡◌, ◌+◌, ◌<◌};
ghost use Rattle.tokens.specs.Token.{set_size};
ghost use Rattle.values.specs.Curve.{curve_of};
ghost use Rattle.engine.specs.Action.{taken_at, drive_of, lock_of};
ghost use Rattle.engine.specs.Assigned.{is_assigned, curve_value, curve_taken, taken_for, target_of, assigned_of};
ghost use Rattle.engine.specs.Order.{max_orders};
ghost use Rattle.engine.specs.Set.{defined_curve};
ghost use Rattle.engine.specs.ActionAnswers.{world_in, command_in, action_in, IsTaken, IsDone, Within};

use crate::drive::drive_order;
use crate::order::{Kind, Order};
use crate::set::{defined_curve, rank_in};
use crate::world::{Course, World};
use crate::write::Vars;
use checking::is_removal;
use tokens::token::{
    END, LINES, LOCK, M, SETAL, SIZE, SYNFCT, index_at, is_axis, is_call, is_drive, is_variable,
    token_at, whole_of,
};
use values::codes::Alarm;
use values::curve::value_at;
use working::{Reached, right_side, variable_at};

// What an action assigns to.
#[derive(Clone, Copy)]
pub struct Target {
    pub word: u32,
    pub index: u32,
}

// ---- right sides

// The right side of an assignment at place p: FIFO [0] as the whole right side removes the oldest.
#[tactic(auto, unfolding(crate::specs::Action::taken_at))]
fn take(set: &[u32; SIZE], vars: &mut Vars, p: usize) -> Result<Reached, Alarm>
    requires { p < set_size + 5 }
    ensures { IsTaken result vars.new (taken_at set.now vars.old p) }
{
    if !is_removal(set, p) {
        return right_side(set, &vars.r, &vars.cells, p);
    }
    let value = vars.take_oldest(token_at(set, p))?;
    Ok(Reached { value, next: p + 4 })
}

// Curve n at x.
fn curve_at(set: &[u32; SIZE], n: u32, x: i32) -> Result<i32, Alarm>
    ensures { result ≡ curve_of (defined_curve set.now n) x }
{
    value_at(defined_curve(set, n), x)
}

// What SYNFCT(n,target,variable) at place p assigns: the variable is read, and curve n worked there.
#[tactic(auto, unfolding(crate::specs::Assigned::curve_value))]
fn curve_value(set: &[u32; SIZE], vars: &Vars, p: usize) -> Result<i32, Alarm>
    requires { p < set_size }
    ensures { result ≡ curve_value set.now vars.now.r vars.now.cells p }
{
    let x = variable_at(set, &vars.r, &vars.cells, p + 9)?;
    curve_at(set, whole_of(token_at(set, p + 2)), x)
}

// What the action w at place p assigns.
#[tactic(auto, unfolding(crate::specs::Assigned::taken_for, crate::specs::Assigned::curve_taken))]
fn take_for(set: &[u32; SIZE], vars: &mut Vars, w: u32, p: usize) -> Result<Reached, Alarm>
    requires { p < set_size }
    ensures { IsTaken result vars.new (taken_for set.now vars.old w p) }
{
    if w == SYNFCT {
        let value = curve_value(set, vars, p)?;
        return Ok(Reached {
            value,
            next: p + 14,
        });
    }
    take(set, vars, p + 5)
}

// ---- actions

// The target of the action w at place p, where SYNFCT has it behind the number of its curve.
#[tactic(auto, unfolding(crate::specs::Assigned::target_of))]
fn target_of(set: &[u32; SIZE], w: u32, p: usize) -> Target
    requires { p < set_size }
    ensures { result ≡ target_of set.now w p }
{
    if w == SYNFCT {
        let v = token_at(set, p + 4);
        return Target {
            word: v,
            index: index_at(set, v, p + 4),
        };
    }
    Target {
        word: w,
        index: index_at(set, w, p),
    }
}

fn is_assigned(w: u32) -> bool
    ensures { result ≡ is_assigned w }
{
    is_variable(w) || w == SYNFCT
}

// variable = sum, or SYNFCT(n,target,variable): both end in one write, so that the compiler merges it into its one caller.
#[tactic(auto, unfolding(crate::specs::Assigned::assigned_of))]
fn assign(set: &[u32; SIZE], world: &mut World, w: u32, p: usize) -> Result<usize, Alarm>
    requires { p < set_size }
    ensures done { IsDone result (world_in world.new) (assigned_of set.now (world_in world.old) w p) }
    ensures within { Within 0 world.old world.new }
{
    let taken = take_for(set, &mut world.vars, w, p)?;
    let to = target_of(set, w, p);
    world.vars.write(to.word, to.index, taken.value)?;
    Ok(taken.next)
}

// POS[axis]=, FA[axis]=, MOV[axis]= and a sum; an index that is no axis is in no sound set.
#[tactic(auto, unfolding(crate::specs::Action::drive_of))]
fn drive(set: &[u32; SIZE], world: &mut World, number: u8, w: u32, p: usize) -> Result<usize, Alarm>
    requires { (p < set_size) × (world.old.orders.count < max_orders) }
    ensures done { IsDone result (world_in world.new) (drive_of set.now number (world_in world.old) w p) }
    ensures within { Within 1 world.old world.new }
{
    if !is_axis(token_at(set, p + 2)) {
        return Err(Alarm::Unsound);
    }
    let axis = index_at(set, w, p);
    let sum = right_side(set, &world.vars.r, &world.vars.cells, p + 5)?;
    let order = drive_order(number, w, axis as u8, sum.value)?;
    world.orders.add(order);
    Ok(sum.next)
}

// LOCK and UNLOCK take effect at once; naming a cancelled line, they do nothing.
#[tactic(auto, unfolding(crate::specs::Action::lock_of))]
fn set_lock(
    cancelled: &[bool; LINES],
    world: &mut World,
    on: bool,
    k: usize,
    next: usize,
) -> Result<usize, Alarm>
    ensures done { IsDone result (world_in world.new) (lock_of cancelled.now (world_in world.old) on k next) }
    ensures within { Within 0 world.old world.new }
{
    if LINES <= k {
        return Err(Alarm::Unsound);
    }
    if !cancelled[k] {
        world.locked[k] = on;
    }
    Ok(next)
}

// M= and a number; SETAL, LOCK, UNLOCK and a number in brackets; no other word is a command.
#[tactic(auto, unfolding(crate::specs::Action::command_of))]
fn command(course: Course, world: &mut World, number: u8, w: u32, p: usize) -> Result<usize, Alarm>
    requires { (p < set_size) × (world.old.orders.count < max_orders) }
    ensures done { IsDone result (world_in world.new) (command_in course.entry number (world_in world.old) w p) }
    ensures within { Within 1 world.old world.new }
{
    let Course {
        set,
        lines,
        cancelled,
        ..
    } = course;
    let n = whole_of(token_at(set, p + 2));
    let (kind, next) = match w {
        M => (Kind::M, p + 3),
        SETAL => (Kind::Setal, p + 4),
        _ => {
            if !is_call(w) {
                return Err(Alarm::Unsound);
            }
            return set_lock(
                cancelled,
                world,
                w == LOCK,
                rank_in(&lines.numbers, n),
                p + 4,
            );
        }
    };
    world.orders.add(Order {
        kind,
        line: number,
        target: 0,
        value: n as i32,
    });
    Ok(next)
}

// The action at place p, of the line with that number: the place behind it.
#[tactic(auto, unfolding(crate::specs::Action::action_of))]
pub fn action(course: Course, world: &mut World, number: u8, p: usize) -> Result<usize, Alarm>
    requires { world.old.orders.count < max_orders }
    ensures done { IsDone result (world_in world.new) (action_in course.entry number (world_in world.old) p) }
    ensures within { Within 1 world.old world.new }
{
    let set = course.set;
    let w = token_at(set, p);
    if w == END {
        return Err(Alarm::Unsound);
    }
    if is_assigned(w) {
        return assign(set, world, w, p);
    }
    if is_drive(w) {
        return drive(set, world, number, w, p);
    }
    command(course, world, number, w, p)
}
