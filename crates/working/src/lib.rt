// The working of a line: its variables, its operators, and the value of its condition and of its right sides.
//
// No public call asks anything of its caller.
#![tactic(auto)]

mod operators;
mod pair;
pub mod variables;
mod walk;

pub use walk::{Reached, condition, right_side, variable_at};
