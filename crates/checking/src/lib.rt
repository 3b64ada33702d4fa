// The check of a line of a set: its faults 4 to 10 and 14, and where its parts lie; of a line FCTDEF its faults 4, 5, 7 and 13, and the curve that it defines.
//
// No public call asks anything of its caller.
#![tactic(auto)]

mod action;
mod definition;
mod expression;
mod line;
mod sight;
mod sight_number;

pub use action::is_removal;
pub use definition::{Definition, definition_at};
pub use line::{Line, line_at};
