// The print of a loaded set: what the control really holds, as text that loads to the same set (document 02, Req 01).
//
// No public call asks anything of its caller.
#![tactic(auto)]

mod line;
mod name;
mod number;
mod set_print;

pub use set_print::print;
