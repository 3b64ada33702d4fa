// Values: the lowest layer of the control.
//
// A value is an i32 of thousandths. All signed arithmetic of the control is done here. No public call asks anything of its caller.
#![tactic(auto)]

pub mod arithmetic;
pub mod codes;
pub mod complement;
pub mod curve;
pub mod fifo;
pub mod time;
