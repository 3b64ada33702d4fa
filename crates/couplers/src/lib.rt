// Couplers: what a channel sends, in thousandths, and what is kept of it (document 02, Req 05).
//
// A reading and a channel go in by value and come back so. No public call asks anything of its caller.
#![tactic(auto)]

pub mod channel;
pub mod reading;
