// Tokens: what a line of a set is made of, which indices a variable has, and the faults of single things.
//
// Tokens lie in the set's one array; a place past its end holds 0, the end of a line. No public call asks anything of its caller.
#![tactic(auto)]

pub mod fault;
pub mod index;
pub mod token;
