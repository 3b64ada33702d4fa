// The engine: a set, a state, the host's calls, and one beat over a set and a state.
//
// A set is lent, a state goes in by value and comes back. No public call asks anything of its caller: what is not sound is answered 22.
#![tactic(auto)]

mod action;
mod actions;
mod calls;
mod cells;
mod drive;
mod held;
mod keyword;
mod named_line;
mod one_beat;
mod order;
mod set;
mod sound;
mod state;
mod status;
mod timers;
mod turn;
mod world;
mod write;

pub use calls::{Called, cancel, control_reset, lock, program_end, unlock};
pub use cells::{kept_cells, spread_cells};
pub use held::Held;
pub use one_beat::{BeatCode, Beaten, beat, beat_known, beat_over, is_sound_over};
pub use order::{MAX_ORDERS, ORDER_BYTES, ORDERS};
pub use set::{
    COUNT_PLACE, CURVE_PLACE, FIRST_PLACE, Lines, START_PLACE, empty_set, is_defined, names_known,
    put_count, put_line, rank_in, sound_lines,
};
pub use sound::is_sound;
pub use state::{ACTS_TOP, State, power_on};
pub use status::{LineStatus, Standing, Status, status_of};
