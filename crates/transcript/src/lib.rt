// The whole of synrun and synstat but reading and writing: input in pieces of any size, output in pieces (document 01, "On both sides of each edge"; document 02, Req 06).
//
// No public call asks anything of its caller.
#![tactic(auto)]

mod beat_line;
mod in_place;
mod intake;
mod printing;
mod session;
mod set_text;
mod tally;
mod totals;
mod view;

pub use beat_line::Stage;
pub use intake::Phase;
pub use printing::{OUT, put_refusal};
pub use session::{Session, Stepped, begin, finish, is_over, step};
pub use set_text::{KEPT, Star, set_text_size};
pub use view::View;
