// The reader of set text: text to set (document 01, "Lines of text" and "Codes"; document 02, Req 03).
//
// It rests only on what the crates below promise. `load` asks nothing of its caller.
#![tactic(auto)]

mod alone;
mod by_number;
mod draft;
mod line_count;
mod line_tokens;
mod lines;
mod load_text;

pub use load_text::{Loaded, load};
