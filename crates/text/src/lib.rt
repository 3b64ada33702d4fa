// The text of a set: its bytes, numbers, lines, words, and the tokens that they make (document 01, "Lines of text"); and bytes and numbers written into a buffer.
//
// No public call asks anything of its caller.
#![tactic(auto)]

pub mod buffer;
pub mod bytes;
pub mod digits;
mod lines;
mod number;
mod scan;
mod word;

pub use lines::{Bounds, is_blank, line_bounds};
pub use scan::{First, first_token};
