// The lines that gaterun prints: document 01, "What gaterun prints", as bytes appended to a buffer that the caller lends.
//
// `put` and `put_word` append a whole line to what the buffer holds, and ask nothing of it: where there is no room for the line, they write nothing.
// A piece of a line asks for room for the longest of its kind: no push can then fail.
#![tactic(auto)]

// A piece of a line, with its text and its room.
mod piece;
// A number in base ten.
mod number;
// A ticket as value/colour.
mod ticket;
// What a call answers.
mod answer;
// The whole lines: a call's, an open's, and a single word.
mod line;

pub use line::{CallLine, OpenLine, put_word};
pub use piece::{Piece, put};
