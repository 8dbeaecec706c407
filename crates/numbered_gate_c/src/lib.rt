// The numbered gate for C and Rust, as a static library: `rt lib` in this crate's folder writes out/libnumbered_gate_c.a.
//
// Three functions, with the words by value as one struct and the plugin list as three number slices. They ask nothing of their caller. Each
// returns what its answer shows, and promises what the core's call promises of every word and every record. A slice is passed as a pointer and
// a length.
#![tactic(auto)]

// What an answer shows, and what a call hands over: the words, and what its answer shows.
mod told;
// The three exported functions.
mod exports;

pub use exports::{numbered_gate_call, numbered_gate_open, numbered_gate_place};
pub use told::{NumberedShown, NumberedTold};
