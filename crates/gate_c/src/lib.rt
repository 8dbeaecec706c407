// The slot gate for C and Rust, as a static library: `rt lib` in this crate's folder writes out/libgate_c.a.
//
// Four functions, with the gate words by value as one struct and the plugin list as five number slices. They ask nothing of their caller.
// Each returns what its answer shows, and promises what the core's call promises of every word and every record. A slice is passed as a
// pointer and a length.
#![tactic(auto)]

// The four exported functions.
mod exports;

pub use exports::{slot_gate_alike, slot_gate_call, slot_gate_open, slot_gate_place};
