// The slot gate over a list of records for C and Rust, as a static library: `rt lib` in this crate's folder writes out/librecords_c.a.
//
// Three functions, with the gate words by value as one struct and the plugin list as a slice of record structs. They ask nothing of their
// caller. Each returns what its answer shows, and promises what the call of crate `records` promises of every word and every record. A slice
// is passed as a pointer and a length.
#![tactic(auto)]

// The three exported functions.
mod exports;

pub use exports::{slot_gate_records_alike, slot_gate_records_call, slot_gate_records_open};
