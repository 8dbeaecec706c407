// The thin forms that hosts do not call for C and Rust, as a static library: `rt lib` in this crate's folder writes out/libforms_c.a.
//
// Take and leave on a lent gate, look, stop and wake on words that are passed, the subslice that next call returns, a replay, and the numbered
// gate's take, look, leave, stop and wake, so that they can be run and compared. The functions ask nothing of their caller and promise what the
// calls beneath them promise. A slice is passed as a pointer and a length.
#![tactic(auto)]

// What is handed over as numbers: a line with the length of the rest.
mod numbers;
// Take and leave, on a lent gate.
mod lending;
// Look, stop and wake, with the words passed by value.
mod passing;
// Next call.
mod reading;
// A list of calls run.
mod replaying;
// The numbered gate's take, look, leave, stop and wake, with the words passed by value.
mod numbered_passing;

pub use lending::{slot_gate_in_place_leave, slot_gate_in_place_take};
pub use numbered_passing::{
    NumberedTold, numbered_gate_passed_leave, numbered_gate_passed_look, numbered_gate_passed_stop,
    numbered_gate_passed_take, numbered_gate_passed_wake,
};
pub use passing::{slot_gate_passed_look, slot_gate_passed_stop, slot_gate_passed_wake};
pub use reading::slot_gate_next_line;
pub use replaying::{Ending, slot_gate_replay};
