// A host of one gate, which plays a schedule: document 01, "What gaterun prints", as a function from the bytes of a schedule to the bytes
// of its transcript.
//
// Nothing is asked of the schedule. The program `gaterun` only reads its input, calls `print_run` and writes what that printed.
#![tactic(auto)]

// The host's gate words and its list, and what an open or a call does to them.
mod host;
// One line of a schedule: performed and printed.
mod turn;
// A whole schedule.
mod run;

pub use run::{MOST_INPUT, MOST_PRINTED, print_run};
