// The reader of a schedule: document 01, "Next call", proved for every part, whatever its bytes.
//
// Nothing is asked of a part: what is no line of the grammar is answered by `NotALine`.
#![tactic(auto)]

// A space and the number after it, of 1 to 4 digits.
mod field;
// One line of the grammar: the open or the call that it is, and what follows it.
mod line;
// Next call: what a part begins with, and the rest of the caller's own buffer.
mod next;

pub use next::{Next, next_call};
