// A list of calls run on a gate by the gate's public calls alone, and what that proves: demand 3 about the code that runs. Whatever the
// calls are, what they answer and leave is what the plain queue of document 01 gives for the same open and calls.
#![tactic(auto)]

// Why a replay runs no call.
mod not_replayed;
// The replay: checks, the open, the calls.
mod replaying;
// The calls, one after the other.
mod running;

pub use not_replayed::NotReplayed;
pub use replaying::replay;
