// Lists of the letters that name the calls.
#![tactic(auto)]

// Whether letters name calls.
mod letters;

pub use letters::all_letters;
