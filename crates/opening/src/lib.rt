// Open: the words of a new gate (document 01, "The calls"). Who calls it sets the list idle.
#![tactic(auto)]

// Open, and its parts: the ranges, and the words at opening.
mod opening;

pub use opening::open;
