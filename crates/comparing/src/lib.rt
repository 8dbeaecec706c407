// Alike: two gates compared (document 01, "The calls"; document 02, A.6).
#![tactic(auto)]

// The pass over two boards.
mod board;
// Alike.
mod comparing;

pub use comparing::alike;
