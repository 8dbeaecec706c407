// The clauses of document 01's "A sound gate" on ranges (the crate `model`, specs/Sound.antt), of the words and of the lead. Each test
// answers for all words, in range or not.
#![tactic(auto)]

// The lead, and what the pass over the list reads of the words.
mod lead;
// The ranges of the words.
mod range;

pub use lead::{Lead, lead_in_range, lead_of};
pub use range::words_in_range;
