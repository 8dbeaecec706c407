// What an answer shows, as numbers: document 01's number and values for each case.
#![tactic(auto)]

// The number of an answer.
mod number;
// All that an answer or a comparison shows.
mod shown;

pub use number::number_of;
pub use shown::{Kind, RuleNumbers, Shown};
