// One record by itself, and the records tallied by their bins: the clauses of document 01's "A sound gate" (the crate `model`,
// specs/Sound.antt) that a record breaks by itself, and those that are read off how many records there are in each bin.
#![tactic(auto)]

// The clause on counts: each count is its colour's held tickets outside the places after VALID, plus its spare places.
mod counts;
// The places after a word: how far they lie, and their colours.
mod place;
// One record by itself: whether it breaks a clause, and its bin.
mod record;
// The bins in which the records are counted.
mod bins;

pub use bins::{FEW_BINS, FEW_PLACES, IDLE_BIN, MOST_BINS};
pub use counts::{each_one, equal_bins, subtract_spare};
pub use record::{Class, class_of_record};
