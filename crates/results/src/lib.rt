// The results of calls as they are written out: for each call its number, yes or no, place, the ticket's value and colour, the slot that it
// gives, and the number of its rule and what that compared, in nine lent slices.
#![tactic(auto)]

// The slices that results are written to.
mod results;

pub use results::{ResultSlices, has_room};
