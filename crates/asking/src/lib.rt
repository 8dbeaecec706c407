// The calls by which a waiting plugin asks: look, whether it may go inside, and place, how long its way is.
//
// Each is given the words and its plugin's record, once refusals 2, 3 and 4 are ruled out: a look writes what it changes into the words, and says, as place
// does, what becomes of the record and what is answered.
#![tactic(auto)]

// Look: a waiting plugin asks whether it may go inside.
mod looking;
// Place: how many returns a waiting plugin still waits for.
mod placing;

pub use looking::looked;
pub use placing::placed;
