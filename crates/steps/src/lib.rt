// The steps of document 01's "Steps of the 1989 algorithm", and document 02's returns (A.1), row of free slots (A.4) and blocks of 1979 (A.8). Each
// function is proved equal to its definition in the crate `model`, specs/Steps.antt, and specs/Calls.antt for the row, for all words that can be
// lent, sound or not; only a ticket's distance and its returns ask that the ticket's value and VALID's are of the block, a row that k is at most 64, a
// slot that is given that the row is in order, with zeros from the place k on, and one that comes back that the row has a place for it.
#![tactic(auto)]

// The first value of a block, and how many it has.
mod block;
// A colour's count, the colour after it, whether it is free, and the new colour of a word.
mod colour;
// The row of free slots: at opening, its first slot, when a slot is given, and when one comes back.
mod row;
// Which rule decides whether a ticket is valid, its distance from VALID, and the returns until it is valid.
mod validity;
// Which word leads, and how a word moves.
mod word;

pub use block::{block_size, first_value};
pub use colour::{count, is_free, new_colour, next_colour};
pub use row::FreeRow;
pub use validity::{distance, is_valid, returns_until_valid, rule_of, says_yes};
pub use word::{leads, moved};
