// The calls that move a word: take, by which ISSUE moves and a ticket is handed out, and leave, by which VALID moves and one is given back.
//
// Each is given the words and its plugin's record, once refusals 2, 3 and 4 are ruled out: it writes what it changes into the words, and says what becomes of
// the record and what is answered.
#![tactic(auto)]

// Leave: a plugin gives back its slot, or a turn that it does not use.
mod leaving;
// Take: an idle plugin takes the next ticket.
mod taking;

pub use leaving::left;
pub use taking::taken;
