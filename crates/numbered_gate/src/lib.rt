// The numbered gate's calls, on words by value and a plugin list lent as one number slice for each field: regions, stop marks and tickets.
// Document 02, A.9: the readable gate of document 001, Figure 3.
//
// A reviewer may rely on this. Every call ends and answers, whatever is lent: any words, any slices, any plugin number. It returns its
// answer and the words to keep for the next call, or a refusal, which changes no word and no record. Until its first 11 the answers are
// those of the slot gate opened for 1989 (the crate `numbered`, specs/Claim.antt).
//
// What a call does is decided of its plugin's record, once the list is found sound (`decide`); the calls here write it into slices.
// Stop and wake are the slot gate's own. Take, look, leave and place stand beside the slot gate's: they share the refusals, and the rest is what a gate
// of counters has in place of one of blocks and colours. The definitions of both gates are read apart, so what a call decides is stated for each.
#![tactic(auto)]

// What a call decides.
mod deciding;
// Leave: a plugin gives back its slot, or a turn that it does not use.
mod leaving;
// Look: a waiting plugin asks whether it may go inside.
mod looking;
// Open: the words and the list of a new gate.
mod new_gate;
// Place: how many returns a waiting plugin still waits for.
mod placing;
// Take, look, leave, place, stop and wake on the slices, each by its name or whichever it is.
mod slices;
// Take: an idle plugin takes the next ticket.
mod taking;

pub use new_gate::open;
pub use slices::{leave, look, perform, place, stop, take, wake};
