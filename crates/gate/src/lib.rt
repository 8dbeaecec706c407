// The slot gate's calls, on a gate by value (`perform`: on one that is lent) and a plugin list lent as one number slice for each field: regions, stop
// marks, values, colours and slots. Document 01, "The calls".
//
// A shopkeeper's programmer may rely on this. Every call ends and answers, whatever is lent: any words, any slices, any plugin number.
// It returns its answer with the gate words to keep for the next call (alike and `place_answer`, which change none, and `perform` the answer alone), or a refusal, which has document 01's number and changes no word and
// no record. Calls on one gate come one at a time.
//
// What a call does is decided of a list that is kept in whatever way (`decide`); the calls here write it into slices.
#![tactic(auto)]

// What a call decides.
mod deciding;
// Open: the words and the list of a new gate.
mod new_gate;
// Take, look, leave, place, stop and wake, each by its name or whichever it is.
mod slices;

// Two gates compared.
pub use comparing::alike;
pub use deciding::decide;
pub use new_gate::open;
pub use slices::{leave, look, perform, place, place_answer, stop, take, wake};
