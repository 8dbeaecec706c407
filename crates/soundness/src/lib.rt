// Soundness as code: whether the words of a gate and its plugin list are sound, decided exactly as document 01's "A sound gate" and
// document 02's slots (A.4) say (the crate `model`, specs/Sound.antt), by one pass over the list.
//
// One function is for other crates: `is_sound`, for a list of N records, however it is lent (the crate `lists`). It answers for all words and
// all lists, sound or not.
#![tactic(auto)]

// The held tickets that are none of the places after VALID, kept as codes.
mod others;
// The pass over the list, and the tests after it.
mod pass;
// The slots: each is met once, in the free row or at a plugin inside.
mod slots;
// The whole check.
mod sound;

pub use sound::is_sound;
