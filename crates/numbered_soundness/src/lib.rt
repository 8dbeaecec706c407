// Soundness of the numbered gate as code: whether the words and the plugin list are sound, decided exactly as document 02's A.9 says (the crate
// `numbered`, specs/Sound.antt), by plain counting. No sum or difference leaves a counter's range, whatever words and tickets are lent.
//
// What other crates use: `NumberedColumns`, a list as three slices that are lent, and
// `NumberedColumnsMut`, the same for writing; and `is_sound`, of words and a list of N records, sound or not.
#![tactic(auto)]

// The lent list.
mod columns;
// The same, lent for writing.
mod columns_mut;
// The sentences of soundness about the words, the records and the held tickets.
mod clauses;
// The whole check.
mod sound;

pub use columns::NumberedColumns;
pub use columns_mut::NumberedColumnsMut;
pub use sound::is_sound;
