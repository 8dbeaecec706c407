// Bins, in which the records are counted: bin c for the holders of other tickets of the colour c (0 to 64), and after IDLE_BIN, which is
// for idle records, one for the holders of each place after VALID, in the places' order. Idle records are not counted.
//
// A constant can't call `usize::from`, so that the numbers of other crates are cast in them, which loses nothing.
//
// Bins are lent as a slice, so that a gate with few places after VALID need not clear as many as there can be.

use model::{COLOURS, MOST_PLUGINS};

// The bin of the idle records. The place j of those after VALID, from 1 on, has the bin IDLE_BIN + j.
pub const IDLE_BIN: usize = COLOURS as usize;

// How many places few bins have room for, and how many bins these are.
pub const FEW_PLACES: u16 = 64;

pub const FEW_BINS: usize = IDLE_BIN + 1 + FEW_PLACES as usize;

// How many bins there are for as many places as there can be.
pub const MOST_BINS: usize = IDLE_BIN + 1 + MOST_PLUGINS as usize;
