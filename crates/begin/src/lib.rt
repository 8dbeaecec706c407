// How every call that names a plugin begins: the refusals that calls share, in their order, first 2, 3 and 4, then 5, 6 and 9.
#![tactic(auto)]

// Refusals 2, 3 and 4.
mod beginning;
// The slot gate's words and list, as these look at them.
mod checking;
// Refusals 5, 6 and 9.
mod refusing;

pub use beginning::{Checked, begin};
pub use refusing::{may_leave, ready, running};
