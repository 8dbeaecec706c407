// The plugin list as a call reads it, however the host keeps it: as one number slice for each field of a record, or as a slice of records.
//
// A call reads a list through `Plugins`, so that it is written and proved once for both.
#![tactic(auto)]

// A list as five number slices.
mod columns;
// The same, lent for writing.
mod columns_mut;
// The words of a gate and its list, as a host lends them together.
mod lending;
// What a call reads of a list.
mod plugins;
// A list as a slice of records.
mod records;

pub use columns::Columns;
pub use columns_mut::ColumnsMut;
pub use lending::Lending;
pub use plugins::Plugins;
