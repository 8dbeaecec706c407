// Take and leave with the gate lent: the words are changed where they lie, and only the answer is returned.
//
// Each is the call of crate `gate` of the same name, on the same list as five number slices, and promises the same. A host that keeps its
// gate in one place uses these; one that passes it along uses `gate`.
#![tactic(auto)]

// Leave, on a lent gate.
mod leaving;
// Take, on a lent gate.
mod taking;

pub use leaving::leave;
pub use taking::take;
