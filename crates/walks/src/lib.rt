// What a proof by hand needs, said once: this crate holds no code, and its `proofs/` no statement about any other crate's code.
//
// A function can be proved by a walk of its statements; its callees it knows by their contracts alone. The laws here are those that every such walk shares:
// of plain data that is passed by value, of what is had of a callee after a call, of what lies in memory, of a slice that is lent on and comes back, and of
// how a walk ends. No function needs them now, since the check proves all of ours; they are kept for one that it can't.
#![tactic(auto)]
