// The public calls of the bit domain behind one function, for comparisons with the Rust; `probe_c` exports it.
//
// probe_domain: runs a script of calls, bytes in, answers and states as bytes out (differential/FORMAT.md says which)
//
// It has no `requires`: it is safe on whatever it is lent.
#![tactic(auto)]

pub mod call;
pub mod lent;
pub mod run;
pub mod turns;

pub use run::probe_domain;
