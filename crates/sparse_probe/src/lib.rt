// The public calls of the sparse set behind one function, for comparisons with the Rust; `sparse_probe_c` exports it.
//
// probe_sparse: runs a script of calls, bytes in, answers and states as bytes out (differential/FORMAT.md says which)
//
// It has no `requires`: it is safe on whatever it is lent.
#![tactic(auto)]

pub mod cells;
pub mod run;

pub use run::probe_sparse;
