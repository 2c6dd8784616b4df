// The public calls of the sparse set, by their numbers in a script of calls (differential/FORMAT.md).
#![tactic(auto)]

pub mod change;
pub mod look;
