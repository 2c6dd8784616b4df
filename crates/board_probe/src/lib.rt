// The public calls of a board and of trials behind one function, for comparisons with the Rust; `board_probe_c` exports it.
//
// probe_board: runs a script of calls, bytes in, answers and what shows the board as bytes out (differential/FORMAT.md says which)
//
// It has no `requires`: it is safe on whatever it is lent.
#![tactic(auto)]

pub mod changes;
pub mod run;

pub use run::probe_board;
