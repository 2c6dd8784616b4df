// What a script of calls on a board is made of (differential/FORMAT.md), beside what `probe_parts` has: the calls by their numbers, what a run
// holds, the cursor over ids, parts of a board set by hand, the calls that leave a board as it is, lent cells, and what shows a whole board.
#![tactic(auto)]

pub mod asks;
pub mod call;
pub mod lent;
pub mod raw;
pub mod reply;
pub mod run;
pub mod show;
