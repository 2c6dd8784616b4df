// What a script of calls on sparse sets is made of (differential/FORMAT.md), beside what `probe_parts` has: the calls by their numbers, sets as
// registers, what a call left and answered, lent cells, and what is seen of these.
#![tactic(auto)]

pub mod answer;
pub mod call;
pub mod lent;
pub mod regs;
pub mod seen;
