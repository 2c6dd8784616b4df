// What a script of calls is made of (differential/FORMAT.md): numbers as bytes, records, registers, answers, what a call leaves, the run
// of a script, and what stands behind an answer.
#![tactic(auto)]

pub mod behind;
pub mod record;
pub mod regs;
pub mod reply;
pub mod script;
pub mod turn;
pub mod wire;
