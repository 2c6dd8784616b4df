// Demand 3 about every public call of the board together. There is no code here: specs/Script.antt names the calls and runs
// them one after another on the real board, proofs/Demand.antt says what a trial keeps, whichever calls are made, and proofs/Counted.antt
// that refused calls and what an inner restore undoes are no part of the work that it speaks of.
#![tactic(auto)]
