// What a sheet leads to: its destinations registered, its closings applied in order, each of its lists propagated once. There is no code here:
// specs/Wave.antt says it by the definitions of the public calls, and proofs/Theorems.antt that the rules of 01 say the same; proofs/Back.antt says that
// the arrays which hold a sheet tell that sheet.
#![tactic(auto)]

use board::Row;
use rules::{Pair, Refusal};

// The destinations as the last list leaves them, and what each list was answered; the other rows and lines are blank.
#[derive(Clone, Copy)]
pub struct Ran {
    pub rows: [Row; 64],
    pub count: usize,
    pub lines: [Result<Pair, Refusal>; 16],
    pub ln: usize,
}
