// The closings of a board's destinations through a reference: what stands behind it is closed in place, and the answer is that
// of the call by value. A refused call leaves it as it was.
//
// remove_value, assign_variable, remove_below, remove_above; each is thin over the call of `board_close` by its name.
// remove_value_here, assign_variable_here, ..: the same by value, each lending a local to the call above it, for callers that hold no reference
#![tactic(auto)]

ghost use Rattle.std.specs.Prelude.{◌≡◌};
ghost use Rattle.rules.specs.Board.{remove, assign, below, above};
ghost use Rattle.board_close.specs.Close.{close_of};
ghost use Rattle.board_in_place.specs.Behind.{closed};

use board::{Board, Closed};
use rules::{Refusal, Value, Variable};

pub fn remove_value(b: &mut Board, id: Variable, v: Value) -> Result<bool, Refusal>
    ensures { closed b.new result ≡ close_of remove b.old id v }
{
    let r = board_close::remove_value(*b, id, v);
    *b = r.board;
    r.answer
}

pub fn remove_value_here(b: Board, id: Variable, v: Value) -> Closed
    ensures { result ≡ close_of remove b id v }
{
    let mut board = b;
    let answer = remove_value(&mut board, id, v);
    Closed { board, answer }
}

pub fn assign_variable(b: &mut Board, id: Variable, v: Value) -> Result<bool, Refusal>
    ensures { closed b.new result ≡ close_of assign b.old id v }
{
    let r = board_close::assign_variable(*b, id, v);
    *b = r.board;
    r.answer
}

pub fn assign_variable_here(b: Board, id: Variable, v: Value) -> Closed
    ensures { result ≡ close_of assign b id v }
{
    let mut board = b;
    let answer = assign_variable(&mut board, id, v);
    Closed { board, answer }
}

pub fn remove_below(b: &mut Board, id: Variable, v: Value) -> Result<bool, Refusal>
    ensures { closed b.new result ≡ close_of below b.old id v }
{
    let r = board_close::remove_below(*b, id, v);
    *b = r.board;
    r.answer
}

pub fn remove_below_here(b: Board, id: Variable, v: Value) -> Closed
    ensures { result ≡ close_of below b id v }
{
    let mut board = b;
    let answer = remove_below(&mut board, id, v);
    Closed { board, answer }
}

pub fn remove_above(b: &mut Board, id: Variable, v: Value) -> Result<bool, Refusal>
    ensures { closed b.new result ≡ close_of above b.old id v }
{
    let r = board_close::remove_above(*b, id, v);
    *b = r.board;
    r.answer
}

pub fn remove_above_here(b: Board, id: Variable, v: Value) -> Closed
    ensures { result ≡ close_of above b id v }
{
    let mut board = b;
    let answer = remove_above(&mut board, id, v);
    Closed { board, answer }
}
