// A new board, and the registration of destinations.
//
// new, add_variable, add_variable_with_values
//
// Registering a known id replaces its domain; a new id stands last. A call checks the board once, and hands back one that
// isn't well formed as it came; it refuses while a mark is open, and then a new id on a full board.
#![tactic(auto)]

ghost use Rattle.std.specs.Prelude.{◌≡◌, true};
ghost use Rattle.domain.specs.Calls.{new_of};
ghost use Rattle.domain_values.specs.Calls.{from_values_of};
ghost use Rattle.board.specs.Answers.{settled};
ghost use Rattle.board_enter.specs.Enter.{blank, row_for, enter_of};

use board::{Board, Row, Settled};
use domain::BitDomain;
use rules::{Refusal, Value, Variable};

// A board with no destination, no mark, and nothing changed.
pub fn new() -> Board
    ensures { result ≡ blank }
{
    let domain = BitDomain {
        mask: mask::Mask { lo: 0, hi: 0 },
        min: 0,
        max: 0,
    };
    let row = Row {
        id: Variable(0),
        domain,
    };
    Board {
        rows: [row; 64],
        count: 0,
        saved: [0u64; 1024],
        marks: 0,
        changed: false,
    }
}

// The row of a destination: its own where it has one, else the next.
fn row_for(b: &Board, id: Variable) -> Result<usize, Refusal>
    ensures { result ≡ row_for b.now id }
{
    let at = board::look(b, id)?;
    if b.marks != 0 {
        return Err(Refusal::TrialOpen);
    }
    match at {
        Some(at) => Ok(at),
        None if b.count < 64 => Ok(b.count),
        None => Err(Refusal::Full),
    }
}

// A destination with its domain.
fn lodge(b: &mut Board, id: Variable, d: BitDomain) -> Result<(), Refusal>
    ensures { settled b.new result ≡ enter_of b.old id d }
{
    let at = row_for(b, id)?;
    b.rows[at] = Row { id, domain: d };
    if at == b.count {
        b.count += 1;
    }
    b.changed = true;
    Ok(())
}

fn enter(mut b: Board, id: Variable, d: BitDomain) -> Settled
    ensures { result ≡ enter_of b id d }
{
    let answer = lodge(&mut b, id, d);
    Settled { board: b, answer }
}

pub fn add_variable(b: Board, id: Variable, min: Value, max: Value) -> Settled
    ensures { result ≡ enter_of b id (new_of true min max) }
{
    enter(b, id, domain::new(min, max))
}

pub fn add_variable_with_values(b: Board, id: Variable, values: &[i32]) -> Settled
    ensures { result ≡ enter_of b id (from_values_of values.now) }
{
    enter(b, id, domain_values::new_from_values(values))
}
