// The closings of a board's destinations, one by one, and its `domains_changed` flag.
//
// remove_value, assign_variable, remove_below, remove_above, reset_changed_flag, domains_changed;
// close: the four closings by their kind. `inner` closes a row without a check, for callers that have made it
//
// A call checks the board once, and hands back one that isn't well formed as it came, refused by number. A closing answers
// whether the domain lost a chute, and sets the flag if it did; of an id that isn't registered it answers no.
#![tactic(auto)]

ghost use Rattle.std.specs.Prelude.{◌≡◌};
ghost use Rattle.rules.specs.Board.{remove, assign, below, above};
ghost use Rattle.closing.specs.Kinds.{kind_of};
ghost use Rattle.board_close.specs.Close.{close_of, reset_of, changed_of};

use board::{Board, Closed, Row, Settled};
use closing::Kind;
use rules::{Refusal, Value, Variable};

pub mod inner;

// A row after a closing, and whether that took a chute.
#[derive(Clone, Copy)]
pub struct Shut {
    pub row: Row,
    pub yes: bool,
}

// The row of the destination is closed by v, and the flag set if that took a chute. The board is taken apart, and put together at
// one place, so that the saved words are handed on and not copied.
pub fn close(b: Board, kind: Kind, id: Variable, v: Value) -> Closed
    ensures { result ≡ close_of (kind_of kind) b id v }
{
    let mut rows = b.rows;
    let saved = b.saved;
    let looked = board::look_among(&rows, b.count, &saved, b.marks, id);
    let mut yes = false;
    if let Ok(place) = looked {
        if let Some(at) = place {
            let s = inner::shut_row(rows[at], kind, v);
            rows[at] = s.row;
            yes = s.yes;
        }
    }
    Closed {
        board: Board {
            rows,
            saved,
            changed: b.changed | yes,
            ..b
        },
        answer: match looked {
            Ok(_) => Ok(yes),
            Err(r) => Err(r),
        },
    }
}

pub fn remove_value(b: Board, id: Variable, v: Value) -> Closed
    ensures { result ≡ close_of remove b id v }
{
    close(b, Kind::Remove, id, v)
}

pub fn assign_variable(b: Board, id: Variable, v: Value) -> Closed
    ensures { result ≡ close_of assign b id v }
{
    close(b, Kind::Assign, id, v)
}

pub fn remove_below(b: Board, id: Variable, v: Value) -> Closed
    ensures { result ≡ close_of below b id v }
{
    close(b, Kind::Below, id, v)
}

pub fn remove_above(b: Board, id: Variable, v: Value) -> Closed
    ensures { result ≡ close_of above b id v }
{
    close(b, Kind::Above, id, v)
}

// A flag that is set stays only where the board is refused.
pub fn reset_changed_flag(mut b: Board) -> Settled
    ensures { result ≡ reset_of b }
{
    let answer = board::check(&b);
    b.changed = b.changed & answer.is_err();
    Settled { board: b, answer }
}

pub fn domains_changed(b: Board) -> Result<bool, Refusal>
    ensures { result ≡ changed_of b }
{
    board::check(&b)?;
    Ok(b.changed)
}
