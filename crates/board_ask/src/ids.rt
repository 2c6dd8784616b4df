// The ids of a board, in order of first registration.
#![tactic(auto, unfolding(crate::specs::Names::walk_of, crate::specs::Names::next_id_of, crate::specs::Names::ids_into_of))]

ghost use Rattle.std.specs.Prelude.{◌≡◌, ◌++◌, ◌≤◌, length, drop};
ghost use Rattle.board.specs.Rows.{id_at};
ghost use Rattle.board_ask.specs.Names.{names_of, walk_of, next_id_of, filled, ids_into_of};

use super::{IdCursor, Walked};
use board::{Board, Row};
use rules::{Refusal, Variable};

pub fn variables(b: Board) -> Result<IdCursor, Refusal>
    ensures { result ≡ walk_of b }
{
    board::check(&b)?;
    Ok(IdCursor { at: 0 })
}

pub fn next_variable(b: Board, c: IdCursor) -> Walked
    ensures { result ≡ next_id_of b c }
{
    if let Err(r) = board::check(&b) {
        return Walked {
            cursor: c,
            answer: Err(r),
        };
    }
    if b.count <= c.at {
        return Walked {
            cursor: c,
            answer: Ok(None),
        };
    }
    Walked {
        cursor: IdCursor { at: c.at + 1 },
        answer: Ok(Some(b.rows[c.at].id)),
    }
}

// Writes the first `count` ids from the first cell on.
fn write(rows: &[Row; 64], count: usize, cells: &mut [u32])
    requires { (count ≤ 64) × (count ≤ length cells.old) }
    ensures { cells.new ≡ names_of (id_at rows.now) 0 count ++ drop count cells.old }
{
    for i in 0..count {
        cells[i] = rows[i].id.0;
    }
}

// All at once, and how many they are.
pub fn variables_into(b: Board, cells: &mut [u32]) -> Result<usize, Refusal>
    ensures { filled result cells.new ≡ ids_into_of b cells.old }
{
    board::check(&b)?;
    if cells.len() < b.count {
        return Err(Refusal::NoRoom);
    }
    write(&b.rows, b.count, cells);
    Ok(b.count)
}
