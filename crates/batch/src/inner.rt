// Closings one after another, in place: on a board, and on the rows of one that is known to be well formed.
ghost use Rattle.std.specs.Prelude.{◌≡◌, true, ◌≤◌, length, get_or};
ghost use Rattle.board.specs.Rows.{seat_in};
ghost use Rattle.board.specs.Well.{differ};
ghost use Rattle.batch.specs.Batch.{batched, batch_of};
ghost use Rattle.batch.specs.Tallies.{Fit, tally, untold, tally_of};

use board::{Board, Row};
use closing::Closing;
use rules::Refusal;

// Where an id is likely to stand, by its last eight bits. What a cell says is only tried.
fn hints_of(ids: &[u32; 64], count: usize) -> [u8; 256]
    requires { count ≤ 64 }
{
    let mut hints = [0u8; 256];
    for i in 0..count {
        hints[(ids[i] % 256) as usize] = i as u8;
    }
    hints
}

// Where an id stands: its hint is tried first.
fn find(ids: &[u32; 64], hints: &[u8; 256], count: usize, id: u32) -> usize
    requires { (count ≤ 64) × (differ (λ j. get_or ids.now j 0) count ≡ true) }
    ensures { result ≡ seat_in (λ j. get_or ids.now j 0) count id }
{
    let next = hints[(id % 256) as usize];
    board_list::find_from(ids, count, usize::from(next), id)
}

// The closings of a run, on the rows of a well-formed board: how many of them took a chute. That these are 64 rows is told too, since
// a caller doesn't know it of rows behind a board's reference.
pub fn close_each(rows: &mut [Row; 64], count: usize, cs: &[Closing]) -> usize
    requires { Fit rows.old count }
    ensures full { length rows.old ≡ 64 }
    ensures done { tally rows.new result ≡ tally_of count (untold rows.old) cs.now }
{
    let ids = board_list::ids_of(*rows, count);
    let hints = hints_of(&ids, count);
    let mut yes = 0;
    for &c in cs {
        let at = find(&ids, &hints, count, c.id.0);
        if at < board::NOWHERE {
            let s = board_close::inner::shut_row(rows[at], c.kind, c.value);
            rows[at] = s.row;
            yes += usize::from(s.yes);
        }
    }
    yes
}

// The closings of a run on a board that is checked once: how many of them answered yes.
pub fn close_board(b: &mut Board, cs: &[Closing]) -> Result<usize, Refusal>
    ensures { batched b.new result ≡ batch_of b.old cs.now }
{
    board::check(b)?;
    let yes = close_each(&mut b.rows, b.count, cs);
    b.changed = b.changed | (0 < yes);
    Ok(yes)
}
