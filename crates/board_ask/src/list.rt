// Whether a list is ready: every listed id is assigned.
ghost use Rattle.std.specs.Prelude.{◌≡◌, ℕ, ◌≤◌, ◌<◌, get_or};
ghost use Rattle.saved.specs.Upto.{upto};
ghost use Rattle.board.specs.Rows.{domain_at};
ghost use Rattle.board_ask.specs.Ready.{assigned, ready_of};

use board::{Board, Row};
use rules::Refusal;

// Whether the domain of each of the first n listed rows is assigned.
fn all_assigned(rows: &[Row; 64], at: &[usize; 64], n: usize) -> bool
    requires { (n ≤ 64) × ((p : ℕ) → p < n → get_or at.now p 0 < 64) }
    ensures { result ≡ upto (λ p. assigned (domain_at rows.now (get_or at.now p 0))) n }
{
    for p in 0..n {
        if !mask::is_one(rows[at[p]].domain.mask) {
            return false;
        }
    }
    true
}

// Refuses as propagation does.
pub fn ready(b: Board, list: &[u32]) -> Result<bool, Refusal>
    ensures { result ≡ ready_of b list.now }
{
    board::check(&b)?;
    let mut at = [0usize; 64];
    board_list::seats(b.rows, b.count, list, &mut at)?;
    Ok(all_assigned(&b.rows, &at, list.len()))
}
