// Propagation: what the destinations of a list hold, narrowed so that each can have a chute of its own.
//
// propagate_alldiff
//
// A call checks the board once, and then the list; a board that isn't well formed and one whose list is refused come back as
// they came. The pass goes over the listed domains alone. `inner` has the same work on the rows, without the board's check,
// for callers that have made it.
#![tactic(auto)]

ghost use Rattle.std.specs.Prelude.{◌≡◌};
ghost use Rattle.board_spread.specs.Spread.{handed_back, spread_of};

use board::Board;
use rules::{Pair, Refusal};

pub mod inner;

// A board handed back, and the pair.
#[derive(Clone, Copy)]
pub struct Spread {
    pub board: Board,
    pub answer: Result<Pair, Refusal>,
}

// What the destinations of a list hold, narrowed on a board that is checked once.
fn narrow(b: &mut Board, list: &[u32]) -> Result<Pair, Refusal>
    ensures { handed_back b.new result ≡ spread_of b.old list.now }
{
    board::check(b)?;
    let did = inner::prune(&mut b.rows, b.count, list)?;
    b.changed = b.changed | did.raised;
    Ok(did.answer)
}

pub fn propagate_alldiff(mut b: Board, list: &[u32]) -> Spread
    ensures { result ≡ spread_of b list.now }
{
    let answer = narrow(&mut b, list);
    Spread { board: b, answer }
}
