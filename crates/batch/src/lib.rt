// A batch of closings on a board: applied in order, and answered by how many of them answered yes. The board is checked
// once; then each closing costs what an inner one costs.
//
// close_many; `inner` has the same work on a board held by reference, and on rows that are known to be a well-formed board's
#![tactic(auto)]

ghost use Rattle.std.specs.Prelude.{◌≡◌, take};
ghost use Rattle.batch.specs.Batch.{batch_of};

use board::Board;
use closing::Closing;
use rules::Refusal;

pub mod inner;

// A board handed back, and how many closings answered yes.
#[derive(Clone, Copy)]
pub struct Batched {
    pub board: Board,
    pub answer: Result<usize, Refusal>,
}

// The first n closings of the run; all of them where n is more.
pub fn close_many(mut b: Board, cs: [Closing; 256], n: usize) -> Batched
    ensures { result ≡ batch_of b (take n cs) }
{
    let answer = inner::close_board(&mut b, &cs[..n.min(256)]);
    Batched { board: b, answer }
}
