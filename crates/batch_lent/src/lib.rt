// A batch of closings lent as one run of records, of any length.
//
// close_all; close_run lends a run held by value
#![tactic(auto)]

ghost use Rattle.std.specs.Prelude.{◌≡◌};
ghost use Rattle.batch.specs.Batch.{batch_of};

use batch::Batched;
use board::Board;
use closing::Closing;

pub fn close_all(mut b: Board, cs: &[Closing]) -> Batched
    ensures { result ≡ batch_of b cs.now }
{
    let answer = batch::inner::close_board(&mut b, cs);
    Batched { board: b, answer }
}

// The same by value, for callers that hold no slice of records: a local run is lent, all of it.
pub fn close_run(b: Board, cs: [Closing; 256]) -> Batched
    ensures { result ≡ batch_of b cs }
{
    close_all(b, &cs)
}
