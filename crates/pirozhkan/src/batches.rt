// A batch of closings out of three runs of numbers: kinds (1 remove, 2 assign, 3 below, 4 above), ids and values.
ghost use Rattle.std.specs.Prelude.{◌≡◌, List, ℕ, length, take};
ghost use Rattle.rules.specs.Board as rules;
ghost use Rattle.batch_runs.specs.Runs.{form_of, closings_of};
ghost use Rattle.reply.specs.Through.{left, through, answered};
ghost use Rattle.pirozhkan.specs.Batches.{refusing, batching, batched_by};

use super::inner;
use batch_runs::Fault;
use board::Board;
use closing::Closing;
use rules::Refusal;

// A board that isn't well formed is refused by that first.
fn reason(b: Board, r: Refusal) -> Refusal
    ensures { rules.denied result ≡ refusing r b }
{
    match board::check(&b) {
        Err(x) => x,
        Ok(()) => r,
    }
}

// A batch that isn't well written is refused after the state.
fn refuse(ws: &[u64], r: Refusal) -> u64
    ensures { result ≡ answered (refusing r) ws.now }
{
    inner::ask(ws, |b| reply::refusal(reason(b, r)))
}

fn close_all(ws: &mut [u64], cs: [Closing; 256], n: usize) -> u64
    ensures { left {C = List ℕ} result ws.new ≡ through (batching (take n cs)) ws.old }
{
    match reply::judge(ws) {
        Err(why) => reply::refusal(why),
        Ok(()) => {
            let after = batch::close_many(state::read(ws), cs, n);
            state::write(after.board, ws);
            reply::counted(after.answer)
        }
    }
}

// Answers how many closings answered yes. Runs of different lengths are Short, more than 256 closings TooLong, and a number that is
// no kind is BadSheet at its place.
#[tactic(auto, unfolding(crate::specs::Batches::batched_by))]
pub fn pirozhkan_batch(ws: &mut [u64], kinds: &[u32], ids: &[u32], values: &[i32]) -> u64
    ensures { left {C = List ℕ} result ws.new ≡ batched_by (form_of kinds.now (length ids.now) (length values.now)) (closings_of kinds.now ids.now values.now) ws.old }
{
    match batch_runs::judge(kinds, ids, values) {
        Err(Fault::Uneven) => reply::refusal(Refusal::Short),
        Err(Fault::Long) => refuse(ws, Refusal::TooLong),
        Err(Fault::Bad(place)) => refuse(ws, Refusal::BadSheet(place)),
        Ok(()) => close_all(ws, batch_runs::gather(kinds, ids, values), kinds.len()),
    }
}
