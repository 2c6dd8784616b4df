// A batch of closings out of three runs of numbers, for callers that can lend no records: kinds (1 remove, 2 assign, 3 below, 4 above),
// ids and values.
//
// judge, gather
#![tactic(auto)]

ghost use Rattle.std.specs.Prelude.{◌≡◌, ◌≤◌, length, take};
ghost use Rattle.batch_runs.specs.Runs.{form_of, closing_at, closings_of};

use closing::Closing;
use rules::{Value, Variable};

// Why three runs are no batch.
#[derive(Clone, Copy)]
pub enum Fault {
    Uneven,
    Long,
    Bad(usize),
}

// The runs are of one length and at most 256 long, and every kind is one of the four: else the place of the first that isn't.
pub fn judge(kinds: &[u32], ids: &[u32], values: &[i32]) -> Result<(), Fault>
    ensures { result ≡ form_of kinds.now (length ids.now) (length values.now) }
{
    let n = kinds.len();
    if ids.len() != n || values.len() != n {
        return Err(Fault::Uneven);
    }
    if 256 < n {
        return Err(Fault::Long);
    }
    match kinds.iter().position(|k| !(1..=4).contains(k)) {
        Some(place) => Err(Fault::Bad(place)),
        None => Ok(()),
    }
}

fn closing_at(kind: u32, id: u32, value: i32) -> Closing
    ensures { result ≡ closing_at kind id value }
{
    Closing {
        kind: closing::kind_for(kind),
        id: Variable(id),
        value: Value(value),
    }
}

// The closings, in the first cells of a run.
pub fn gather(kinds: &[u32], ids: &[u32], values: &[i32]) -> [Closing; 256]
    requires { (length ids.now ≡ length kinds.now) × (length values.now ≡ length kinds.now) × (length kinds.now ≤ 256) }
    ensures { take (length kinds.now) result ≡ closings_of kinds.now ids.now values.now }
{
    let mut cs = [closing_at(1, 0, 0); 256];
    for i in 0..kinds.len() {
        cs[i] = closing_at(kinds[i], ids[i], values[i]);
    }
    cs
}
