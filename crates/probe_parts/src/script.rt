// A script, record by record.
ghost use Rattle.std.specs.Prelude.{◌≡◌, ◌<◌, ◌≤◌, length};

use super::record::Record;
use super::turn::Turn;
use super::{record, reply};

// What a record left and answered, and how many bytes stand behind the answer.
#[derive(Clone, Copy)]
pub struct Done {
    pub turn: Turn,
    pub behind: usize,
}

pub fn alone(turn: Turn) -> Done
    ensures { result.behind ≡ 0 }
{
    Done { turn, behind: 0 }
}

// A record asks in twelve bits how many of the cells that it lent are shown.
pub fn shown(asked: u64, most: usize) -> usize
    ensures { result ≤ most }
{
    ((asked % 4096) as usize).min(most)
}

// Runs the records as far as `out` has room for what any of them may answer, and answers how many bytes were written. `step` is lent what
// comes behind the answer, which is at least `most` bytes.
pub fn run<F: FnMut(Record, &mut [u8]) -> Done>(
    script: &[u8],
    out: &mut [u8],
    most: usize,
    mut step: F,
) -> usize
    requires can { (state : F) (r : _) (behind : _) → r.a < 8 → r.b < 8 → most ≤ length behind.now → F.pre state r behind }
    requires within { (state : F) (r : _) (behind : _) (done : _) (after : _) (left : F) → r.a < 8 → r.b < 8 → F.step state r behind done after left → done.behind ≤ most }
    requires small { most ≤ 65536 }
    ensures { result ≤ length out.new }
{
    let (records, _) = script.as_chunks::<32>();
    let mut to = 0;
    for bytes in records {
        if out.len() - to < reply::SIZE + most {
            return to;
        }
        let r = record::read(bytes);
        let next = to + reply::SIZE;
        let done = step(r, &mut out[next..]);
        let turn = done.turn;
        reply::write(r.op, turn.reply, turn.left, out, to);
        to = next + done.behind;
    }
    to
}
