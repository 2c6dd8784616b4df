// A set's state in five cells, and what the calls that hand a state back end with.
ghost use Rattle.std.specs.Prelude.{◌≡◌, List, ℕ, ◌≤◌, length};
ghost use Rattle.reply.specs.Through.{left};
ghost use Rattle.pirozhkan_sparse.specs.Layout.{size, read_of};
ghost use Rattle.pirozhkan_sparse.specs.Lent.{put, made_in, Asks};

use rules::Refusal;
use sparse::Handed;
use sparse_inner::Sparse;

// How many cells a state takes.
pub const CELLS: usize = 5;

pub fn read(ws: &[u32]) -> Sparse
    requires { size ≤ length ws.now }
    ensures { result ≡ read_of ws.now }
{
    Sparse {
        off: state::chute(ws[0]),
        n: ws[1],
        size: ws[2],
        min: ws[3],
        max: ws[4],
    }
}

// Cells past the state's stay as they are.
pub fn write(s: Sparse, ws: &mut [u32])
    requires { size ≤ length ws.old }
    ensures { ws.new ≡ put s ws.old }
{
    ws[0] = state::half_of(s.off) as u32;
    ws[1] = s.n;
    ws[2] = s.size;
    ws[3] = s.min;
    ws[4] = s.max;
}

// A question of the set that the cells stand for.
#[tactic(auto, unfolding(reply::specs::Lent::answered, reply::specs::Told::coded))]
pub fn ask<F: FnOnce(Sparse) -> u64>(ws: &[u32], question: F) -> u64
    requires { F.IsAlwaysCallable question }
    ensures { Asks (F.post question) ws.now result }
{
    if ws.len() < CELLS {
        return reply::refusal(Refusal::NoRoom);
    }
    question(read(ws))
}

// The state that a call handed back is written, and its answer told.
pub fn settle<T, F: FnOnce(Result<T, Refusal>) -> u64>(ws: &mut [u32], r: Handed<T>, tell: F) -> u64
    requires room { size ≤ length ws.old }
    requires tell { F.IsAlwaysCallable tell }
    ensures told { F.post tell r.answer result }
    ensures written { ws.new ≡ put r.set ws.old }
{
    write(r.set, ws);
    tell(r.answer)
}

// A set that was refused leaves the state's cells.
#[tactic(auto, unfolding(reply::specs::Told::coded))]
pub fn begin(ws: &mut [u32], m: Result<Sparse, Refusal>) -> u64
    requires { size ≤ length ws.old }
    ensures { left {C = List ℕ} result ws.new ≡ made_in ws.old m }
{
    match m {
        Err(r) => reply::refusal(r),
        Ok(s) => {
            write(s, ws);
            0
        }
    }
}
