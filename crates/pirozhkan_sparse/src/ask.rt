// Questions: the set is only read. Values, text and a saved state go into cells that the caller lends.
#![tactic(auto, unfolding(reply::specs::Lent::shown, reply::specs::Told::coded))]

ghost use Rattle.std.specs.Prelude.{◌≡◌, List, ℕ, ℤ};
ghost use Rattle.reply.specs.Through.{left};
ghost use Rattle.pirozhkan_sparse.specs.Lent.{cells, answered, shown};
ghost use Rattle.pirozhkan_sparse.specs.Calls.{whether_held, sizing, smallest, largest, values_into, text_into, kept_into, saving_into};

use super::inner;
use rules::{Refusal, Value};
use sparse_inner::SparseState;

pub fn pirozhkan_sparse_contains(ws: &[u32], ind: &[u32], val: &[u32], value: i32) -> u64
    ensures { result ≡ answered (whether_held value) (cells ws.now ind.now val.now) }
{
    inner::ask(
        ws,
        |s| reply::told(sparse::contains(s, ind, val, Value(value))),
    )
}

pub fn pirozhkan_sparse_size(ws: &[u32], ind: &[u32], val: &[u32]) -> u64
    ensures { result ≡ answered sizing (cells ws.now ind.now val.now) }
{
    inner::ask(ws, |s| reply::counted(sparse::size(s, ind, val)))
}

pub fn pirozhkan_sparse_min(ws: &[u32], ind: &[u32], val: &[u32]) -> u64
    ensures { result ≡ answered smallest (cells ws.now ind.now val.now) }
{
    inner::ask(ws, |s| reply::found(sparse::min(s, ind, val)))
}

pub fn pirozhkan_sparse_max(ws: &[u32], ind: &[u32], val: &[u32]) -> u64
    ensures { result ≡ answered largest (cells ws.now ind.now val.now) }
{
    inner::ask(ws, |s| reply::found(sparse::max(s, ind, val)))
}

pub fn pirozhkan_sparse_values(ws: &[u32], ind: &[u32], val: &[u32], out: &mut [i32]) -> u64
    ensures { left {C = List ℤ} result out.new ≡ shown (values_into out.old) (cells ws.now ind.now val.now) out.old }
{
    if ws.len() < inner::CELLS {
        return reply::refusal(Refusal::NoRoom);
    }
    reply::counted(sparse_values::to_vec(inner::read(ws), ind, val, out))
}

pub fn pirozhkan_sparse_text(ws: &[u32], ind: &[u32], val: &[u32], out: &mut [u8]) -> u64
    ensures { left {C = List ℕ} result out.new ≡ shown (text_into out.old) (cells ws.now ind.now val.now) out.old }
{
    if ws.len() < inner::CELLS {
        return reply::refusal(Refusal::NoRoom);
    }
    reply::counted(sparse_text::write_text(inner::read(ws), ind, val, out))
}

// Size, min and max into the first three cells.
fn put_kept(k: Result<SparseState, Refusal>, out: &mut [u32]) -> u64
    ensures { left {C = List ℕ} result out.new ≡ kept_into out.old k }
{
    match k {
        Err(r) => reply::refusal(r),
        Ok(t) => {
            if out.len() < 3 {
                return reply::refusal(Refusal::NoRoom);
            }
            out[0] = t.size;
            out[1] = t.min;
            out[2] = t.max;
            0
        }
    }
}

pub fn pirozhkan_sparse_save_state(ws: &[u32], ind: &[u32], val: &[u32], out: &mut [u32]) -> u64
    ensures { left {C = List ℕ} result out.new ≡ shown (saving_into out.old) (cells ws.now ind.now val.now) out.old }
{
    if ws.len() < inner::CELLS {
        return reply::refusal(Refusal::NoRoom);
    }
    put_kept(sparse::save_state(inner::read(ws), ind, val), out)
}
