// The calls that change a set. remove tells whether the value was held.
#![tactic(auto, unfolding(reply::specs::Lent::through, reply::specs::Told::coded))]

ghost use Rattle.std.specs.Prelude.{◌≡◌};
ghost use Rattle.reply.specs.Through.{left};
ghost use Rattle.pirozhkan_sparse.specs.Lent.{Cells, cells, through};
ghost use Rattle.pirozhkan_sparse.specs.Calls.{removing, emptying, leaving_only, dropping_below, dropping_above, saved, restoring};

use super::inner;
use rules::{Refusal, Value};
use sparse_inner::SparseState;

pub fn pirozhkan_sparse_remove(ws: &mut [u32], ind: &mut [u32], val: &mut [u32], value: i32) -> u64
    ensures { left {C = Cells} result (cells ws.new ind.new val.new) ≡ through (removing value) (cells ws.old ind.old val.old) }
{
    if ws.len() < inner::CELLS {
        return reply::refusal(Refusal::NoRoom);
    }
    let s = inner::read(ws);
    inner::settle(ws, sparse::remove(s, ind, val, Value(value)), reply::told)
}

pub fn pirozhkan_sparse_remove_all(ws: &mut [u32], ind: &[u32], val: &[u32]) -> u64
    ensures { left {C = Cells} result (cells ws.new ind.now val.now) ≡ through emptying (cells ws.old ind.now val.now) }
{
    if ws.len() < inner::CELLS {
        return reply::refusal(Refusal::NoRoom);
    }
    let s = inner::read(ws);
    inner::settle(ws, sparse::remove_all(s, ind, val), reply::outcome)
}

pub fn pirozhkan_sparse_remove_all_but(
    ws: &mut [u32],
    ind: &mut [u32],
    val: &mut [u32],
    value: i32,
) -> u64
    ensures { left {C = Cells} result (cells ws.new ind.new val.new) ≡ through (leaving_only value) (cells ws.old ind.old val.old) }
{
    if ws.len() < inner::CELLS {
        return reply::refusal(Refusal::NoRoom);
    }
    let s = inner::read(ws);
    inner::settle(
        ws,
        sparse::remove_all_but(s, ind, val, Value(value)),
        reply::outcome,
    )
}

pub fn pirozhkan_sparse_remove_below(
    ws: &mut [u32],
    ind: &mut [u32],
    val: &mut [u32],
    value: i32,
) -> u64
    ensures { left {C = Cells} result (cells ws.new ind.new val.new) ≡ through (dropping_below value) (cells ws.old ind.old val.old) }
{
    if ws.len() < inner::CELLS {
        return reply::refusal(Refusal::NoRoom);
    }
    let s = inner::read(ws);
    inner::settle(
        ws,
        sparse::remove_below(s, ind, val, Value(value)),
        reply::outcome,
    )
}

pub fn pirozhkan_sparse_remove_above(
    ws: &mut [u32],
    ind: &mut [u32],
    val: &mut [u32],
    value: i32,
) -> u64
    ensures { left {C = Cells} result (cells ws.new ind.new val.new) ≡ through (dropping_above value) (cells ws.old ind.old val.old) }
{
    if ws.len() < inner::CELLS {
        return reply::refusal(Refusal::NoRoom);
    }
    let s = inner::read(ws);
    inner::settle(
        ws,
        sparse::remove_above(s, ind, val, Value(value)),
        reply::outcome,
    )
}

// A state that was saved: its size and its bounds.
pub fn pirozhkan_sparse_restore_state(
    ws: &mut [u32],
    ind: &[u32],
    val: &[u32],
    size: u32,
    min: u32,
    max: u32,
) -> u64
    ensures { left {C = Cells} result (cells ws.new ind.now val.now) ≡ through (restoring (saved size min max)) (cells ws.old ind.now val.now) }
{
    if ws.len() < inner::CELLS {
        return reply::refusal(Refusal::NoRoom);
    }
    let s = inner::read(ws);
    let t = SparseState { size, min, max };
    inner::settle(ws, sparse::restore_state(s, ind, val, t), reply::outcome)
}
