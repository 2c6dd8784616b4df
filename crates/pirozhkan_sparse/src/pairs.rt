// The calls on two sets. The second is only read; the values that leave the first go into the scratch.
#![tactic(auto, unfolding(crate::specs::Lent::parting, crate::specs::Lent::joining, reply::specs::Told::coded))]

ghost use Rattle.std.specs.Prelude.{◌≡◌};
ghost use Rattle.sparse_pairs.specs.Calls.{intersect_of, diff_of};
ghost use Rattle.reply.specs.Through.{left};
ghost use Rattle.pirozhkan_sparse.specs.Lent.{Cells, cells, Worn, worn, parting, joining};
ghost use Rattle.pirozhkan_sparse.specs.Calls.{uniting};

use super::inner;
use rules::Refusal;

pub fn pirozhkan_sparse_intersect_with(
    ws: &mut [u32],
    ind: &mut [u32],
    val: &mut [u32],
    tws: &[u32],
    tind: &[u32],
    tval: &[u32],
    scratch: &mut [i32],
) -> u64
    ensures { left {C = Worn} result (worn (cells ws.new ind.new val.new) scratch.new) ≡ parting intersect_of (cells ws.old ind.old val.old) (cells tws.now tind.now tval.now) scratch.old }
{
    if ws.len() < inner::CELLS || tws.len() < inner::CELLS {
        return reply::refusal(Refusal::NoRoom);
    }
    let s = inner::read(ws);
    let t = inner::read(tws);
    inner::settle(
        ws,
        sparse_pairs::intersect_with(s, ind, val, t, tind, tval, scratch),
        reply::outcome,
    )
}

pub fn pirozhkan_sparse_diff_with(
    ws: &mut [u32],
    ind: &mut [u32],
    val: &mut [u32],
    tws: &[u32],
    tind: &[u32],
    tval: &[u32],
    scratch: &mut [i32],
) -> u64
    ensures { left {C = Worn} result (worn (cells ws.new ind.new val.new) scratch.new) ≡ parting diff_of (cells ws.old ind.old val.old) (cells tws.now tind.now tval.now) scratch.old }
{
    if ws.len() < inner::CELLS || tws.len() < inner::CELLS {
        return reply::refusal(Refusal::NoRoom);
    }
    let s = inner::read(ws);
    let t = inner::read(tws);
    inner::settle(
        ws,
        sparse_pairs::diff_with(s, ind, val, t, tind, tval, scratch),
        reply::outcome,
    )
}

pub fn pirozhkan_sparse_union_with(
    ws: &mut [u32],
    ind: &mut [u32],
    val: &mut [u32],
    tws: &[u32],
    tind: &[u32],
    tval: &[u32],
) -> u64
    ensures { left {C = Cells} result (cells ws.new ind.new val.new) ≡ joining uniting (cells ws.old ind.old val.old) (cells tws.now tind.now tval.now) }
{
    if ws.len() < inner::CELLS || tws.len() < inner::CELLS {
        return reply::refusal(Refusal::NoRoom);
    }
    let s = inner::read(ws);
    let t = inner::read(tws);
    inner::settle(
        ws,
        sparse_pairs::union_with(s, ind, val, t, tind, tval),
        reply::outcome,
    )
}
