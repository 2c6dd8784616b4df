// A new set over two orderings, whatever the state's cells were. What is refused writes no cell.
#![tactic(auto, unfolding(crate::specs::Lent::begun, reply::specs::Told::coded))]

ghost use Rattle.std.specs.Prelude.{◌≡◌};
ghost use Rattle.sparse_make.specs.Calls.{new_of, from_values_of};
ghost use Rattle.reply.specs.Through.{left};
ghost use Rattle.pirozhkan_sparse.specs.Lent.{Cells, cells, begun};
ghost use Rattle.pirozhkan_sparse.specs.Calls.{chute};

use super::inner;
use rules::{Refusal, Value};

// The values from min to max, all held; the ends in either order.
pub fn pirozhkan_sparse_new(
    ws: &mut [u32],
    ind: &mut [u32],
    val: &mut [u32],
    min: i32,
    max: i32,
) -> u64
    ensures { left {C = Cells} result (cells ws.new ind.new val.new) ≡ begun (new_of (chute min) (chute max)) (cells ws.old ind.old val.old) }
{
    if ws.len() < inner::CELLS {
        return reply::refusal(Refusal::NoRoom);
    }
    inner::begin(ws, sparse_make::new(Value(min), Value(max), ind, val))
}

// The universe from the smallest value to the largest, of which these are held.
pub fn pirozhkan_sparse_new_from_values(
    ws: &mut [u32],
    ind: &mut [u32],
    val: &mut [u32],
    values: &[i32],
) -> u64
    ensures { left {C = Cells} result (cells ws.new ind.new val.new) ≡ begun (from_values_of values.now) (cells ws.old ind.old val.old) }
{
    if ws.len() < inner::CELLS {
        return reply::refusal(Refusal::NoRoom);
    }
    inner::begin(ws, sparse_make::new_from_values(values, ind, val))
}
