// The calls that change a domain. insert and remove tell whether membership changed.
ghost use Rattle.std.specs.Prelude.{◌≡◌, List, ℕ};
ghost use Rattle.rules.specs.Board.{assign, below, above};
ghost use Rattle.reply.specs.Through.{left};
ghost use Rattle.pirozhkan_bit.specs.Lent.{through};
ghost use Rattle.pirozhkan_bit.specs.Calls.{inserting, removing, emptying, closing};

use super::inner;
use rules::Value;

pub fn pirozhkan_bit_insert(ws: &mut [u64], value: i32) -> u64
    ensures { left {C = List ℕ} result ws.new ≡ through (inserting value) ws.old }
{
    inner::settle(ws, |d| domain::insert(d, Value(value)), reply::told)
}

pub fn pirozhkan_bit_remove(ws: &mut [u64], value: i32) -> u64
    ensures { left {C = List ℕ} result ws.new ≡ through (removing value) ws.old }
{
    inner::settle(ws, |d| domain::remove(d, Value(value)), reply::told)
}

pub fn pirozhkan_bit_remove_all(ws: &mut [u64]) -> u64
    ensures { left {C = List ℕ} result ws.new ≡ through emptying ws.old }
{
    inner::settle(ws, domain::remove_all, reply::outcome)
}

pub fn pirozhkan_bit_remove_all_but(ws: &mut [u64], value: i32) -> u64
    ensures { left {C = List ℕ} result ws.new ≡ through (closing assign value) ws.old }
{
    inner::settle(
        ws,
        |d| domain::remove_all_but(d, Value(value)),
        reply::outcome,
    )
}

pub fn pirozhkan_bit_remove_below(ws: &mut [u64], value: i32) -> u64
    ensures { left {C = List ℕ} result ws.new ≡ through (closing below value) ws.old }
{
    inner::settle(
        ws,
        |d| domain::remove_below(d, Value(value)),
        reply::outcome,
    )
}

pub fn pirozhkan_bit_remove_above(ws: &mut [u64], value: i32) -> u64
    ensures { left {C = List ℕ} result ws.new ≡ through (closing above value) ws.old }
{
    inner::settle(
        ws,
        |d| domain::remove_above(d, Value(value)),
        reply::outcome,
    )
}
