// A new domain, whatever the words were.
ghost use Rattle.std.specs.Prelude.{◌≡◌, true, false, List, ℕ};
ghost use Rattle.domain_values.specs.Calls.{from_values_of};
ghost use Rattle.reply.specs.Through.{left};
ghost use Rattle.pirozhkan_bit.specs.Lent.{begun};
ghost use Rattle.pirozhkan_bit.specs.Calls.{between};

use super::inner;
use domain::BitDomain;
use rules::{Refusal, Value};

#[tactic(auto, unfolding(reply::specs::Lent::through, reply::specs::Told::coded))]
fn begin(ws: &mut [u64], d: BitDomain) -> u64
    ensures { left {C = List ℕ} result ws.new ≡ begun d ws.old }
{
    if ws.len() < inner::WORDS {
        return reply::refusal(Refusal::NoRoom);
    }
    inner::write(d, ws);
    0
}

// The values from min to max, all held; over 128 of them, the domain of none.
pub fn pirozhkan_bit_new(ws: &mut [u64], min: i32, max: i32) -> u64
    ensures { left {C = List ℕ} result ws.new ≡ begun (between true min max) ws.old }
{
    begin(ws, domain::new(Value(min), Value(max)))
}

// The same universe, and nothing held.
pub fn pirozhkan_bit_new_empty(ws: &mut [u64], min: i32, max: i32) -> u64
    ensures { left {C = List ℕ} result ws.new ≡ begun (between false min max) ws.old }
{
    begin(ws, domain::new_empty(Value(min), Value(max)))
}

pub fn pirozhkan_bit_new_from_values(ws: &mut [u64], values: &[i32]) -> u64
    ensures { left {C = List ℕ} result ws.new ≡ begun (from_values_of values.now) ws.old }
{
    begin(ws, domain_values::new_from_values(values))
}
