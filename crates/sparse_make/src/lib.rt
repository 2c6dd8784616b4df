// The calls that make a sparse set over lent orderings: new, new_unchecked, new_from_values.
//
// None is given a set, so none refuses one: a universe that is too wide, or orderings that are too short for it, are all that they refuse, and
// then they write no cell.
#![tactic(auto, unfolding(crate::specs::Calls::room_for, crate::specs::Calls::between_of, crate::specs::Calls::new_of, crate::specs::Calls::new_unchecked_of, crate::specs::Calls::from_values_of))]

ghost use Rattle.std.specs.Prelude.{◌≡◌, ◌^◌, ◌<◌, ◌≤◌, eqb, length, IfOk};
ghost use Rattle.std.specs.Int.Bits.{bit_or};
ghost use Rattle.mask.specs.Bit.{bit};
ghost use Rattle.sparse_inner.specs.Set.{full, Well, widest};
ghost use Rattle.sparse_make.specs.Calls.{whole, room_for, making, between_of, new_of, new_unchecked_of, sifted_of, from_values_of};

use rules::{Refusal, Value};
use sparse_inner::{Sparse, granted};

// The n values from lo on, all held.
fn whole(lo: i32, n: u32) -> Sparse
    ensures { result ≡ whole lo n }
{
    Sparse {
        off: lo,
        n,
        size: n,
        min: 0,
        max: n.saturating_sub(1),
    }
}

// May a universe of n values be made over what is lent?
fn room_for(n: usize, ind: &[u32], val: &[u32]) -> Result<(), Refusal>
    ensures verdict { result ≡ room_for n ind.now val.now }
    ensures room { IfOk result (λ _. (n ≤ widest) × (n ≤ length ind.now) × (n ≤ length val.now)) }
{
    granted(n <= sparse_inner::WIDEST as usize, Refusal::TooWide)?;
    granted(n <= ind.len() && n <= val.len(), Refusal::Short)
}

// A universe from lo to hi, all held.
fn between(lo: i32, hi: i32, ind: &mut [u32], val: &mut [u32]) -> Result<Sparse, Refusal>
    ensures made { making result ind.new val.new ≡ between_of lo hi ind.old val.old }
    ensures well { IfOk result (λ s. Well s ind.new val.new) }
{
    let n = offset::span(lo, hi);
    room_for(n, ind, val)?;
    order::fill(ind, val, n as u32);
    Ok(whole(lo, n as u32))
}

pub fn new(a: Value, b: Value, ind: &mut [u32], val: &mut [u32]) -> Result<Sparse, Refusal>
    ensures { making result ind.new val.new ≡ new_of a b ind.old val.old }
{
    between(a.0.min(b.0), a.0.max(b.0), ind, val)
}

// Reversed ends give a universe of none.
pub fn new_unchecked(
    a: Value,
    b: Value,
    ind: &mut [u32],
    val: &mut [u32],
) -> Result<Sparse, Refusal>
    ensures { making result ind.new val.new ≡ new_unchecked_of a b ind.old val.old }
{
    between(a.0, b.0, ind, val)
}

// w with its bit j.
fn with_bit(w: u64, j: u32) -> u64
    requires { j < 64 }
    ensures { result ≡ bit_or w (2 ^ j) }
{
    w | (1u64 << j)
}

// Has w its bit j?
fn has_bit(w: u64, j: u32) -> bool
    requires { j < 64 }
    ensures { result ≡ eqb (bit w j) 1 }
{
    (w >> j) & 1 == 1
}

// Drops what is not among the values, in ascending order.
fn sift(s: Sparse, ind: &mut [u32], val: &mut [u32], values: &[i32]) -> Sparse
    requires { Well s ind.old val.old }
    ensures { full result ind.new val.new ≡ sifted_of values.now (full s ind.old val.old) }
{
    let mut among = [0u64; 64];
    for v in values {
        let o = sparse_inner::place(s, Value(*v));
        if o < s.n {
            let k = (o / 64) as usize;
            among[k] = with_bit(among[k], o % 64);
        }
    }
    let mut cur = s;
    for o in 0..s.n {
        if !has_bit(among[(o / 64) as usize], o % 64) {
            cur = sparse_inner::drop_at(cur, ind, val, o);
        }
    }
    cur
}

pub fn new_from_values(values: &[i32], ind: &mut [u32], val: &mut [u32]) -> Result<Sparse, Refusal>
    ensures { making result ind.new val.new ≡ from_values_of values.now ind.old val.old }
{
    if values.is_empty() {
        return Ok(whole(0, 0));
    }
    let s = between(ends::smallest(values), ends::largest(values), ind, val)?;
    Ok(sift(s, ind, val, values))
}
