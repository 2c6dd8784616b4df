// The calls on two sparse sets: intersect_with, diff_with, union_with, is_subset_of, equals. Their universes may differ.
//
// The first set is the one that changes. A call is refused if either set isn't well formed, or if the scratch that it needs is smaller than the first
// set, and then leaves all as it came.
#![tactic(auto, unfolding(crate::specs::Calls::part_of, crate::specs::Calls::intersect_of, crate::specs::Calls::diff_of, crate::specs::Calls::union_of, crate::specs::Calls::is_subset_of, crate::specs::Calls::equals_of, sparse_inner::specs::Set::is_held))]

ghost use Rattle.std.specs.Prelude.{◌≡◌, ◌≤◌, length};
ghost use Rattle.rules.specs.Sets.{every};
ghost use Rattle.sparse_inner.specs.Set.{full, Well, set_of, is_held, over};
ghost use Rattle.sparse.specs.Calls.{after};
ghost use Rattle.sparse_pairs.specs.Calls.{drop_each, add_each, pared, parted, part_of, intersect_of, diff_of, union_of, is_subset_of, equals_of};

use rules::{Refusal, Value};
use sparse::Narrowed;
use sparse::inner::{done, refused};
use sparse_inner::Sparse;

// Writes the values of s that t holds (want), or those that it does not, and answers how many they are.
fn gather(
    s: Sparse,
    ind: &[u32],
    val: &[u32],
    t: Sparse,
    tind: &[u32],
    tval: &[u32],
    want: bool,
    out: &mut [i32],
) -> usize
    requires well { Well s ind.now val.now }
    requires well_2 { Well t tind.now tval.now }
    requires size_in_bounds { s.size ≤ length out.old }
    ensures value { result ≡ length (parted (full s ind.now val.now) (full t tind.now tval.now) want) }
    ensures out_after { out.new ≡ over (parted (full s ind.now val.now) (full t tind.now tval.now) want) out.old }
{
    let mut m: usize = 0;
    for k in 0..s.size {
        let v = sparse_inner::value(s, val[k as usize]);
        if sparse_inner::has(t, tind, v) == want {
            out[m] = v.0;
            m += 1;
        }
    }
    m
}

// Drops the values, one after the other.
fn drop_each(s: Sparse, ind: &mut [u32], val: &mut [u32], values: &[i32]) -> Sparse
    requires { Well s ind.old val.old }
    ensures { full result ind.new val.new ≡ drop_each (full s ind.old val.old) values.now }
{
    let mut cur = s;
    for v in values {
        let o = sparse_inner::place(cur, Value(*v));
        cur = sparse_inner::drop_at(cur, ind, val, o);
    }
    cur
}

// Drops the values of s that t holds (want), or those that it does not.
fn part(
    s: Sparse,
    ind: &mut [u32],
    val: &mut [u32],
    t: Sparse,
    tind: &[u32],
    tval: &[u32],
    want: bool,
    scratch: &mut [i32],
) -> Narrowed
    ensures { pared result.answer (full result.set ind.new val.new) scratch.new ≡ part_of (full s ind.old val.old) (full t tind.now tval.now) want scratch.old }
{
    match sparse_inner::check_both(s, ind, val, t, tind, tval) {
        Err(why) => refused(s, why),
        Ok(()) => {
            if scratch.len() < s.size as usize {
                return refused(s, Refusal::NoRoom);
            }
            let m = gather(s, ind, val, t, tind, tval, want, scratch);
            done(drop_each(s, ind, val, &scratch[..m]), ())
        }
    }
}

pub fn intersect_with(
    s: Sparse,
    ind: &mut [u32],
    val: &mut [u32],
    t: Sparse,
    tind: &[u32],
    tval: &[u32],
    scratch: &mut [i32],
) -> Narrowed
    ensures { pared result.answer (full result.set ind.new val.new) scratch.new ≡ intersect_of (full s ind.old val.old) (full t tind.now tval.now) scratch.old }
{
    part(s, ind, val, t, tind, tval, false, scratch)
}

pub fn diff_with(
    s: Sparse,
    ind: &mut [u32],
    val: &mut [u32],
    t: Sparse,
    tind: &[u32],
    tval: &[u32],
    scratch: &mut [i32],
) -> Narrowed
    ensures { pared result.answer (full result.set ind.new val.new) scratch.new ≡ diff_of (full s ind.old val.old) (full t tind.now tval.now) scratch.old }
{
    part(s, ind, val, t, tind, tval, true, scratch)
}

// Adds the values of t, one after the other.
fn add_each(
    s: Sparse,
    ind: &mut [u32],
    val: &mut [u32],
    t: Sparse,
    tind: &[u32],
    tval: &[u32],
) -> Sparse
    requires well { Well s ind.old val.old }
    requires well_2 { Well t tind.now tval.now }
    ensures { full result ind.new val.new ≡ add_each (full s ind.old val.old) (set_of (full t tind.now tval.now)) }
{
    let mut cur = s;
    for k in 0..t.size {
        let v = sparse_inner::value(t, tval[k as usize]);
        let o = sparse_inner::place(cur, v);
        cur = sparse_inner::add_at(cur, ind, val, o);
    }
    cur
}

pub fn union_with(
    s: Sparse,
    ind: &mut [u32],
    val: &mut [u32],
    t: Sparse,
    tind: &[u32],
    tval: &[u32],
) -> Narrowed
    ensures { after result.answer (full result.set ind.new val.new) ≡ union_of (full s ind.old val.old) (full t tind.now tval.now) }
{
    match sparse_inner::check_both(s, ind, val, t, tind, tval) {
        Err(why) => refused(s, why),
        Ok(()) => done(add_each(s, ind, val, t, tind, tval), ()),
    }
}

// Are all values of s held by t?
fn all_in(s: Sparse, ind: &[u32], val: &[u32], t: Sparse, tind: &[u32], tval: &[u32]) -> bool
    requires well { Well s ind.now val.now }
    requires well_2 { Well t tind.now tval.now }
    ensures { result ≡ every (is_held (full t tind.now tval.now)) (set_of (full s ind.now val.now)) }
{
    for k in 0..s.size {
        if !sparse_inner::has(t, tind, sparse_inner::value(s, val[k as usize])) {
            return false;
        }
    }
    true
}

pub fn is_subset_of(
    s: Sparse,
    ind: &[u32],
    val: &[u32],
    t: Sparse,
    tind: &[u32],
    tval: &[u32],
) -> Result<bool, Refusal>
    ensures { result ≡ is_subset_of (full s ind.now val.now) (full t tind.now tval.now) }
{
    sparse_inner::check_both(s, ind, val, t, tind, tval)?;
    Ok(all_in(s, ind, val, t, tind, tval))
}

pub fn equals(
    s: Sparse,
    ind: &[u32],
    val: &[u32],
    t: Sparse,
    tind: &[u32],
    tval: &[u32],
) -> Result<bool, Refusal>
    ensures { result ≡ equals_of (full s ind.now val.now) (full t tind.now tval.now) }
{
    sparse_inner::check_both(s, ind, val, t, tind, tval)?;
    Ok(s.size == t.size && all_in(s, ind, val, t, tind, tval))
}
