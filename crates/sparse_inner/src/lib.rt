// The sparse set behind its calls: its state, by value, over two orderings that the caller lends, and the work of the calls on a set that is
// known to be well formed. `check` is the test that makes it known; the calls that make it for their callers are in `sparse` and beside it.
//
// granted, check, check_both; place, below, upto, value; holds, has, fits, state, resized, emptied; drop_at, add_at, only_at, from_cut, under_cut
#![tactic(auto, unfolding(crate::specs::Set::held_b, crate::specs::Set::bounds_b, crate::specs::Set::fits_b, crate::specs::Set::sound_b, crate::specs::Set::verdict_of, crate::specs::Set::both_of))]

ghost use Rattle.std.specs.Prelude.{◌≡◌, ℕ, ◌+◌, ◌-◌, ◌<◌, ◌≤◌, pos, ◌+ℤ◌, ◌-ℤ◌, length, get_or, true, false, IfOk, MatchResult};
ghost use Rattle.std.specs.Int.Signed.{le_z};
ghost use Rattle.std.specs.Int.{w32};
ghost use Rattle.std.proofs.Common.{SFits};
ghost use Rattle.order.specs.Order.{all_b};
ghost use Rattle.offset.specs.Places.{cut_of};
ghost use Rattle.sparse_inner.specs.Set.{full, held_b, Well, between, bounds_b, fits_b, state_of, sound_b, room_b, verdict_of, both_of, place_in, value_at};
ghost use Rattle.sparse_inner.specs.Change.{drop_at, drop_run, add_at, only_at, from_cut, under_cut};
ghost use Rattle.sparse_inner.specs.Scan.{Spans, Greatest, Least, low_with, high_with};

use rules::{Refusal, Value};

// The universe is the n values from off on. The first `size` cells of `val` are held; min and max are their bounds, as offsets.
#[derive(Clone, Copy)]
pub struct Sparse {
    pub off: i32,
    pub n: u32,
    pub size: u32,
    pub min: u32,
    pub max: u32,
}

// What `save_state` keeps of a set.
#[derive(Clone, Copy)]
pub struct SparseState {
    pub size: u32,
    pub min: u32,
    pub max: u32,
}

// How many values a universe may have.
pub const WIDEST: u32 = 4096;

// ---- values and offsets

// Where v stands in the universe: n where it stands outside.
pub fn place(s: Sparse, v: Value) -> u32
    ensures { result ≡ place_in s v.0 }
{
    offset::place(v.0, s.off, s.n as usize) as u32
}

// How many values of the universe stand below v.
pub fn below(s: Sparse, v: Value) -> u32
    ensures { result ≡ cut_of s.n (v.0 -ℤ s.off) }
{
    offset::below(v.0, s.off, s.n as usize) as u32
}

// How many stand at v or below it.
pub fn upto(s: Sparse, v: Value) -> u32
    ensures { result ≡ cut_of s.n ((v.0 -ℤ s.off) +ℤ pos 1) }
{
    offset::upto(v.0, s.off, s.n as usize) as u32
}

// The value at an offset.
pub fn value(s: Sparse, o: u32) -> Value
    requires { SFits w32 (value_at s o) }
    ensures { result.0 ≡ value_at s o }
{
    Value(offset::value(s.off, o as usize))
}

// Is the offset o held?
pub fn holds(ind: &[u32], n: u32, size: u32, o: u32) -> bool
    requires { n ≤ length ind.now }
    ensures { result ≡ held_b ind.now n size o }
{
    o < n && ind[o as usize] < size
}

// Is v held?
pub fn has(s: Sparse, ind: &[u32], v: Value) -> bool
    requires { s.n ≤ length ind.now }
    ensures { result ≡ held_b ind.now s.n s.size (place_in s v.0) }
{
    holds(ind, s.n, s.size, place(s, v))
}

// ---- well-formedness

// Does a universe of n values from off lie within i32?
fn fits_i32(off: i32, n: u32) -> bool
    ensures { result ≡ le_z (off +ℤ pos n) (pos 2147483648) }
{
    (off as i64) + (n as i64) <= 2147483648
}

// Do the first `size` cells hold numbers from min to max only? Nothing ends it early, so that several cells are tested at a time.
fn all_between(val: &[u32], size: u32, min: u32, max: u32) -> bool
    requires { size ≤ length val.now }
    ensures { result ≡ all_b (between val.now min max) size }
{
    let mut so = true;
    for k in 0..size {
        let x = val[k as usize];
        so = so & ((min <= x) & (x <= max));
    }
    so
}

// Are min and max the bounds of what is held?
fn bounds_ok(ind: &[u32], val: &[u32], n: u32, size: u32, min: u32, max: u32) -> bool
    requires n_in_bounds { (n ≤ length ind.now) × (n ≤ length val.now) }
    requires size_le_n { size ≤ n }
    ensures { result ≡ bounds_b ind.now val.now n size min max }
{
    holds(ind, n, size, min) && holds(ind, n, size, max) && all_between(val, size, min, max)
}

// Does a state fit two orderings?
pub fn fits(ind: &[u32], val: &[u32], n: u32, t: SparseState) -> bool
    requires { (n ≤ length ind.now) × (n ≤ length val.now) }
    ensures { result ≡ fits_b ind.now val.now n t }
{
    t.size <= n && (t.size == 0 || bounds_ok(ind, val, n, t.size, t.min, t.max))
}

// What `save_state` keeps.
pub fn state(s: Sparse) -> SparseState
    ensures { result ≡ state_of s }
{
    SparseState {
        size: s.size,
        min: s.min,
        max: s.max,
    }
}

// Is a set sound, whose universe is narrow and whose cells have room? It stands by itself, so that its loops are the same in every call: in line
// with a threshold call's own work they took a third more.
#[inline(never)]
fn is_sound(s: Sparse, ind: &[u32], val: &[u32]) -> bool
    requires { (s.n ≤ length ind.now) × (s.n ≤ length val.now) }
    ensures { result ≡ sound_b (full s ind.now val.now) }
{
    fits_i32(s.off, s.n) && order::is_inverse(ind, val, s.n) && fits(ind, val, s.n, state(s))
}

// Have both orderings room for the universe?
fn has_room(s: Sparse, ind: &[u32], val: &[u32]) -> bool
    ensures { result ≡ room_b (full s ind.now val.now) }
{
    let n = s.n as usize;
    n <= ind.len() && n <= val.len()
}

// A test that must hold, and why a call is refused where it doesn't.
pub fn granted(so: bool, why: Refusal) -> Result<(), Refusal>
    ensures { MatchResult result (λ _. so ≡ true) (λ e. (so ≡ false) × (e ≡ why)) }
{
    if so { Ok(()) } else { Err(why) }
}

// May a call work on what it is lent? A set that is accepted is well formed.
pub fn check(s: Sparse, ind: &[u32], val: &[u32]) -> Result<(), Refusal>
    ensures verdict { result ≡ verdict_of (full s ind.now val.now) }
    ensures well { IfOk result (λ _. Well s ind.now val.now) }
{
    granted(s.n <= WIDEST, Refusal::TooWide)?;
    granted(has_room(s, ind, val), Refusal::Short)?;
    granted(is_sound(s, ind, val), Refusal::Broken)
}

// And on two sets?
pub fn check_both(
    s: Sparse,
    ind: &[u32],
    val: &[u32],
    t: Sparse,
    tind: &[u32],
    tval: &[u32],
) -> Result<(), Refusal>
    ensures verdict { result ≡ both_of (full s ind.now val.now) (full t tind.now tval.now) }
    ensures well { IfOk result (λ _. Well s ind.now val.now) }
    ensures t_well { IfOk result (λ _. Well t tind.now tval.now) }
{
    granted(s.n <= WIDEST, Refusal::TooWide)?;
    granted(t.n <= WIDEST, Refusal::TooWide)?;
    granted(has_room(s, ind, val), Refusal::Short)?;
    granted(has_room(t, tind, tval), Refusal::Short)?;
    granted(is_sound(s, ind, val), Refusal::Broken)?;
    granted(is_sound(t, tind, tval), Refusal::Broken)
}

// The same universe at another size and with other bounds.
pub fn resized(s: Sparse, size: u32, min: u32, max: u32) -> Sparse
    ensures { result ≡ record { off = s.off; n = s.n; size = size; min = min; max = max } }
{
    Sparse {
        size,
        min,
        max,
        ..s
    }
}

// Nothing held: the bounds stay.
pub fn emptied(s: Sparse) -> Sparse
    ensures { result ≡ record { off = s.off; n = s.n; size = 0; min = s.min; max = s.max } }
{
    resized(s, 0, s.min, s.max)
}

// ---- one offset

// The greatest held offset above lo and below hi, or lo.
fn last_held(ind: &[u32], size: u32, lo: u32, hi: u32) -> u32
    requires { (lo < hi) × (hi ≤ length ind.now) }
    ensures lower_bound { (lo ≤ result) × (result < hi) }
    ensures result_bound { lo < result → get_or ind.now result 0 < size }
    ensures by_index { (k : ℕ) → result < k → k < hi → size ≤ get_or ind.now k 0 }
{
    for v in (lo + 1..hi).rev() {
        if ind[v as usize] < size {
            return v;
        }
    }
    lo
}

// The least held offset from lo and below hi, or hi.
fn first_held(ind: &[u32], size: u32, lo: u32, hi: u32) -> u32
    requires { (lo ≤ hi) × (hi ≤ length ind.now) }
    ensures lower_bound { (lo ≤ result) × (result ≤ hi) }
    ensures result_bound { result < hi → get_or ind.now result 0 < size }
    ensures by_index { (k : ℕ) → lo ≤ k → k < result → size ≤ get_or ind.now k 0 }
{
    let mut v = lo;
    while v < hi {
        if ind[v as usize] < size {
            return v;
        }
        v += 1;
    }
    v
}

// The greatest offset held after o was dropped.
fn new_max(ind: &[u32], n: u32, size: u32, min: u32, max: u32, o: u32) -> u32
    requires n_in_bounds { n ≤ length ind.now }
    requires spans { 0 < size → Spans ind.now n size min max o }
    ensures { Greatest ind.now n size max result }
{
    if size == 0 || max != o {
        return max;
    }
    last_held(ind, size, min, o)
}

// The least offset held after o was dropped.
fn new_min(ind: &[u32], n: u32, size: u32, min: u32, max: u32, o: u32) -> u32
    requires n_in_bounds { n ≤ length ind.now }
    requires spans { 0 < size → Spans ind.now n size min max o }
    ensures { Least ind.now n size min result }
{
    if size == 0 || min != o {
        return min;
    }
    first_held(ind, size, o + 1, max)
}

// Drops the offset o, where it is held.
pub fn drop_at(s: Sparse, ind: &mut [u32], val: &mut [u32], o: u32) -> Sparse
    requires { Well s ind.old val.old }
    ensures { full result ind.new val.new ≡ drop_at (full s ind.old val.old) o }
{
    let n = s.n;
    let size = s.size;
    if !holds(ind, n, size, o) {
        return s;
    }
    let last = size - 1;
    let l = val[last as usize];
    order::exchange(ind, val, o, l);
    let min = new_min(ind, n, last, s.min, s.max, o);
    let max = new_max(ind, n, last, s.min, s.max, o);
    resized(s, last, min, max)
}

// The least offset once o is added, and the greatest.
fn low_with(size: u32, min: u32, o: u32) -> u32
    ensures { result ≡ low_with size min o }
{
    if size == 0 || o < min { o } else { min }
}

fn high_with(size: u32, max: u32, o: u32) -> u32
    ensures { result ≡ high_with size max o }
{
    if size == 0 || max < o { o } else { max }
}

// Adds the offset o of the universe, where it is not held.
pub fn add_at(s: Sparse, ind: &mut [u32], val: &mut [u32], o: u32) -> Sparse
    requires { Well s ind.old val.old }
    ensures { full result ind.new val.new ≡ add_at (full s ind.old val.old) o }
{
    let n = s.n;
    let size = s.size;
    if o >= n || holds(ind, n, size, o) {
        return s;
    }
    let l = val[size as usize];
    order::exchange(ind, val, o, l);
    let min = low_with(size, s.min, o);
    let max = high_with(size, s.max, o);
    resized(s, size + 1, min, max)
}

// Drops all but the offset o, or all where it is not held.
pub fn only_at(s: Sparse, ind: &mut [u32], val: &mut [u32], o: u32) -> Sparse
    requires { Well s ind.old val.old }
    ensures { full result ind.new val.new ≡ only_at (full s ind.old val.old) o }
{
    if !holds(ind, s.n, s.size, o) {
        return emptied(s);
    }
    let l = val[0];
    order::exchange(ind, val, o, l);
    resized(s, 1, o, o)
}

// ---- runs of offsets

// Drops the offsets from `from` up to `to`, in ascending order.
fn drop_run(s: Sparse, ind: &mut [u32], val: &mut [u32], from: u32, to: u32) -> Sparse
    requires { Well s ind.old val.old }
    ensures { full result ind.new val.new ≡ drop_run (full s ind.old val.old) from (to - from) }
{
    let mut cur = s;
    for o in from..to {
        cur = drop_at(cur, ind, val, o);
    }
    cur
}

// Drops the offsets below the cut.
pub fn from_cut(s: Sparse, ind: &mut [u32], val: &mut [u32], cut: u32) -> Sparse
    requires { Well s ind.old val.old }
    ensures { full result ind.new val.new ≡ from_cut (full s ind.old val.old) cut }
{
    if s.max < cut {
        return emptied(s);
    }
    drop_run(s, ind, val, s.min, cut)
}

// Drops the offsets at the cut and above it.
pub fn under_cut(s: Sparse, ind: &mut [u32], val: &mut [u32], cut: u32) -> Sparse
    requires { Well s ind.old val.old }
    ensures { full result ind.new val.new ≡ under_cut (full s ind.old val.old) cut }
{
    if cut <= s.min {
        return emptied(s);
    }
    if s.size == 0 {
        return s;
    }
    drop_run(s, ind, val, cut, s.max + 1)
}
