// The sparse calls that are timed, for the comparison's `speed`; `sparse_bench_c` exports them. A set goes in as numbers and lent orderings,
// and what comes out is a sum of the answers, so that no turn can be left out.
//
// bench_sparse_contains, bench_sparse_remove: one test of the set, then a turn of the inner work for each value.
// bench_sparse_call: one checked call, by the number that it has in scripts. bench_sparse_from_values: new_from_values.
#![tactic(auto)]

ghost use Rattle.sparse_inner.specs.Set.{Well};

use rules::{Refusal, Value};
use sparse::Handed;
use sparse_inner::Sparse;

// What a refusal adds to a sum.
const REFUSED: u64 = 1000;

// A set in one number.
fn folded(s: Sparse) -> u64 {
    (s.size as u64) ^ ((s.min as u64) << 16) ^ ((s.max as u64) << 32)
}

fn told(answer: Result<bool, Refusal>) -> u64 {
    answer.map_or(REFUSED, u64::from)
}

fn outcome(answer: Result<(), Refusal>) -> u64 {
    answer.map_or(REFUSED, |_| 0)
}

// How many of the values are held.
fn held(s: Sparse, ind: &[u32], val: &[u32], values: &[i32]) -> u64
    requires { Well s ind.now val.now }
{
    let mut sum: u64 = 0;
    for v in values {
        if sparse_inner::holds(ind, s.n, s.size, sparse_inner::place(s, Value(*v))) {
            sum = sum.wrapping_add(1);
        }
    }
    sum
}

pub fn bench_sparse_contains(
    off: i32,
    n: u32,
    size: u32,
    min: u32,
    max: u32,
    ind: &[u32],
    val: &[u32],
    values: &[i32],
) -> u64 {
    let s = Sparse {
        off,
        n,
        size,
        min,
        max,
    };
    match sparse_inner::check(s, ind, val) {
        Err(_) => REFUSED,
        Ok(()) => held(s, ind, val, values),
    }
}

// Removes the values one after the other.
fn removed(s: Sparse, ind: &mut [u32], val: &mut [u32], values: &[i32]) -> u64
    requires { Well s ind.old val.old }
{
    let mut cur = s;
    for v in values {
        cur = sparse_inner::drop_at(cur, ind, val, sparse_inner::place(cur, Value(*v)));
    }
    folded(cur)
}

pub fn bench_sparse_remove(
    off: i32,
    n: u32,
    size: u32,
    min: u32,
    max: u32,
    ind: &mut [u32],
    val: &mut [u32],
    values: &[i32],
) -> u64 {
    let s = Sparse {
        off,
        n,
        size,
        min,
        max,
    };
    match sparse_inner::check(s, ind, val) {
        Err(_) => REFUSED,
        Ok(()) => removed(s, ind, val, values),
    }
}

// What a call handed back and answered, as a sum.
fn handed<A, F: FnOnce(Result<A, Refusal>) -> u64>(h: Handed<A>, number: F) -> u64
    requires { F.IsAlwaysCallable number }
{
    folded(h.set).wrapping_add(number(h.answer))
}

pub fn bench_sparse_call(
    op: u64,
    off: i32,
    n: u32,
    size: u32,
    min: u32,
    max: u32,
    ind: &mut [u32],
    val: &mut [u32],
    v: i32,
) -> u64 {
    let s = Sparse {
        off,
        n,
        size,
        min,
        max,
    };
    let v = Value(v);
    match op {
        17 => told(sparse::contains(s, ind, val, v)),
        22 => sparse::min(s, ind, val).map_or(REFUSED, |_| 1),
        33 => handed(sparse::remove(s, ind, val, v), told),
        36 => handed(sparse::remove_below(s, ind, val, v), outcome),
        37 => handed(sparse::remove_above(s, ind, val, v), outcome),
        _ => 0,
    }
}

pub fn bench_sparse_from_values(values: &[i32], ind: &mut [u32], val: &mut [u32]) -> u64 {
    sparse_make::new_from_values(values, ind, val).map_or(REFUSED, folded)
}
