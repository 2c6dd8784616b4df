// The sparse calls that are timed as exported functions, for the comparison's `speed`.
//
// Each is the function of the same name in `sparse_bench`, and has no `requires` either.
#![tactic(auto)]

#[unsafe(no_mangle)]
pub extern "C" fn bench_sparse_contains(
    off: i32,
    n: u32,
    size: u32,
    min: u32,
    max: u32,
    ind: &[u32],
    val: &[u32],
    values: &[i32],
) -> u64 {
    sparse_bench::bench_sparse_contains(off, n, size, min, max, ind, val, values)
}

#[unsafe(no_mangle)]
pub extern "C" fn bench_sparse_remove(
    off: i32,
    n: u32,
    size: u32,
    min: u32,
    max: u32,
    ind: &mut [u32],
    val: &mut [u32],
    values: &[i32],
) -> u64 {
    sparse_bench::bench_sparse_remove(off, n, size, min, max, ind, val, values)
}

#[unsafe(no_mangle)]
pub extern "C" fn bench_sparse_call(
    op: u64,
    off: i32,
    n: u32,
    size: u32,
    min: u32,
    max: u32,
    ind: &mut [u32],
    val: &mut [u32],
    v: i32,
) -> u64 {
    sparse_bench::bench_sparse_call(op, off, n, size, min, max, ind, val, v)
}

#[unsafe(no_mangle)]
pub extern "C" fn bench_sparse_from_values(
    values: &[i32],
    ind: &mut [u32],
    val: &mut [u32],
) -> u64 {
    sparse_bench::bench_sparse_from_values(values, ind, val)
}
