// The loops over the bit domain's calls as exported functions, for the comparison's `speed`.
//
// Each is the function of the same name in `probe_bench`, and has no `requires` either.
#![tactic(auto)]

#[unsafe(no_mangle)]
pub extern "C" fn bench_remove(lo: u64, hi: u64, min: i32, max: i32, values: &[i32]) -> u64 {
    probe_bench::bench_remove(lo, hi, min, max, values)
}

#[unsafe(no_mangle)]
pub extern "C" fn bench_insert(lo: u64, hi: u64, min: i32, max: i32, values: &[i32]) -> u64 {
    probe_bench::bench_insert(lo, hi, min, max, values)
}

#[unsafe(no_mangle)]
pub extern "C" fn bench_remove_below(lo: u64, hi: u64, min: i32, max: i32, values: &[i32]) -> u64 {
    probe_bench::bench_remove_below(lo, hi, min, max, values)
}

#[unsafe(no_mangle)]
pub extern "C" fn bench_remove_above(lo: u64, hi: u64, min: i32, max: i32, values: &[i32]) -> u64 {
    probe_bench::bench_remove_above(lo, hi, min, max, values)
}

#[unsafe(no_mangle)]
pub extern "C" fn bench_remove_all_but(
    lo: u64,
    hi: u64,
    min: i32,
    max: i32,
    values: &[i32],
) -> u64 {
    probe_bench::bench_remove_all_but(lo, hi, min, max, values)
}

#[unsafe(no_mangle)]
pub extern "C" fn bench_contains(lo: u64, hi: u64, min: i32, max: i32, values: &[i32]) -> u64 {
    probe_bench::bench_contains(lo, hi, min, max, values)
}

#[unsafe(no_mangle)]
pub extern "C" fn bench_contains_each(
    lo: &[u64],
    hi: &[u64],
    min: &[i32],
    max: &[i32],
    values: &[i32],
) -> u64 {
    probe_bench::bench_contains_each(lo, hi, min, max, values)
}

#[unsafe(no_mangle)]
pub extern "C" fn bench_size(lo: &[u64], hi: &[u64], min: &[i32], max: &[i32]) -> u64 {
    probe_bench::bench_size(lo, hi, min, max)
}

#[unsafe(no_mangle)]
pub extern "C" fn bench_min(lo: &[u64], hi: &[u64], min: &[i32], max: &[i32]) -> u64 {
    probe_bench::bench_min(lo, hi, min, max)
}

#[unsafe(no_mangle)]
pub extern "C" fn bench_max(lo: &[u64], hi: &[u64], min: &[i32], max: &[i32]) -> u64 {
    probe_bench::bench_max(lo, hi, min, max)
}

#[unsafe(no_mangle)]
pub extern "C" fn bench_is_fixed(lo: &[u64], hi: &[u64], min: &[i32], max: &[i32]) -> u64 {
    probe_bench::bench_is_fixed(lo, hi, min, max)
}

#[unsafe(no_mangle)]
pub extern "C" fn bench_iter(lo: &[u64], hi: &[u64], min: &[i32], max: &[i32]) -> u64 {
    probe_bench::bench_iter(lo, hi, min, max)
}

#[unsafe(no_mangle)]
pub extern "C" fn bench_to_vec(
    lo: &[u64],
    hi: &[u64],
    min: &[i32],
    max: &[i32],
    cells: &mut [i32],
) -> u64 {
    probe_bench::bench_to_vec(lo, hi, min, max, cells)
}
