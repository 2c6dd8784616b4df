// The batches in a loop as exported functions, for the comparison's `speed`.
//
// Each is the function of the same name in `hand_bench`, and has no `requires` either.
#![tactic(auto)]

#[unsafe(no_mangle)]
pub extern "C" fn bench_many(turns: usize) -> u64 {
    hand_bench::bench_many(turns)
}

#[unsafe(no_mangle)]
pub extern "C" fn bench_lent(turns: usize) -> u64 {
    hand_bench::bench_lent(turns)
}
