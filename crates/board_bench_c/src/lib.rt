// The loops over the board's calls as exported functions, for the comparison's `speed`.
//
// Each is the function of the same name in `board_bench`, and has no `requires` either.
#![tactic(auto)]

#[unsafe(no_mangle)]
pub extern "C" fn bench_propagate(assigned: usize, turns: usize, list: &[u32]) -> u64 {
    board_bench::bench_propagate(assigned, turns, list)
}

#[unsafe(no_mangle)]
pub extern "C" fn bench_close(marks: usize, turns: usize) -> u64 {
    board_bench::bench_close(marks, turns)
}

#[unsafe(no_mangle)]
pub extern "C" fn bench_enter(turns: usize) -> u64 {
    board_bench::bench_enter(turns)
}

#[unsafe(no_mangle)]
pub extern "C" fn bench_ask(turns: usize) -> u64 {
    board_bench::bench_ask(turns)
}

#[unsafe(no_mangle)]
pub extern "C" fn bench_trial(turns: usize) -> u64 {
    board_bench::bench_trial(turns)
}
