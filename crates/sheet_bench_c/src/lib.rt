// The reading of a sheet as an exported function, for the comparison's `speed`.
//
// It is the function of the same name in `sheet_bench`, and has no `requires` either.
#![tactic(auto)]

#[unsafe(no_mangle)]
pub extern "C" fn bench_read(text: &[u8], pick: usize) -> u64 {
    sheet_bench::bench_read(text, pick)
}
